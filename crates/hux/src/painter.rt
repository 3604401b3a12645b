//! Lines with colored words.

use std::alloc::Global;
use std::io;
use std::io::Write;

const RED: &[u8] = b"\x1b[31m";

const GREEN: &[u8] = b"\x1b[32m";

const PLAIN: &[u8] = b"\x1b[0m";

/// A writer of lines, in which words that matter are colored: `error:` and `trapped` where a line
/// begins so, in red, and `ok` where it ends a line, alone or behind `: `, in green.
///
/// A line is written as a whole, once it ends; `flush` writes what there is of it as it stands.
/// Where nothing is colored all is written as it comes.
#[derive(Drop)]
pub struct Painter<W> {
    writer: W,
    line: Vec<u8>,
    is_colored: bool,
}

impl<W: Write> Painter<W> {
    /// A writer to this one.
    pub fn new(alloc: Global, writer: W, is_colored: bool) -> Painter<W> {
        Painter {
            writer,
            line: Vec::new(alloc),
            is_colored,
        }
    }

    /// Writes the line, and begins another one.
    fn end_line(&mut self) -> io::Result<()> {
        write_line(&mut self.writer, &self.line)?;
        self.line.clear();
        self.writer.write_all(b"\n")
    }
}

impl<W: Write> Write for Painter<W> {
    fn write(&mut self, bytes: &[u8]) -> io::Result<usize> {
        if !self.is_colored {
            return self.writer.write(bytes);
        }
        for byte in bytes {
            if *byte == b'\n' {
                self.end_line()?;
            } else {
                self.line.push(*byte)?;
            }
        }
        Ok(bytes.len())
    }

    fn flush(&mut self) -> io::Result<()> {
        self.writer.write_all(&self.line)?;
        self.line.clear();
        self.writer.flush()
    }
}

/// Writes a line without its end.
fn write_line<W: Write>(writer: &mut W, line: &[u8]) -> io::Result<()> {
    if let Some(behind) = line.strip_prefix(b"error:") {
        write_word(writer, RED, b"error:")?;
        return writer.write_all(behind);
    }
    if let Some(behind) = line.strip_prefix(b"trapped") {
        write_word(writer, RED, b"trapped")?;
        return writer.write_all(behind);
    }
    match line.strip_suffix(b"ok") {
        Some(front) if front.is_empty() || front.ends_with(b": ") => {
            writer.write_all(front)?;
            write_word(writer, GREEN, b"ok")
        }
        _ => writer.write_all(line),
    }
}

/// Writes a word in a color.
fn write_word<W: Write>(writer: &mut W, color: &[u8], word: &[u8]) -> io::Result<()> {
    writer.write_all(color)?;
    writer.write_all(word)?;
    writer.write_all(PLAIN)
}
