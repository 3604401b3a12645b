//! Rows on files that are read from a reader.

use crate::outcomes::{show_outcome, write_answers, write_outcome};
use cm_binary::decode_from;
use cm_rows::{Line, word};
use std::alloc::Global;
use std::io;
use std::io::{ErrorKind, Read};

/// How a reader ends.
#[derive(Clone, Copy)]
enum Ending {
    /// Its bytes are used up.
    End,
    /// It fails behind them.
    Failure,
}

/// A reader of bytes in memory.
#[derive(Drop)]
struct Tap<'a> {
    rest: &'a [u8],
    ending: Ending,
    /// The most bytes of one read.
    size: usize,
    /// Whether each second read is interrupted, from the first one on.
    interrupts: bool,
    was_interrupted: bool,
    /// The most bytes that were asked for.
    asked: usize,
}

impl<'a> Tap<'a> {
    fn new(bytes: &'a [u8], size: usize, ending: Ending, interrupts: bool) -> Tap<'a> {
        Tap {
            rest: bytes,
            ending,
            size,
            interrupts,
            was_interrupted: false,
            asked: 0,
        }
    }
}

impl<'a> Read for Tap<'a> {
    fn read(&mut self, buf: &mut [u8]) -> io::Result<usize> {
        self.asked = self.asked.max(buf.len());
        self.was_interrupted = self.interrupts && !self.was_interrupted;
        if self.was_interrupted {
            return Err(io::Error::from(ErrorKind::Interrupted));
        }
        if self.rest.is_empty() && matches!(self.ending, Ending::Failure) {
            return Err(io::Error::from(ErrorKind::BrokenPipe));
        }
        let count = buf.len().min(self.size).min(self.rest.len());
        let (given, rest) = self.rest.split_at(count);
        buf[..count].copy_from_slice(given);
        self.rest = rest;
        Ok(count)
    }
}

/// The answer to `slice FILE`, or of a reader that gives at most SIZE bytes a read, to `parts SIZE
/// FILE`, `interrupted SIZE FILE` or `failing SIZE FILE`.
pub fn answer(alloc: Global, words: &[&str], line: &mut Line) {
    let first = word(words, 1);
    match word(words, 0) {
        "slice" => write_slice(alloc, &line.bytes(alloc, first), line),
        form => {
            let size = line.number(first);
            write_read_file(alloc, form, size, &line.bytes(alloc, word(words, 2)), line);
        }
    }
}

fn write_slice(alloc: Global, mut file: &[u8], line: &mut Line) {
    write_outcome(alloc, decode_from(alloc, &mut file), line);
}

fn write_read_file(alloc: Global, form: &str, size: usize, file: &[u8], line: &mut Line) {
    match form {
        "parts" => write_read(alloc, &mut Tap::new(file, size, Ending::End, false), line),
        "interrupted" => write_read(alloc, &mut Tap::new(file, size, Ending::End, true), line),
        "failing" => write_failing(alloc, file, size, line),
        _ => line.refuse(),
    }
}

/// Writes what is read, how many bytes are left in the reader, and the most that a read asked for.
fn write_read(alloc: Global, tap: &mut Tap<'_>, line: &mut Line) {
    write_outcome(alloc, decode_from(alloc, tap), line);
    line.put("; ");
    line.show(tap.rest.len());
    line.put(" left, at most ");
    line.show(tap.asked);
    line.put(" a read");
}

/// Writes what is read of a reader that fails behind so many bytes, for each number up to the
/// length.
fn write_failing(alloc: Global, file: &[u8], size: usize, line: &mut Line) {
    let mut answers = Vec::new(alloc);
    for length in 0..=file.len() {
        line.push(&mut answers, show_failure(alloc, &file[..length], size));
    }
    write_answers(line, &answers);
}

fn show_failure(alloc: Global, beginning: &[u8], size: usize) -> Line {
    let mut tap = Tap::new(beginning, size, Ending::Failure, false);
    show_outcome(alloc, decode_from(alloc, &mut tap))
}
