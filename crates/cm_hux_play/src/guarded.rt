//! The streams of `live`: what fails is noted, and a line ends early that is too long.

use std::io;
use std::io::{ErrorKind, Read, Write};

/// The most bytes of a line without its line feed: those of a `write` of 16,777,216 bytes, with two
/// digits each, behind the word and an address of ten digits.
pub(crate) const MAX_LINE: usize = 17 + 2 * 16_777_216;

/// Why reading failed.
#[derive(Clone, Copy)]
pub(crate) enum ReadFault {
    /// A line has more than `MAX_LINE` bytes.
    TooLong,
    /// The reader below failed.
    Failed,
}

/// A reader of lines, which fails behind the first byte that passes `MAX_LINE`.
#[derive(Drop)]
pub(crate) struct Lines<R> {
    reader: R,
    /// The bytes that were handed on of a line whose line feed was not.
    length: usize,
    /// Why reading failed, where it was tried last.
    fault: Option<ReadFault>,
}

impl<R: Read> Lines<R> {
    /// The lines of a reader, of which nothing was read.
    pub(crate) fn new(reader: R) -> Lines<R> {
        Lines {
            reader,
            length: 0,
            fault: None,
        }
    }

    /// Why reading failed, where it was tried last.
    pub(crate) fn fault(&self) -> Option<ReadFault> {
        self.fault
    }

    /// Whether bytes were handed on of a line whose line feed was not.
    pub(crate) fn is_within_line(&self) -> bool {
        self.length > 0
    }
}

impl<R: Read> Read for Lines<R> {
    fn read(&mut self, buf: &mut [u8]) -> io::Result<usize> {
        if self.length > MAX_LINE {
            self.fault = Some(ReadFault::TooLong);
            return Err(io::Error::from(ErrorKind::InvalidInput));
        }
        // One byte more than a line may have: the line feed, or the one that is too many.
        let room = MAX_LINE.saturating_sub(self.length).saturating_add(1);
        let most = room.min(buf.len());
        match self.reader.read(&mut buf[..most]) {
            Ok(count) => {
                self.fault = None;
                self.length = length_behind(self.length, &buf[..count]);
                Ok(count)
            }
            Err(error) => {
                self.fault = Some(ReadFault::Failed);
                Err(error)
            }
        }
    }
}

/// The bytes of a line whose line feed is not among these bytes, which stand behind so many of it.
fn length_behind(before: usize, bytes: &[u8]) -> usize {
    match bytes.iter().rposition(|byte| *byte == b'\n') {
        Some(at) => bytes.len().saturating_sub(at).saturating_sub(1),
        None => before.saturating_add(bytes.len()),
    }
}

/// A writer that notes whether writing failed, where it was tried last.
#[derive(Drop)]
pub(crate) struct Noted<'o, O> {
    out: &'o mut O,
    has_failed: bool,
}

impl<'o, O: Write> Noted<'o, O> {
    /// What is written goes to this writer.
    pub(crate) fn new(out: &'o mut O) -> Noted<'o, O> {
        Noted {
            out,
            has_failed: false,
        }
    }

    /// Whether writing failed.
    pub(crate) fn has_failed(&self) -> bool {
        self.has_failed
    }
}

impl<O: Write> Write for Noted<'_, O> {
    fn write(&mut self, bytes: &[u8]) -> io::Result<usize> {
        let written = self.out.write(bytes);
        self.has_failed = written.is_err();
        written
    }

    fn flush(&mut self) -> io::Result<()> {
        let flushed = self.out.flush();
        self.has_failed = flushed.is_err();
        flushed
    }
}
