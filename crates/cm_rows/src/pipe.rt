//! Writers in memory.

use std::io;
use std::io::{ErrorKind, Write};

/// What a writer does once it is full.
#[derive(Clone, Copy)]
pub enum Full {
    /// It fails.
    Fails,
    /// It takes no bytes.
    TakesNone,
}

/// A writer into memory.
#[derive(Drop)]
pub struct Pipe {
    pub taken: Vec<u8>,
    /// How many more bytes it takes.
    room: usize,
    full: Full,
    /// The most bytes of one write.
    size: usize,
    /// Whether each second write is interrupted, from the first one on.
    pub interrupts: bool,
    was_interrupted: bool,
}

impl Pipe {
    /// A writer that puts behind these bytes so many more, at most `size` of them a write.
    pub fn new(taken: Vec<u8>, size: usize, room: usize, full: Full) -> Pipe {
        Pipe {
            taken,
            room,
            full,
            size,
            interrupts: false,
            was_interrupted: false,
        }
    }
}

impl Write for Pipe {
    fn write(&mut self, buf: &[u8]) -> io::Result<usize> {
        self.was_interrupted = self.interrupts && !self.was_interrupted;
        if self.was_interrupted {
            return Err(io::Error::from(ErrorKind::Interrupted));
        }
        if self.room == 0 && matches!(self.full, Full::Fails) {
            return Err(io::Error::from(ErrorKind::BrokenPipe));
        }
        let count = buf.len().min(self.size).min(self.room);
        self.taken.extend_from_slice(&buf[..count])?;
        self.room -= count;
        Ok(count)
    }

    fn flush(&mut self) -> io::Result<()> {
        Ok(())
    }
}
