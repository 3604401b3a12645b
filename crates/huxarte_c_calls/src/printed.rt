//! What a command prints, and how it ends.

ghost use Rattle.std.specs.Prelude.{◌≡◌, length};
ghost use Rattle.huxarte_c_calls.specs.Ends.{status_of};
ghost use Rattle.huxarte_c_calls.specs.Texts.{IsText, written};

use crate::kinds::HuxKind;
use crate::texts::write_text;
use crate::words::CommandFault;
use std::alloc::Global;

/// How a command ended, and how many bytes it printed.
#[repr(C)]
#[derive(Clone, Copy)]
pub struct HuxEnd {
    /// The number of a `HuxKind`: `Fine` where a command ran, else `Outside`, `NoText` or `Memory`.
    pub kind: u32,
    /// The exit status of the command that ran: 0 done, 1 refused, 2 usage, 3 trap, 4 input or
    /// output; else 0.
    pub status: u32,
    /// How many bytes it printed on standard output.
    pub out: usize,
    /// How many bytes it printed on standard error.
    pub err: usize,
}

/// What is printed on standard output and on standard error.
#[derive(Drop)]
pub struct Printed {
    pub out: Vec<u8>,
    pub err: Vec<u8>,
}

impl Printed {
    /// Nothing is printed.
    pub fn new(alloc: Global) -> Printed {
        Printed {
            out: Vec::new(alloc),
            err: Vec::new(alloc),
        }
    }

    /// Writes what is printed on standard output, and answers how many bytes that is.
    pub fn write_out(&self, room: &mut [u8]) -> usize
        ensures wanted { result ≡ length self.now.out.items }
        ensures written { room.new ≡ written room.old self.now.out.items }
        ensures text { IsText room.old result room.new }
    {
        write_text(room, &self.out)
    }

    /// Writes what is printed on standard error, and answers how many bytes that is.
    pub fn write_err(&self, room: &mut [u8]) -> usize
        ensures wanted { result ≡ length self.now.err.items }
        ensures written { room.new ≡ written room.old self.now.err.items }
        ensures text { IsText room.old result room.new }
    {
        write_text(room, &self.err)
    }

    /// Writes both, and answers how the command ended that has this exit status, or did not run.
    pub fn end(&self, ran: Result<u8, CommandFault>, out: &mut [u8], err: &mut [u8]) -> HuxEnd
        ensures status { result.status ≡ status_of ran }
        ensures out_length { result.out ≡ length self.now.out.items }
        ensures out_written { out.new ≡ written out.old self.now.out.items }
        ensures err_length { result.err ≡ length self.now.err.items }
        ensures err_written { err.new ≡ written err.old self.now.err.items }
        ensures out { IsText out.old result.out out.new }
        ensures err { IsText err.old result.err err.new }
    {
        let (kind, status) = match ran {
            Ok(status) => (HuxKind::Fine, status),
            Err(fault) => (fault.kind(), 0),
        };
        HuxEnd {
            kind: kind as u32,
            status: u32::from(status),
            out: self.write_out(out),
            err: self.write_err(err),
        }
    }
}
