//! Why a file is not written whole.

use thiserror::Error;

/// Why writing stopped, by the number of the reason.
#[derive(Clone, Copy, Debug, PartialEq, Eq, Error)]
pub enum WriteReason {
    /// The writer failed, or took none of the bytes.
    #[error("the writer failed")]
    Write,
    /// There was no memory.
    #[error("no memory")]
    Memory,
}

impl WriteReason {
    ghost use Rattle.std.specs.Prelude.{◌≡◌};
    ghost use Rattle.cm_binary.specs.Streams.{write_reason_number};

    /// The number by which the reason is known: 1 for `Write`, 2 for `Memory`.
    pub fn number(self) -> u8
        ensures { result ≡ write_reason_number self }
    {
        match self {
            WriteReason::Write => 1,
            WriteReason::Memory => 2,
        }
    }
}

/// Why a file was not written whole, and how many of its bytes were, from its first byte on.
#[derive(Clone, Copy, Debug, PartialEq, Eq, Error)]
#[error("{reason} after {written} bytes")]
pub struct WriteFault {
    pub written: usize,
    pub reason: WriteReason,
}
