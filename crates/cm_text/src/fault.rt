//! Why bytes are refused.

use thiserror::Error;

/// Why bytes are not turned into another text.
#[derive(Clone, Copy, Debug, PartialEq, Eq, Drop, Error)]
pub enum TextFault {
    /// The bytes are no text of the encoding: the first `at` bytes are the longest beginning that
    /// is one.
    #[error("ill-formed text at byte {at}")]
    IllFormed { at: usize },
    /// There was no memory for the answer.
    #[error("out of memory")]
    Memory,
}

impl TextFault {
    ghost use Rattle.std.specs.Prelude.{◌≡◌};
    ghost use Rattle.cm_text.specs.Fault.{text_fault_number};

    /// The number by which the fault is known: 1 for `IllFormed`, 2 for `Memory`.
    pub fn number(self) -> u8
        ensures { result ≡ text_fault_number self }
    {
        match self {
            TextFault::IllFormed { .. } => 1,
            TextFault::Memory => 2,
        }
    }
}
