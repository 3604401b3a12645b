//! Why nothing is shown.

ghost use Rattle.std.specs.Prelude.{◌≡◌};
ghost use Rattle.cm_tool_show.specs.Faults.{show_fault_number};
ghost use Rattle.cm_tool_show.specs.declared.fault.ShowFault.TheVariants as fault;

use std::alloc::{AllocError, AllocFailed};
use thiserror::Error;

/// Why a signature is not shown.
#[derive(Clone, Copy, Debug, PartialEq, Eq, Error)]
pub enum ShowFault {
    /// Its text has more than `MAX_SHOWN` bytes.
    #[error("the text would be longer than 67,108,864 bytes")]
    TooLong = 1,
    /// There was no memory for the text.
    #[error("no memory for the text")]
    Memory = 2,
}

impl ShowFault {
    /// The number by which the fault is known: 1 for `TooLong`, 2 for `Memory`.
    pub fn number(self) -> u8
        ensures { result ≡ show_fault_number self }
    {
        self as u8
    }
}

impl From<AllocError> for ShowFault {
    ghost from_gives = { λ _ f. f ≡ fault.Memory };

    fn from(_error: AllocError) -> Self {
        ShowFault::Memory
    }
}

impl<T: Drop> From<AllocFailed<T>> for ShowFault {
    ghost from_gives = { λ _ f. f ≡ fault.Memory };

    fn from(_error: AllocFailed<T>) -> Self {
        ShowFault::Memory
    }
}
