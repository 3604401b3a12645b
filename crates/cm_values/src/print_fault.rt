//! Why a value is not printed.

ghost use Rattle.std.specs.Prelude.{◌≡◌};
ghost use Rattle.cm_values.specs.PrintFaults.{print_fault_number};
ghost use Rattle.cm_values.specs.declared.print_fault.PrintFault.TheVariants as fault;

use std::alloc::AllocError;
use thiserror::Error;

/// Why a value is not printed.
#[derive(Clone, Copy, Debug, PartialEq, Eq, Error)]
pub enum PrintFault {
    /// The value has not the type.
    #[error("the value has not the type")]
    WrongType = 1,
    /// There was no memory for the text.
    #[error("no memory for the text")]
    Memory = 2,
}

impl PrintFault {
    /// The number by which the fault is known: 1 for `WrongType`, 2 for `Memory`.
    pub fn number(self) -> u8
        ensures { result ≡ print_fault_number self }
    {
        self as u8
    }
}

impl From<AllocError> for PrintFault {
    ghost from_gives = { λ _ f. f ≡ fault.Memory };

    fn from(_error: AllocError) -> Self {
        PrintFault::Memory
    }
}
