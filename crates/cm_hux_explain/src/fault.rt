//! Why nothing is explained.

ghost use Rattle.std.specs.Prelude.{◌≡◌};
ghost use Rattle.cm_hux_explain.specs.declared.fault.ExplainFault.TheVariants as fault;

use std::alloc::{AllocError, AllocFailed};

/// Why nothing is explained.
#[derive(Drop)]
pub enum ExplainFault {
    /// A word names nothing. The text says which, and which names are near.
    Unknown(String),
    /// There was no memory.
    Memory,
}

impl From<AllocError> for ExplainFault {
    ghost from_gives = { λ _ f. f ≡ fault.Memory };

    fn from(_error: AllocError) -> ExplainFault {
        ExplainFault::Memory
    }
}

impl<T: Drop> From<AllocFailed<T>> for ExplainFault {
    ghost from_gives = { λ _ f. f ≡ fault.Memory };

    fn from(_error: AllocFailed<T>) -> ExplainFault {
        ExplainFault::Memory
    }
}
