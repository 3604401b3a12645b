//! Why going through a file stopped.

ghost use Rattle.std.specs.Prelude.{◌≡◌};
ghost use Rattle.cm_shims_plain.specs.declared.stop.Stop.TheVariants.{Memory};

use std::alloc::{AllocError, AllocFailed};

/// Why going through a file stopped.
#[derive(Clone, Copy, Debug, PartialEq, Eq)]
pub enum Stop<E> {
    /// Memory was refused.
    Memory,
    Fault(E),
}

impl<E> From<AllocError> for Stop<E> {
    ghost from_gives = { λ _ e. e ≡ Memory };

    fn from(_e: AllocError) -> Stop<E> {
        Stop::Memory
    }
}

impl<E, T: Drop> From<AllocFailed<T>> for Stop<E> {
    ghost from_gives = { λ _ e. e ≡ Memory };

    fn from(_e: AllocFailed<T>) -> Stop<E> {
        Stop::Memory
    }
}
