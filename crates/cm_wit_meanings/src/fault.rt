//! Why a text gives no type.

ghost use Rattle.std.specs.Prelude.{◌≡◌};
ghost use Rattle.cm_wit_meanings.specs.Faults.{meaning_fault_number};

use std::alloc::AllocError;
use thiserror::Error;

/// Why a text gives no type, the most basic reason first.
#[derive(Clone, Copy, Debug, PartialEq, Eq, Error)]
pub enum MeaningFault {
    /// A name stands for no type, or that of a borrow for no resource.
    #[error("a name stands for no type, or that of a borrow for no resource")]
    NoSuchType = 1,
    /// A type would have more than 10,000 nodes or be more than 64 deep.
    #[error("a type is too large")]
    TooLarge = 2,
    /// No file can spell a type: it has no fields, no cases, no labels or too many, or no elements.
    #[error("a type has no fields, no cases, no labels or too many, or no elements")]
    NotSpellable = 3,
    /// There was no memory.
    #[error("no memory")]
    Memory = 4,
}

impl MeaningFault {
    /// The number by which the fault is known, from 1 for `NoSuchType` to 4 for `Memory`.
    pub fn number(self) -> u8
        ensures { result ≡ meaning_fault_number self }
    {
        self as u8
    }
}

impl From<AllocError> for MeaningFault {
    ghost use Rattle.std.specs.Prelude.{◌≡◌};
    ghost use Rattle.cm_wit_meanings.specs.declared.fault.MeaningFault.TheVariants as fault;

    ghost from_gives = { λ _ e. e ≡ fault.Memory };

    fn from(_error: AllocError) -> MeaningFault {
        MeaningFault::Memory
    }
}
