//! Why a world has no signature.

ghost use Rattle.std.specs.Prelude.{◌≡◌};
ghost use Rattle.cm_wit_worlds.specs.Faults.{world_fault_number};

use std::alloc::AllocError;
use thiserror::Error;

/// Why a world has no signature, the most basic reason first.
#[derive(Clone, Copy, Debug, PartialEq, Eq, Error)]
pub enum WorldFault {
    /// No package has a world of this full name.
    #[error("there is no such world")]
    NoSuchWorld = 1,
    /// A path in the world, or in an interface that it reaches, leads to no interface.
    #[error("a path leads to no interface")]
    NoSuchInterface = 2,
    /// A name in what the world reaches leads to no type, or that of a borrow to no resource.
    #[error("a name leads to no type, or that of a borrow to no resource")]
    NoSuchType = 3,
    /// A type or an interface that the world reaches leads to itself.
    #[error("a type or an interface leads to itself")]
    Cycle = 4,
    /// A type has more than 10,000 nodes or is more than 64 deep.
    #[error("a type is too large")]
    TooLarge = 5,
    /// There was no memory.
    #[error("no memory")]
    Memory = 6,
}

impl WorldFault {
    /// The number by which the fault is known, from 1 for `NoSuchWorld` to 6 for `Memory`.
    pub fn number(self) -> u8
        ensures { result ≡ world_fault_number self }
    {
        self as u8
    }
}

impl From<AllocError> for WorldFault {
    ghost use Rattle.std.specs.Prelude.{◌≡◌};
    ghost use Rattle.cm_wit_worlds.specs.declared.fault.WorldFault.TheVariants as fault;

    ghost from_gives = { λ _ e. e ≡ fault.Memory };

    fn from(_error: AllocError) -> WorldFault {
        WorldFault::Memory
    }
}
