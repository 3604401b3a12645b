//! Why no file of a stub is written.

ghost use Rattle.std.specs.Prelude.{◌≡◌};
ghost use Rattle.cm_stubs_files.specs.declared.fault.StubFileFault.TheVariants as faults;

use cm_binary_forms::DecodeReason;
use cm_match::{LinkFault, LinkReason};
use cm_shims::{FitFault, FitReason, ShimFault};
use cm_stubs_written::DraftFault;
use cm_validate::{ValidFault, ValidReason};
use cm_wit_conforms::{ConformFault, ConformReason};
use std::alloc::{AllocError, AllocFailed};
use thiserror::Error;

/// Why no file of a stub is written.
#[derive(Clone, Copy, Debug, PartialEq, Eq, Drop, Error)]
pub enum StubFileFault {
    /// What is written is not read as a valid component that has the types that the file says: as
    /// where two names of a shim are one.
    #[error("its file is not read as one of a component")]
    NotRead,
    /// No stub of what is asked can be written, or what is written is read as another one: a caller
    /// that exports something or calls something else, a provider that exports more.
    #[error("its file is read as that of another component")]
    NotAsked,
    /// The components do not link behind what is written; the fault counts the stub among them.
    #[error("{0}")]
    NotLinked(LinkFault),
    /// There was no memory.
    #[error("no memory")]
    Memory,
}

impl From<AllocError> for StubFileFault {
    ghost from_gives = { λ _ f. f ≡ faults.Memory };

    fn from(_error: AllocError) -> StubFileFault {
        StubFileFault::Memory
    }
}

impl<T: Drop> From<AllocFailed<T>> for StubFileFault {
    ghost from_gives = { λ _ f. f ≡ faults.Memory };

    fn from(_error: AllocFailed<T>) -> StubFileFault {
        StubFileFault::Memory
    }
}

impl From<DraftFault> for StubFileFault {
    fn from(fault: DraftFault) -> StubFileFault {
        match fault {
            DraftFault::Memory => StubFileFault::Memory,
            DraftFault::TooMany | DraftFault::TooLong | DraftFault::NoResource => {
                StubFileFault::NotAsked
            }
        }
    }
}

impl From<ShimFault> for StubFileFault {
    fn from(fault: ShimFault) -> StubFileFault {
        match fault {
            ShimFault::Decode(fault) if fault.reason == DecodeReason::Memory => {
                StubFileFault::Memory
            }
            ShimFault::Decode(_) | ShimFault::Plain(_) | ShimFault::Limit(_) => {
                StubFileFault::NotRead
            }
        }
    }
}

impl From<ValidFault> for StubFileFault {
    fn from(fault: ValidFault) -> StubFileFault {
        match fault.reason {
            ValidReason::Memory => StubFileFault::Memory,
            _ => StubFileFault::NotRead,
        }
    }
}

impl From<FitFault> for StubFileFault {
    fn from(fault: FitFault) -> StubFileFault {
        match fault.reason {
            FitReason::Memory => StubFileFault::Memory,
            _ => StubFileFault::NotRead,
        }
    }
}

impl From<ConformFault> for StubFileFault {
    fn from(fault: ConformFault) -> StubFileFault {
        match fault.reason {
            ConformReason::Memory => StubFileFault::Memory,
            _ => StubFileFault::NotAsked,
        }
    }
}

impl From<LinkFault> for StubFileFault {
    fn from(fault: LinkFault) -> StubFileFault {
        match fault.reason {
            LinkReason::Memory => StubFileFault::Memory,
            _ => StubFileFault::NotLinked(fault),
        }
    }
}
