//! Why a stub is not written.

use cm_binary_model::LimitFault;
use std::alloc::{AllocError, AllocFailed};
use thiserror::Error;

/// Why a stub is not written.
#[derive(Clone, Copy, Debug, PartialEq, Eq, Error)]
pub enum DraftFault {
    /// The stub would have more types than a file may have.
    #[error("the stub would have more than 4096 types")]
    TooMany,
    /// The stub, or what is asked of it, would have more bytes than a file may have.
    #[error("the stub, or what is asked of it, would have more than 16777216 bytes")]
    TooLong,
    /// A function passes handles of a resource that no instance has, up to and with its own.
    #[error("no instance up to its own has the resource of a function's handle")]
    NoResource,
    /// There was no memory.
    #[error("no memory")]
    Memory,
}

impl From<AllocError> for DraftFault {
    fn from(_error: AllocError) -> DraftFault {
        DraftFault::Memory
    }
}

impl<T: Drop> From<AllocFailed<T>> for DraftFault {
    fn from(_error: AllocFailed<T>) -> DraftFault {
        DraftFault::Memory
    }
}

impl From<LimitFault> for DraftFault {
    fn from(fault: LimitFault) -> DraftFault {
        match fault {
            LimitFault::TooMany => DraftFault::TooMany,
            LimitFault::TooLong | LimitFault::NotAModule => DraftFault::TooLong,
        }
    }
}
