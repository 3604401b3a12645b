//! Why files of real tools stand for no valid components.

ghost use Rattle.std.specs.Prelude.{◌≡◌};
ghost use Rattle.cm_shims.specs.declared.files_fault.FilesFault.TheVariants as files_fault;

use crate::fault::FitFault;
use cm_shims_plain::ShimFault;
use cm_validate_spaces::ValidFault;
use std::alloc::{AllocError, AllocFailed};
use thiserror::Error;

/// Why files of real tools stand for no valid components. Files are counted from 0, in the order in
/// which they were given.
#[derive(Clone, Copy, Debug, PartialEq, Eq, Drop, Error)]
pub enum FilesFault {
    /// The bytes of a file are not read as a plain component.
    #[error("file {file}: {fault}")]
    Read { file: usize, fault: ShimFault },
    /// The plain component of a file is not valid. The fault counts the sections and the items of
    /// that component (`Shimmed::places` leads to those of the file).
    #[error("file {file}: {fault}")]
    Component { file: usize, fault: ValidFault },
    /// The plain component of a file does not have the types that the file's shims say.
    #[error("file {file}: {fault}")]
    Shims { file: usize, fault: FitFault },
    /// There was no memory for the lists of components.
    #[error("no memory")]
    Memory,
}

impl From<AllocError> for FilesFault {
    ghost from_gives = { λ _ f. f ≡ files_fault.Memory };

    fn from(_error: AllocError) -> FilesFault {
        FilesFault::Memory
    }
}

impl<T: Drop> From<AllocFailed<T>> for FilesFault {
    ghost from_gives = { λ _ f. f ≡ files_fault.Memory };

    fn from(_error: AllocFailed<T>) -> FilesFault {
        FilesFault::Memory
    }
}
