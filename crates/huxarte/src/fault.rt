//! Why files do not come to a set that runs.

ghost use Rattle.std.specs.Prelude.{◌≡◌};
ghost use Rattle.huxarte.specs.declared.fault.LoadFault.TheVariants as load_fault;

use cm_binary::DecodeFault;
use cm_host::machine::Misuse;
use cm_stubs_files::matching::LinkFault;
use cm_validate::ValidFault;
use std::alloc::{AllocError, AllocFailed};
use thiserror::Error;

/// Why files do not come to a set that runs. Files are counted from 0, in the order in which they
/// were given.
#[derive(Clone, Copy, Debug, PartialEq, Eq, Drop, Error)]
pub enum LoadFault {
    /// The bytes of a file spell no component.
    #[error("file {file}: {fault}")]
    File { file: usize, fault: DecodeFault },
    /// The component of a file is not valid.
    #[error("file {file}: {fault}")]
    Component { file: usize, fault: ValidFault },
    /// The components can't be linked; the fault counts them as the files.
    #[error("{0}")]
    Link(LinkFault),
    /// The machine refuses the set.
    #[error("{0}")]
    Set(Misuse),
    /// There was no memory for the lists of components.
    #[error("no memory")]
    Memory,
}

impl From<LinkFault> for LoadFault {
    ghost from_gives = { λ e f. f ≡ load_fault.Link e };

    fn from(fault: LinkFault) -> LoadFault {
        LoadFault::Link(fault)
    }
}

impl From<Misuse> for LoadFault {
    ghost from_gives = { λ e f. f ≡ load_fault.Set e };

    fn from(misuse: Misuse) -> LoadFault {
        LoadFault::Set(misuse)
    }
}

impl From<AllocError> for LoadFault {
    ghost from_gives = { λ _ f. f ≡ load_fault.Memory };

    fn from(_error: AllocError) -> LoadFault {
        LoadFault::Memory
    }
}

impl<T: Drop> From<AllocFailed<T>> for LoadFault {
    ghost from_gives = { λ _ f. f ≡ load_fault.Memory };

    fn from(_error: AllocFailed<T>) -> LoadFault {
        LoadFault::Memory
    }
}
