//! Why files of real tools do not come to a set that runs.

ghost use Rattle.std.specs.Prelude.{◌≡◌};
ghost use Rattle.huxarte.specs.declared.real_fault.RealFault.TheVariants as real_fault;

use cm_host::machine::Misuse;
use cm_stubs_files::matching::LinkFault;
use cm_stubs_files::shims::FilesFault;
use thiserror::Error;

/// Why files of real tools do not come to a set that runs.
#[derive(Clone, Copy, Debug, PartialEq, Eq, Drop, Error)]
pub enum RealFault {
    /// A file stands for no valid component, or not for what its shims say.
    #[error("{0}")]
    File(FilesFault),
    /// The components can't be linked; the fault counts them as the files.
    #[error("{0}")]
    Link(LinkFault),
    /// The machine refuses the set.
    #[error("{0}")]
    Set(Misuse),
}

impl From<FilesFault> for RealFault {
    ghost from_gives = { λ e f. f ≡ real_fault.File e };

    fn from(fault: FilesFault) -> RealFault {
        RealFault::File(fault)
    }
}

impl From<LinkFault> for RealFault {
    ghost from_gives = { λ e f. f ≡ real_fault.Link e };

    fn from(fault: LinkFault) -> RealFault {
        RealFault::Link(fault)
    }
}

impl From<Misuse> for RealFault {
    ghost from_gives = { λ e f. f ≡ real_fault.Set e };

    fn from(misuse: Misuse) -> RealFault {
        RealFault::Set(misuse)
    }
}
