//! Why texts are no project.

use cm_wit_tokens::{WitFault, WitReason};
use std::alloc::{AllocError, AllocFailed};

/// The first fault of a project: the folder, by its number, and the file in it, by its own, both
/// from 0 in the order in which they are handed over, and the fault of the file's text. Where
/// memory was refused the place says nothing.
#[derive(Clone, Copy, PartialEq, Eq)]
pub struct ResolveFault {
    pub folder: usize,
    pub file: usize,
    pub fault: WitFault,
}

impl ResolveFault {
    ghost use Rattle.std.specs.Prelude.{◌≡◌};
    ghost use Rattle.cm_wit_projects.specs.Faults.{fault_at};

    /// Memory was refused.
    pub const MEMORY: ResolveFault = ResolveFault {
        folder: 0,
        file: 0,
        fault: WitFault::MEMORY,
    };

    /// A fault for this reason at a byte of the text of a file.
    pub fn at(folder: usize, file: usize, at: usize, reason: WitReason) -> ResolveFault
        ensures { result ≡ fault_at folder file at reason }
    {
        ResolveFault {
            folder,
            file,
            fault: WitFault { at, reason },
        }
    }
}

impl From<AllocError> for ResolveFault {
    ghost use Rattle.std.specs.Prelude.{◌≡◌};
    ghost use Rattle.cm_wit_tokens.specs.declared.fault.WitReason.TheVariants as reason;

    ghost from_gives = { λ _ e. e.fault.reason ≡ reason.Memory };

    fn from(_error: AllocError) -> ResolveFault {
        ResolveFault::MEMORY
    }
}

impl<T: Drop> From<AllocFailed<T>> for ResolveFault {
    ghost use Rattle.std.specs.Prelude.{◌≡◌};
    ghost use Rattle.cm_wit_tokens.specs.declared.fault.WitReason.TheVariants as reason;

    ghost from_gives = { λ _ e. e.fault.reason ≡ reason.Memory };

    fn from(_error: AllocFailed<T>) -> ResolveFault {
        ResolveFault::MEMORY
    }
}
