//! Why a call about a component is refused.

ghost use Rattle.std.specs.Prelude.{◌≡◌};
ghost use Rattle.huxarte_c_components.specs.Faults.{of_component};
ghost use Rattle.huxarte_c_components.specs.declared.fault.ComponentFault.TheVariants as fault;

use crate::checking::files_verdict;
use cm_shims::FilesFault;
use huxarte_c_calls::{CallFault, HuxKind, HuxVerdict};
use std::alloc::AllocError;

/// Why a call about a component is refused.
#[derive(Clone, Copy)]
pub enum ComponentFault {
    /// The file stands for no valid component, or not for what its shims say.
    Files(FilesFault),
    /// No function has the index.
    NoFunc,
    /// A path leads to no type, or the function has no result.
    NoPart,
    /// The call is refused.
    Call(CallFault),
    /// There was no memory.
    Memory,
}

impl ComponentFault {
    /// The fault in numbers.
    pub fn verdict(self) -> HuxVerdict
        ensures { result ≡ of_component self }
    {
        match self {
            ComponentFault::Files(fault) => files_verdict(fault),
            ComponentFault::NoFunc => HuxVerdict::of_kind(HuxKind::NoFunc),
            ComponentFault::NoPart => HuxVerdict::of_kind(HuxKind::NoPart),
            ComponentFault::Call(fault) => fault.verdict(),
            ComponentFault::Memory => HuxVerdict::of_kind(HuxKind::Memory),
        }
    }
}

impl From<FilesFault> for ComponentFault {
    ghost from_gives = { λ e r. r ≡ fault.Files e };

    fn from(fault: FilesFault) -> ComponentFault {
        ComponentFault::Files(fault)
    }
}

impl From<AllocError> for ComponentFault {
    ghost from_gives = { λ _ r. r ≡ fault.Memory };

    fn from(_error: AllocError) -> ComponentFault {
        ComponentFault::Memory
    }
}
