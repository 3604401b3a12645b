//! Why no stub is made.

ghost use Rattle.std.specs.Prelude.{◌≡◌};
ghost use Rattle.cm_stubs.specs.Faults.{fault_number};
ghost use Rattle.cm_stubs.specs.declared.fault.StubFault.TheVariants as stub_fault;

use cm_match::LinkFault;
use cm_stubs_written::DraftFault;
use cm_validate::ValidFault;
use std::alloc::{AllocError, AllocFailed};
use thiserror::Error;

/// Why no stub is made. Components are counted from 0, in the order in which they were given.
#[derive(Clone, Copy, Debug, PartialEq, Eq, Drop, Error)]
pub enum StubFault {
    /// A component that was given is not valid.
    #[error("component {component}: {fault}")]
    Component { component: usize, fault: ValidFault },
    /// The stub would have more types than a file may have.
    #[error("the stub would have more than 4096 types")]
    TooMany,
    /// The stub, or what is asked of it, would have more bytes than a file may have: the names, and
    /// the items of each instance, also where several are of one type.
    #[error("the stub, or what is asked of it, would have more than 16777216 bytes")]
    TooLong,
    /// A function passes handles of a resource that no instance has, up to and with its own.
    #[error("no instance up to its own has the resource of a function's handle")]
    NoResource,
    /// The stub would not be valid: two names differ by the case of letters alone.
    #[error("the stub is not valid: {0}")]
    NotValid(ValidFault),
    /// The stub and the components can't be linked; the fault counts the stub among them.
    #[error("{0}")]
    NotLinked(LinkFault),
    /// The stub would import or export more than is asked. It does not come, as tests show.
    #[error("the stub would import or export more than is asked")]
    NotExact,
    /// There was no memory.
    #[error("no memory")]
    Memory,
}

impl StubFault {
    /// The number by which the fault is known, from 1 for `Component` to 8 for `Memory`.
    pub fn number(self) -> u8
        ensures { result ≡ fault_number self }
    {
        match self {
            StubFault::Component { .. } => 1,
            StubFault::TooMany => 2,
            StubFault::TooLong => 3,
            StubFault::NoResource => 4,
            StubFault::NotValid(_) => 5,
            StubFault::NotLinked(_) => 6,
            StubFault::NotExact => 7,
            StubFault::Memory => 8,
        }
    }
}

impl From<AllocError> for StubFault {
    ghost from_gives = { λ _ f. f ≡ stub_fault.Memory };

    fn from(_error: AllocError) -> StubFault {
        StubFault::Memory
    }
}

impl<T: Drop> From<AllocFailed<T>> for StubFault {
    ghost from_gives = { λ _ f. f ≡ stub_fault.Memory };

    fn from(_error: AllocFailed<T>) -> StubFault {
        StubFault::Memory
    }
}

impl From<DraftFault> for StubFault {
    fn from(fault: DraftFault) -> StubFault {
        match fault {
            DraftFault::TooMany => StubFault::TooMany,
            DraftFault::TooLong => StubFault::TooLong,
            DraftFault::NoResource => StubFault::NoResource,
            DraftFault::Memory => StubFault::Memory,
        }
    }
}
