//! Why a line of a script of `hux` is refused.

use cm_tool_script::LineFault;
use std::alloc::{AllocError, AllocFailed};
use std::fmt;

/// Why a name leads to no core function.
#[derive(Clone, Copy, Debug, PartialEq, Eq)]
pub enum NameFault {
    /// No core function of the component has the name.
    Unknown,
    /// Several exports of its core instances have it.
    Several,
}

/// Why a line of a script is refused.
#[derive(Clone, Copy)]
pub enum HuxLineFault {
    /// What `component_tool` refuses too.
    Line(LineFault),
    /// What is expected is the line of no event.
    NotAnEvent,
    /// There is no such trap.
    NoSuchTrap,
    /// A name leads to no core function.
    Name(NameFault),
    /// An event is expected where none can have been.
    NoEvent,
    /// More bytes are to be printed than a line may have.
    TooMany,
}

/// The first line of a script that is at fault, from 1, and why.
#[derive(Clone, Copy)]
pub struct HuxRefusal {
    pub line: usize,
    pub fault: HuxLineFault,
}

impl fmt::Display for HuxLineFault {
    fn fmt<W: fmt::Write>(&self, f: &mut fmt::Formatter<W>) -> fmt::Result {
        match self {
            HuxLineFault::Line(fault) => write!(f, "{fault}"),
            HuxLineFault::NotAnEvent => f.write_str("no event"),
            HuxLineFault::NoSuchTrap => f.write_str("no such trap"),
            HuxLineFault::Name(NameFault::Unknown) => {
                f.write_str("no core function of the component has the name")
            }
            HuxLineFault::Name(NameFault::Several) => {
                f.write_str("several core functions of the component have the name")
            }
            HuxLineFault::NoEvent => f.write_str("no event was before"),
            HuxLineFault::TooMany => f.write_str("more bytes than are printed"),
        }
    }
}

impl From<LineFault> for HuxLineFault {
    fn from(fault: LineFault) -> HuxLineFault {
        HuxLineFault::Line(fault)
    }
}

impl From<NameFault> for HuxLineFault {
    fn from(fault: NameFault) -> HuxLineFault {
        HuxLineFault::Name(fault)
    }
}

impl From<AllocError> for HuxLineFault {
    fn from(_error: AllocError) -> HuxLineFault {
        HuxLineFault::Line(LineFault::Memory)
    }
}

impl<T: Drop> From<AllocFailed<T>> for HuxLineFault {
    fn from(_error: AllocFailed<T>) -> HuxLineFault {
        HuxLineFault::Line(LineFault::Memory)
    }
}
