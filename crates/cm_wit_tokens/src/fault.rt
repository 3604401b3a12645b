//! Why a WIT text is refused.

ghost use Rattle.std.specs.Prelude.{◌≡◌};
ghost use Rattle.cm_wit_tokens.specs.declared.fault.ReadError.TheVariants.{Memory};
ghost use Rattle.cm_wit_tokens.specs.declared.fault.WitReason.TheVariants.{Memory as NoMemory};
ghost use Rattle.cm_wit_tokens.specs.Reasons.{reason_name, reason_number};

use std::alloc::{AllocError, AllocFailed};
use std::fmt;

/// Why a text is refused.
#[derive(Clone, Copy, PartialEq, Eq)]
pub enum WitReason {
    /// No blank, comment or token begins at the place.
    BadToken = 1,
    /// No package goes on with this token, or none ends here.
    Unexpected = 2,
    /// A name stands twice where names are distinct.
    Duplicate = 3,
    /// A name that nothing declares.
    UnknownName = 4,
    /// A declaration that leads to itself.
    Cycle = 5,
    /// A form of WIT that is not read.
    Unsupported = 6,
    /// A type more than 64 deep.
    TooDeep = 7,
    /// Memory was refused.
    Memory = 8,
}

impl WitReason {
    /// The number by which the reason is known, from 1 for `BadToken` to 8 for `Memory`.
    pub fn number(self) -> u8
        ensures { result ≡ reason_number self }
    {
        self as u8
    }

    /// The word by which the reason is known, as `UnknownName`.
    pub fn name(self) -> &'static str
        ensures { result.now ≡ reason_name self }
    {
        match self {
            WitReason::BadToken => "BadToken",
            WitReason::Unexpected => "Unexpected",
            WitReason::Duplicate => "Duplicate",
            WitReason::UnknownName => "UnknownName",
            WitReason::Cycle => "Cycle",
            WitReason::Unsupported => "Unsupported",
            WitReason::TooDeep => "TooDeep",
            WitReason::Memory => "Memory",
        }
    }

    /// What is wrong, in a few words.
    fn text(self) -> &'static str {
        match self {
            WitReason::BadToken => "no token begins here",
            WitReason::Unexpected => "another token was expected",
            WitReason::Duplicate => "a name stands twice",
            WitReason::UnknownName => "nothing declares this name",
            WitReason::Cycle => "a declaration leads to itself",
            WitReason::Unsupported => "a form that is not read",
            WitReason::TooDeep => "a type more than 64 deep",
            WitReason::Memory => "no memory",
        }
    }
}

impl fmt::Display for WitReason {
    fn fmt<W: fmt::Write>(&self, f: &mut fmt::Formatter<W>) -> fmt::Result {
        write!(f, "{}", self.text())
    }
}

/// Why a text is refused, and where: the byte, counted from 0, at which the fault's token stands,
/// or the text's length. Where memory was refused the place says nothing. It is shown as
/// `UnknownName at 36: nothing declares this name`.
#[derive(Clone, Copy, PartialEq, Eq)]
pub struct WitFault {
    pub at: usize,
    pub reason: WitReason,
}

impl WitFault {
    /// Memory was refused.
    pub const MEMORY: WitFault = WitFault {
        at: 0,
        reason: WitReason::Memory,
    };
}

impl From<AllocError> for WitFault {
    ghost from_gives = { λ _ e. e.reason ≡ NoMemory };

    fn from(_error: AllocError) -> WitFault {
        WitFault::MEMORY
    }
}

impl fmt::Display for WitFault {
    fn fmt<W: fmt::Write>(&self, f: &mut fmt::Formatter<W>) -> fmt::Result {
        let WitFault { at, reason } = self;
        let name = reason.name();
        write!(f, "{name} at {at}: {reason}")
    }
}

/// Why nothing was read. A fault is at the place where the reader stands.
#[derive(Clone, Copy)]
pub enum ReadError {
    /// Memory was refused.
    Memory,
    Fault(WitReason),
}

impl From<AllocError> for ReadError {
    ghost from_gives = { λ _ e. e ≡ Memory };

    fn from(_error: AllocError) -> ReadError {
        ReadError::Memory
    }
}

impl<T: Drop> From<AllocFailed<T>> for ReadError {
    ghost from_gives = { λ _ e. e ≡ Memory };

    fn from(_error: AllocFailed<T>) -> ReadError {
        ReadError::Memory
    }
}
