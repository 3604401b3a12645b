//! Why a text is no value of a type.

ghost use Rattle.std.specs.Prelude.{◌≡◌};
ghost use Rattle.cm_values.specs.Reasons.{reason_number};
ghost use Rattle.cm_values.specs.declared.value_fault.ReadError.TheVariants.{Memory};

use std::alloc::{AllocError, AllocFailed};
use std::fmt;

/// Why a text is refused.
#[derive(Clone, Copy, Debug, PartialEq, Eq)]
pub enum ValueReason {
    /// No value of the type goes on with this byte, or none ends here.
    Unexpected = 1,
    /// A `\` is no escape, or the number behind it is no Unicode scalar.
    BadEscape = 2,
    /// What stands in quotes is not UTF-8.
    NotUtf8 = 3,
    /// There is not exactly one character in the quotes of a char.
    NotOneChar = 4,
    /// A number that the type has not.
    OutOfRange = 5,
    /// A name that the type has not, or not here.
    UnknownName = 6,
    /// A list of fixed length with more elements or fewer.
    WrongLength = 7,
    /// Memory was refused.
    Memory = 8,
}

impl ValueReason {
    /// The number by which the reason is known, from 1 for `Unexpected` to 8 for `Memory`.
    pub fn number(self) -> u8
        ensures { result ≡ reason_number self }
    {
        self as u8
    }

    /// What is wrong, in a few words.
    fn text(self) -> &'static str {
        match self {
            ValueReason::Unexpected => "no value of the type goes on so",
            ValueReason::BadEscape => "an escape that is none",
            ValueReason::NotUtf8 => "what stands in quotes is not UTF-8",
            ValueReason::NotOneChar => "a char is one character",
            ValueReason::OutOfRange => "a number that the type has not",
            ValueReason::UnknownName => "a name that the type has not here",
            ValueReason::WrongLength => "a list of another length",
            ValueReason::Memory => "no memory",
        }
    }
}

impl fmt::Display for ValueReason {
    fn fmt<W: fmt::Write>(&self, f: &mut fmt::Formatter<W>) -> fmt::Result {
        write!(f, "{}", self.text())
    }
}

/// Why a text is refused, and where: the byte, counted from 0, at which the fault stands, or the
/// text's length. Where memory was refused the place says nothing.
#[derive(Clone, Copy, Debug, PartialEq, Eq)]
pub struct ValueFault {
    pub at: usize,
    pub reason: ValueReason,
}

impl ValueFault {
    /// Memory was refused.
    pub const MEMORY: ValueFault = ValueFault {
        at: 0,
        reason: ValueReason::Memory,
    };
}

impl fmt::Display for ValueFault {
    fn fmt<W: fmt::Write>(&self, f: &mut fmt::Formatter<W>) -> fmt::Result {
        let ValueFault { at, reason } = self;
        write!(f, "at {at}: {reason}")
    }
}

/// A fault where so many bytes are left.
#[derive(Clone, Copy)]
pub struct Fault {
    pub left: usize,
    pub reason: ValueReason,
}

/// Why nothing was read.
#[derive(Clone, Copy)]
pub enum ReadError {
    /// Memory was refused.
    Memory,
    Fault(Fault),
}

impl From<AllocError> for ReadError {
    ghost from_gives = { λ _ e. e ≡ Memory };

    fn from(_error: AllocError) -> ReadError {
        ReadError::Memory
    }
}

impl<T: Drop> From<AllocFailed<T>> for ReadError {
    ghost from_gives = { λ _ e. e ≡ Memory };

    fn from(_error: AllocFailed<T>) -> ReadError {
        ReadError::Memory
    }
}
