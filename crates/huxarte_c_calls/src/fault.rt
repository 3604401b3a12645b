//! Why a call is refused.

ghost use Rattle.std.specs.Prelude.{◌≡◌};
ghost use Rattle.huxarte_c_calls.specs.Faults.{of_call};
ghost use Rattle.huxarte_c_calls.specs.declared.fault.CallFault.TheVariants as call_fault;

use crate::kinds::HuxKind;
use crate::verdicts::HuxVerdict;
use cm_abi::AbiFault;
use cm_handles::HandleFault;
use std::alloc::{AllocError, AllocFailed};
use std::fmt;

/// Why a call is refused.
#[derive(Clone, Copy)]
pub enum CallFault {
    /// Strings are read or stored in no encoding of this number.
    NoEncoding,
    /// There are not as many core values as pass the parameters.
    NoSlots,
    /// A memory has 2^32 bytes or more.
    TooLarge,
    /// The values are refused, or what they are copied to.
    Value(AbiFault),
    /// A handle table is not as it is handed over.
    Handles(HandleFault),
    /// The answer of this number, from 0, is refused.
    Answer { number: usize, fault: AbiFault },
    /// There are as many answers, and more or fewer requests.
    Answers(usize),
    /// There was no memory.
    Memory,
}

impl CallFault {
    /// The fault in numbers.
    pub fn verdict(self) -> HuxVerdict
        ensures { result ≡ of_call self }
    {
        match self {
            CallFault::NoEncoding => HuxVerdict::of_kind(HuxKind::NoEncoding),
            CallFault::NoSlots => HuxVerdict::of_kind(HuxKind::NoSlots),
            CallFault::TooLarge => HuxVerdict::of_kind(HuxKind::TooLarge),
            CallFault::Value(fault) => {
                HuxVerdict::at_item(HuxKind::Value, fault.number(), 0, 0, 0)
            }
            CallFault::Handles(fault) => {
                HuxVerdict::at_item(HuxKind::Handles, fault.number(), 0, 0, 0)
            }
            CallFault::Answer { number, fault } => {
                HuxVerdict::at_item(HuxKind::Answer, fault.number(), 0, number, 0)
            }
            CallFault::Answers(count) => HuxVerdict::at_item(HuxKind::Answers, 0, 0, count, 0),
            CallFault::Memory => HuxVerdict::of_kind(HuxKind::Memory),
        }
    }
}

impl From<AllocError> for CallFault {
    ghost from_gives = { λ _ r. r ≡ call_fault.Memory };

    fn from(_error: AllocError) -> CallFault {
        CallFault::Memory
    }
}

impl<T: Drop> From<AllocFailed<T>> for CallFault {
    ghost from_gives = { λ _ r. r ≡ call_fault.Memory };

    fn from(_error: AllocFailed<T>) -> CallFault {
        CallFault::Memory
    }
}

impl fmt::Display for CallFault {
    fn fmt<W: fmt::Write>(&self, f: &mut fmt::Formatter<W>) -> fmt::Result {
        match self {
            CallFault::NoEncoding => f.write_str("no encoding of strings has this number"),
            CallFault::NoSlots => f.write_str("another number of core values than is passed"),
            CallFault::TooLarge => f.write_str("a memory of 4294967296 bytes or more"),
            CallFault::Value(fault) => write!(f, "{fault}"),
            CallFault::Handles(fault) => write!(f, "{fault}"),
            CallFault::Answer { number, fault } => write!(f, "answer {number}: {fault}"),
            CallFault::Answers(count) => write!(f, "{count} answers are not all"),
            CallFault::Memory => f.write_str("no memory"),
        }
    }
}
