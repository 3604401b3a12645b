//! Why a host's functions are not served or called.

ghost use Rattle.std.specs.Prelude.{◌≡◌};
ghost use Rattle.cm_host.specs.Faults.{call_fault_number, call_fault_of, seat_fault_number};

use cm_abi::AbiFault;
use cm_host_values::ValuesFault;
use cm_machine::{Misuse, Trap};
use std::alloc::{AllocError, AllocFailed};
use thiserror::Error;

/// Why there is no such function or resource at a seat.
#[derive(Clone, Copy, Debug, PartialEq, Eq, Error)]
pub enum SeatFault {
    /// The set has no component of this number.
    #[error("no such component")]
    NoComponent = 1,
    /// The component has no function or resource of its own under this name.
    #[error("no such function or resource")]
    NoFunction = 2,
    /// The function passes strings in another encoding than UTF-8.
    #[error("strings that are not in UTF-8")]
    NotUtf8 = 3,
    /// There was no memory.
    #[error("no memory")]
    Memory = 4,
}

/// Why a function that is served traps: it is told to the service.
#[derive(Clone, Copy, Debug, PartialEq, Eq, Error)]
pub enum ServeFault {
    /// The core values denote no values.
    #[error("no values: {0}")]
    Arguments(AbiFault),
    /// The values that the service answered are not passed.
    #[error("{0}")]
    Values(ValuesFault),
}

/// Why a call of a host answers no values.
#[derive(Clone, Copy, Debug, PartialEq, Eq, Error)]
pub enum CallFault {
    /// The component imports no function of this name that it lowers.
    #[error("no such function")]
    NoFunction,
    /// The function passes strings in another encoding than UTF-8.
    #[error("strings that are not in UTF-8")]
    NotUtf8,
    /// The arguments are not passed.
    #[error("arguments: {0}")]
    Arguments(ValuesFault),
    /// The machine does not begin the call.
    #[error("{0}")]
    Misuse(Misuse),
    /// The call trapped.
    #[error("the call trapped: {0}")]
    Trapped(Trap),
    /// The call was not over after so many moves.
    #[error("not over after so many moves")]
    Limit,
    /// The core values of the result denote no values.
    #[error("no result: {0}")]
    Results(AbiFault),
    /// There was no memory.
    #[error("no memory")]
    Memory,
}

impl SeatFault {
    /// The number by which the fault is known, from 1 for `NoComponent` to 4 for `Memory`.
    pub fn number(self) -> u8
        ensures { result ≡ seat_fault_number self }
    {
        self as u8
    }
}

impl CallFault {
    /// The number by which the fault is known, from 1 for `NoFunction` to 8 for `Memory`.
    pub fn number(self) -> u8
        ensures { result ≡ call_fault_number self }
    {
        match self {
            CallFault::NoFunction => 1,
            CallFault::NotUtf8 => 2,
            CallFault::Arguments(_) => 3,
            CallFault::Misuse(_) => 4,
            CallFault::Trapped(_) => 5,
            CallFault::Limit => 6,
            CallFault::Results(_) => 7,
            CallFault::Memory => 8,
        }
    }
}

impl<T: Drop> From<AllocFailed<T>> for SeatFault {
    ghost use Rattle.cm_host.specs.declared.fault.SeatFault.TheVariants as fault;

    ghost from_gives = { λ _ e. e ≡ fault.Memory };

    fn from(_error: AllocFailed<T>) -> SeatFault {
        SeatFault::Memory
    }
}

impl From<AllocError> for SeatFault {
    ghost use Rattle.cm_host.specs.declared.fault.SeatFault.TheVariants as fault;

    ghost from_gives = { λ _ e. e ≡ fault.Memory };

    fn from(_error: AllocError) -> SeatFault {
        SeatFault::Memory
    }
}

impl<T: Drop> From<AllocFailed<T>> for CallFault {
    ghost use Rattle.cm_host.specs.declared.fault.CallFault.TheVariants as fault;

    ghost from_gives = { λ _ e. e ≡ fault.Memory };

    fn from(_error: AllocFailed<T>) -> CallFault {
        CallFault::Memory
    }
}

impl From<AllocError> for CallFault {
    ghost use Rattle.cm_host.specs.declared.fault.CallFault.TheVariants as fault;

    ghost from_gives = { λ _ e. e ≡ fault.Memory };

    fn from(_error: AllocError) -> CallFault {
        CallFault::Memory
    }
}

impl From<SeatFault> for CallFault {
    ghost from_gives = { λ f e. e ≡ call_fault_of f };

    fn from(fault: SeatFault) -> CallFault {
        match fault {
            SeatFault::NoComponent | SeatFault::NoFunction => CallFault::NoFunction,
            SeatFault::NotUtf8 => CallFault::NotUtf8,
            SeatFault::Memory => CallFault::Memory,
        }
    }
}
