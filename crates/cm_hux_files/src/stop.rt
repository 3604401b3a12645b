//! Why a play ends early.

use crate::fault::Fault;
use std::alloc::{AllocError, AllocFailed};
use std::io;

/// Why a play ends early.
#[derive(Clone, Copy, Debug, PartialEq)]
pub enum Stop {
    /// A line cannot be written.
    Output,
    /// There was no memory.
    Memory,
}

impl Stop {
    /// Why a play ends where writing a line ended in this fault.
    pub fn of(fault: &Fault) -> Stop {
        match fault {
            Fault::Memory => Stop::Memory,
            _ => Stop::Output,
        }
    }

    /// The fault of a command that ends so.
    pub fn fault(self) -> Fault {
        match self {
            Stop::Output => Fault::Output,
            Stop::Memory => Fault::Memory,
        }
    }
}

impl From<AllocError> for Stop {
    fn from(_error: AllocError) -> Stop {
        Stop::Memory
    }
}

impl<T: Drop> From<AllocFailed<T>> for Stop {
    fn from(_error: AllocFailed<T>) -> Stop {
        Stop::Memory
    }
}

impl From<io::Error> for Stop {
    fn from(_error: io::Error) -> Stop {
        Stop::Output
    }
}

/// What was told, or why it was not.
pub fn told(told: Result<(), Fault>) -> Result<(), Stop> {
    match told {
        Ok(()) => Ok(()),
        Err(fault) => Err(Stop::of(&fault)),
    }
}
