//! Why a handle table refuses a call.

ghost use Rattle.std.specs.Prelude.{◌≡◌};
ghost use Rattle.cm_handles.specs.Faults.{handle_fault_number};

use thiserror::Error;

/// Why a handle table refuses a call. A call that refuses leaves the table as it was, and of
/// several reasons the one with the smallest number is given.
#[derive(Clone, Copy, Debug, PartialEq, Eq, Error)]
pub enum HandleFault {
    /// No handle stands at the index: it is 0, was never used, or is freed.
    #[error("no handle stands at this index")]
    NoHandle = 1,
    /// The handle at the index is of another resource.
    #[error("the handle is of another resource")]
    WrongResource = 2,
    /// A call has borrowed the handle and has not ended yet.
    #[error("the handle is still lent")]
    StillLent = 3,
    /// The handle is a borrow, and an owned one was wanted.
    #[error("the handle is borrowed, not owned")]
    NotOwned = 4,
    /// All 65,535 indices are in use, or too few are left.
    #[error("the handle table is full")]
    Full = 5,
    /// The memory for a further handle was refused.
    #[error("out of memory")]
    Memory = 6,
}

impl HandleFault {
    /// The number by which the fault is known, from 1 for `NoHandle` to 6 for `Memory`.
    pub fn number(self) -> u8
        ensures { result ≡ handle_fault_number self }
    {
        self as u8
    }
}
