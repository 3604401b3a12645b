//! Why a row has no answer.

use std::alloc::{AllocError, AllocFailed};

/// Why a row has no answer.
#[derive(Clone, Copy)]
pub enum RowFault {
    /// The line is no row of the driver.
    NotARow,
    /// There was no memory for the row or for its answer.
    Memory,
}

impl RowFault {
    /// What stands for the answer of such a row.
    pub fn text(self) -> &'static str {
        match self {
            RowFault::NotARow => "no row",
            RowFault::Memory => "no memory",
        }
    }
}

impl From<AllocError> for RowFault {
    fn from(_error: AllocError) -> RowFault {
        RowFault::Memory
    }
}

impl<T: Drop> From<AllocFailed<T>> for RowFault {
    fn from(_error: AllocFailed<T>) -> RowFault {
        RowFault::Memory
    }
}
