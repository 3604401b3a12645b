//! What has to be written of what a call passes.

use crate::puts::Put;
use crate::slots::SlotPut;

/// What has to be written of the values of a call: as the bytes of their tuple, where they pass
/// behind a pointer, or else into core values.
#[derive(Drop)]
pub enum CallPuts {
    /// Of the tuple, where it stands in memory.
    Stored(Vec<Put>),
    /// Of the core values that pass the values.
    Flat(Vec<SlotPut>),
}
