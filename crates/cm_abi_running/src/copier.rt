//! What values are copied from, and what they are given where they go.

use cm_abi_model::{PartRecord, StringEncoding};
use cm_abi_store::Target;

/// What values are copied from, and what they are given where they go.
#[derive(Clone, Copy)]
pub struct Copier<'a> {
    /// The memory that they are copied from.
    pub memory: &'a [u8],
    /// How strings are encoded there.
    pub encoding: StringEncoding,
    /// What they are given: how strings are stored, and the places of parts and the numbers of
    /// handles.
    pub target: Target<'a>,
    /// The record of each part, in reading order.
    pub records: &'a [PartRecord],
}
