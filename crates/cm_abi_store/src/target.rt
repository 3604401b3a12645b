//! What a lowering is given, and how far it got.

use cm_abi_model::StringEncoding;

/// What a lowering is given: how strings are encoded where values are stored, and what its parts
/// and its handles got there.
#[derive(Clone, Copy)]
pub struct Target<'a> {
    /// How strings are stored.
    pub encoding: StringEncoding,
    /// The address of each part of the value, its strings and its lists, in reading order.
    pub places: &'a [u32],
    /// The number of each handle of the value, in reading order: its index in the receiver's table
    /// or, where the receiver implements a borrowed resource, its representation.
    pub numbers: &'a [u32],
}

/// How far a lowering has come: the part and the handle that are stored next, each counted from 0.
#[derive(Clone, Copy)]
pub struct Next {
    pub part: usize,
    pub handle: usize,
}
