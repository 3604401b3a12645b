//! How far a reader has come.

use cm_layout::HandleType;

/// A handle that a reader met.
#[derive(Clone, Copy)]
pub struct MetHandle {
    /// Its index in the table of the giver.
    pub index: u32,
    /// The resource that it is to be of, and whether it is to be owned or borrowed.
    pub wanted: HandleType,
}

/// How far a reader has come.
#[derive(Drop)]
pub struct Progress {
    /// How many bytes of strings and lists may still come.
    pub left: u32,
    /// The handles met so far, in order.
    pub handles: Vec<MetHandle>,
    /// The tags of the strings met so far, in order: of each string in Latin-1 or in UTF-16
    /// (`Latin1OrUtf16`) whether its length is tagged as UTF-16.
    pub tags: Vec<bool>,
}
