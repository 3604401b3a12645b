//! What is kept of a part of a value.

/// What a part of a value is.
#[derive(Clone, Copy, Debug, PartialEq, Eq, Drop)]
pub enum PartKind {
    /// A string, with whether its length in the source was tagged as UTF-16.
    Text { is_tagged: bool },
    /// The elements of a list.
    Elements,
}

/// A part of a value, that is a string or the elements of a list: where its bytes stand in the
/// source, and what it takes where it is stored.
#[derive(Clone, Copy, Debug, PartialEq, Eq, Drop)]
pub struct PartRecord {
    /// Where it begins in the memory of the source, in bytes from 0.
    pub at: u32,
    /// How many units a string has there, and how many elements a list.
    pub count: u32,
    /// How many bytes it takes where it is stored.
    pub size: u64,
    /// Its alignment where it is stored, in bytes.
    pub align: u32,
    /// Whether it is a string, and its tag.
    pub kind: PartKind,
}
