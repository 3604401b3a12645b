//! How the strings of a value are encoded where they come from, and where they go.

use cm_abi_model::StringEncoding;

/// How the strings of a value are encoded where it was lifted, and where it is lowered, with their
/// tags.
#[derive(Clone, Copy)]
pub struct Strings<'a> {
    /// In the memory of its giver.
    pub source: StringEncoding,
    /// In that of its receiver.
    pub target: StringEncoding,
    /// Of each string of the value, in reading order, whether its length in the source was tagged
    /// as UTF-16. Only `Latin1OrUtf16` has tags; where there are too few, the others are not set.
    pub tags: &'a [bool],
}
