//! How strings are encoded on both sides of a call.

use crate::encoding::StringEncoding;

/// How the strings of a value are encoded where it comes from, and where it goes.
#[derive(Clone, Copy, Debug, PartialEq, Eq)]
pub struct Encodings {
    /// In the memory of its giver.
    pub source: StringEncoding,
    /// In that of its receiver.
    pub target: StringEncoding,
}
