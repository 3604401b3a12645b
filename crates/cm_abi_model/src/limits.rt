//! How much may be passed at once.

/// The most bytes of strings and lists in one direction of a call: of a list its length times the
/// size of an element, and of a string its bytes as they stand in the giver's memory. The limit is
/// this project's own choice.
pub const MAX_CONTENT: u32 = 16_777_216;
