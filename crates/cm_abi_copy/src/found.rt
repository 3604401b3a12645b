//! What was scanned.

use cm_abi_lift::Passed;

/// What was scanned, where it stands in its giver.
#[derive(Clone, Copy)]
pub struct Found<'a> {
    /// The memory of the giver, as it was when it was scanned.
    pub memory: &'a [u8],
    /// The core values that were scanned, and which way they go.
    pub passed: Passed<'a>,
}
