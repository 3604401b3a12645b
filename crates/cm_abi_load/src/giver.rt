//! What values are read from.

use cm_abi_model::StringEncoding;
use cm_handles::Table;
use std::alloc::Global;

/// What values are read from, and where memory for them comes from.
#[derive(Clone, Copy)]
pub struct Giver<'a> {
    pub alloc: Global,
    pub memory: &'a [u8],
    pub table: &'a Table,
    /// How strings are encoded there.
    pub encoding: StringEncoding,
}
