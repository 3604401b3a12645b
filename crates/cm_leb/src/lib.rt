//! Numbers in LEB128: `u32`, and `s33` for indices of types (the core specification, "Integers").
#![tactic(auto)]

mod fault;
mod reading;
mod writing;

pub use fault::{LebFault, SignedFault};
pub use reading::{read_s33, read_u32};
pub use writing::{write_s33, write_u32};

/// What a reader or a writer of a whole format needs besides: the number at the front of bytes, the
/// length of a spelling, counts, and indices of types.
pub mod formats {
    pub use crate::reading::{front_s33, front_u32};
    pub use crate::writing::{spelled_length, spelled_signed_length, write_count, write_index};
}
