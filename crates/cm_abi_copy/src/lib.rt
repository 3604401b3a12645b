//! `scan` and `copy`: values go from memory to memory without a value tree.
//!
//! A `Scan` keeps a record of each string and list, the handles, and the answers of `realloc`.
//! Records and answers are two lists, since a record is what was read and does not change; the
//! sizes to be asked for next are worked out once a part (CanonicalABI.md, "Loading", "Storing" and
//! "Lifting and Lowering Values").
#![tactic(auto)]

mod call_laws;
mod calls;
mod copies;
mod copying;
mod found;
mod kept;
pub mod laws;
pub mod met_laws;
mod passed;
mod place;
mod put_laws;
pub mod scan_call_laws;
mod scan_call_leaves;
mod scanned;
mod settled_laws;
mod slots;

pub use calls::{copy_call, put_call};
pub use cm_abi_running::{Copier, number_stored, size_of_part, write_text_at};
pub use copies::copy_value;
pub use copying::{copy, copy_by};
pub use found::Found;
pub use kept::Scan;
pub use place::Place;
pub use scan_call_leaves::handles_met;
pub use scanned::{scan, scan_by};
