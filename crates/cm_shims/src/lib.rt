//! Files of real tools: component files that may have shims, and whether what these want holds.
//!
//! A shim is a nested component that renames what it is given and does nothing else.
#![tactic(auto)]

mod fault;
mod files;
mod files_fault;
mod fitting;
mod judge;
pub mod laws;

pub use cm_shims_plain::{Place, Places, PlainFault, ShimFault, ShimReason, Shimmed, Want, read};
pub use fault::{FitFault, FitReason};
pub use files::{check_files, read_files};
pub use files_fault::FilesFault;
pub use fitting::fits;
