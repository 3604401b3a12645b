//! Handle tables: the resource handle at each index of an instance (CanonicalABI.md, "Table
//! State").
#![tactic(auto)]

mod fault;
mod handle;
pub mod laws;
mod slot;
mod table;

pub use fault::HandleFault;
pub use handle::{Handle, HandleKind};
pub use table::{MAX_HANDLES, Table};
