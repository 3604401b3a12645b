//! Lifts and lowers: the rules on their functions' types and options (CanonicalABI.md, "Canonical
//! Definitions").
//!
//! Which options one needs depends on what its function's type passes, which is known without a
//! look below the type.
#![tactic(auto)]

pub mod laws;
mod lifts;
mod lowers;
mod needs;
mod options;
mod passing;
mod types;

pub use lifts::{add_lift, lift_fault};
pub use lowers::{add_lower, lower_fault};
pub use passing::{FuncPassing, Passed};
pub use types::LaidTypes;
