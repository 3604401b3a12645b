//! Moves that pass no value: resource built-ins, a guest's own memory (CanonicalABI.md, `canon
//! resource.new`, `canon resource.drop` and `canon resource.rep`).
//!
//! Returns that only end a frame are here too, and the state of a set before anything ran.
#![tactic(auto)]

mod adding;
mod drops;
mod faults;
mod guest_moves;
mod makes;
mod represents;
mod returns;
mod setup;

pub use drops::drop_resource;
pub use faults::trap_of_handle;
pub use guest_moves::{grow, write};
pub use makes::make_resource;
pub use represents::represent;
pub use returns::{return_destructor, return_root};
pub use setup::{are_page_counts, fresh_state};
