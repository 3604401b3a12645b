//! The state of a running set, and what its moves share: stack, lends.
//!
//! What a function of a row promises is said by `MeetsRow`. The rows themselves stand in the crates
//! above.
#![tactic(auto)]

mod checks;
mod ends;
mod frames;
pub mod laws;
mod lends;
mod link;
mod outcome;
mod owners;
mod passing;
mod stack;
mod state;
mod traps;

pub use checks::{are_of, one_i32};
pub use ends::end_call;
pub use frames::{actor, has_room, is_closed, may_leave};
pub use lends::Lends;
pub use link::{CallTypes, LiftLowerOptions, Link, PassedTypes};
pub use outcome::Outcome;
pub use owners::put_owners;
pub use passing::Passing;
pub use stack::Stack;
pub use state::State;
pub use traps::close_all;
