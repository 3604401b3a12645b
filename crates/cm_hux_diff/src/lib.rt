//! Tells what a component or a world in place of another breaks, and for whom.
//!
//! The definitions say what is wanted of whom, what is offered for it, and when it serves.
#![tactic(auto)]

mod bound;
mod breaking;
mod difference;
mod facing;
mod held;
mod judging;
mod links;
mod listed;
mod names;
mod offers;
mod pairs;
mod parts;
mod replacing;
mod telling;
mod uses;
mod walk;

pub use breaking::{Break, BreakReason};
pub use difference::{Change, Difference, Effect, Side};
pub use facing::Face;
pub use replacing::{Broken, replaces};
pub use telling::differences;
