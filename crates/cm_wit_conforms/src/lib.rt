//! Decides whether a component's signature fits a world's, and else finds the first fault.
//!
//! The definitions say what is compared, which resources correspond, and which fault is the first.
//! The names of one list of imports, exports or items are found in another by their parts: a prefix
//! that many share is looked at once, and the table of a list is kept for lists that recur.
#![tactic(auto)]

mod comparisons;
mod facing;
mod fault;
mod fit;
mod fronts;
mod hits;
mod judge;
mod judged;
mod kept;
mod known;
pub mod laws;
mod listing;
mod lists;
mod pairs;
mod parts;
mod places;
mod same_names;
mod walk;

pub use fault::{ConformFault, ConformItem, ConformList, ConformReason};
pub use fit::conforms;
pub use known::{KnownItems, Meeting};
pub use same_names::extern_places;
