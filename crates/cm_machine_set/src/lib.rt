//! `Set`: a linked set that runs, one move at a time.
#![tactic(auto)]

mod advance;
mod set;

pub use set::Set;
