//! Ends of error lines on types that differ: what was found, expected.
//!
//! Each call takes what a fault was found in, and answers the words behind its line, which begin
//! with `: ` or are none. A tail stays in one line, and names no more than a few things.
#![tactic(auto)]

mod blocks;
mod counted;
mod lines;
mod links;
mod signatures;
mod spots;

pub use links::link_help;
pub use signatures::conform_help;
