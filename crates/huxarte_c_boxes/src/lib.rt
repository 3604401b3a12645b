//! A value in a box as one pointer, which can be handed to C and taken back.
#![tactic(auto)]

mod kept;
mod loose;

pub use kept::Kept;
