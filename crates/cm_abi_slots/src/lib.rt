//! Passes core values that are numbers alone at once, each by a step that is listed beforehand.
//!
//! `slot_steps` lists the steps of a layout once, and `pass_slots` passes the core values of each
//! call by them, as lifting and lowering do (CanonicalABI.md, "Flat Lifting" and "Flat Lowering";
//! that no walk down the layout is needed is this project's own choice).
#![tactic(auto)]

pub mod laws;
mod passing;
mod steps;

pub use passing::pass_slots;
pub use steps::{SlotStep, slot_steps};
