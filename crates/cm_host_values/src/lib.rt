//! The values that a host sees: those of a call, each handle as an index of its instance's table.
//!
//! `HostTypes` has the types of the values that go one way in a call, as a host sees them, with
//! what passes them. What stands in its instance's memory is read by `lift_values`, and
//! `lower_values` makes the bytes and the core values that pass values on. What a host sees of a
//! value that core values denote is said by the laws in `laws`.
#![tactic(auto)]

mod cases;
mod content;
mod fault;
mod host_types;
mod indexed;
pub mod laws;
mod lifting;
mod lowering;
mod requesting;
mod trees;

pub use cm_machine_guests::Bump;
pub use fault::ValuesFault;
pub use host_types::HostTypes;
pub use lifting::{lift_values, lift_values_in};
pub use lowering::{Lowered, lower_values};
