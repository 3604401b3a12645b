//! The types and functions of a WIT text, one by one, put into an arena.
#![tactic(auto)]

mod definitions;
mod fault;
mod functions;
mod members;
mod primitives;
mod pushing;
mod scope;
mod types;

pub use definitions::push_def;
pub use fault::MeaningFault;
pub use functions::{push_func, push_resource_func};
pub use members::{push_fields, push_result};
pub use pushing::push;
pub use scope::{Meaning, Scope};
pub use types::push_type;
