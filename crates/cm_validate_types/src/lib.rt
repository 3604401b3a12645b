//! The index space of types: definitions with their parts, within the limits.
//!
//! Types are copied from one arena to another with each resource replaced (`copies`).
#![tactic(auto)]

mod copies;
mod definitions;
mod entries;
mod expansion;
mod functions;
pub mod laws;
mod level;
mod scope;
mod settling;
mod uses;
mod values;

pub use cm_validate_core::{
    broken_unless, lesser, names_are_distinct, params_fault, parts_fault, uses_fault,
};
pub use copies::push_replaced;
pub use entries::TypeEntry;
pub use scope::TypeScope;
