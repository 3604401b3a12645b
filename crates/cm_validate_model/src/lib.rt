//! Validity in definitions: index spaces, scopes and every rule, with laws.
//!
//! They cover every form of component files: each rule with its number and name, where it is
//! violated, which resources types may name, and where functions come from.
#![tactic(auto)]

pub mod counted_laws;
mod fault;
pub mod function_laws;
pub mod laws;
pub mod resource_laws;
mod sorts;

pub use fault::{ValidFault, ValidReason};
pub use sorts::TypeSort;
