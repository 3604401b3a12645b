//! Layouts and core kinds of the types of an arena, each type laid out once.
//!
//! A layout is made of the layouts of a type's parts, which it shares; nothing below a part is
//! walked (CanonicalABI.md, "Alignment", "Element Size" and "Flattening").
#![tactic(auto)]

mod kinds;
pub mod laws;
mod layouts;
mod nodes;
mod placed;

pub use kinds::Kinds;
pub use layouts::Layouts;
