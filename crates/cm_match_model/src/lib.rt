//! Defines which sets of components link, and what a resource is in the end.
//!
//! Definitions and laws cover every form: the plan of a set, why a set cannot be linked, which
//! exports fit an import by name and version, and which imports are served alike. The code is in
//! `cm_match_serving`.
#![tactic(auto)]

pub mod alike_laws;
mod candidates;
pub mod candidates_laws;
mod component;
mod fault;
pub mod laws;
pub mod origin_laws;
mod plan;
mod sight;
pub mod sight_laws;
pub mod target_laws;

pub use candidates::Candidate;
pub use component::Link;
pub use fault::{LinkFault, LinkReason};
pub use plan::{MAX_COMPONENTS, PlanLine};
pub use sight::{Choices, Place};
