//! How the parts of a bundle are linked, in numbers: who is given which export.
//!
//! A bundle says by names what each import is given. [`links_of`] looks the names up among the
//! valid components that the parts are.
#![tactic(auto)]

mod fault;
mod links;
mod rows;
mod tables;

pub use cm_bundle::{Bundle, BundleFault, BundleReason, Part, Supply, unbundle};
pub use cm_match_model::Link;
pub use cm_match_serving::Checked;
pub use fault::{LinksFault, LinksReason};
pub use links::links_of;
