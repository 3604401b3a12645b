//! The signatures of the worlds of projects of WIT packages.
//!
//! `resolve` reads the files of folders and finds what their names lead to; `project_signature`
//! writes out what a world includes, finds what it needs besides, and makes the types of all into
//! one table. A component is held against it by `conforms` of `cm_wit_conforms`.
#![tactic(auto)]

mod declaring;
mod externs;
mod fault;
mod items;
mod listing;
mod lists;
mod signing;
mod there;

pub use cm_wit_projects::{ResolveFault, Source};
pub use cm_wit_projects_names::{Project, resolve};
pub use cm_wit_projects_reading::line_place;
pub use cm_wit_tokens::{WitFault, WitReason};
pub use fault::SignatureFault;
pub use listing::project_worlds;
pub use signing::project_signature;
