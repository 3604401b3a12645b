//! The names of projects of WIT packages: to which interface, world or type each leads.
#![tactic(auto)]

mod adding;
mod cycles;
mod directory;
mod distinct;
mod entry;
mod fault;
mod gates;
mod graphs;
mod mention;
mod mentions;
mod packages;
mod places;
mod project;
mod resolving;
mod scopes;
mod types;
mod typing;

pub use adding::put;
pub use directory::Directory;
pub use entry::{Entry, Scope, What};
pub use fault::Spot;
pub use graphs::{is_marked, leading_to};
pub use packages::Packages;
pub use places::PathPlace;
pub use project::{Project, fault_of, resolve};
pub use resolving::{Names, names_of, read_names};
pub use types::alias_of;
