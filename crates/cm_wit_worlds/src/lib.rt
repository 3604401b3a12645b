//! Interfaces and worlds by path, and what each world imports and exports.
#![tactic(auto)]

mod directory;
mod externs;
mod fault;
mod keying;
mod listing;
mod lists;
mod named;
mod order;
mod placed;
mod texts;
mod uses;
mod world;

pub use directory::Directory;
pub use fault::WorldFault;
pub use keying::package_names;
pub use listing::{interfaces, worlds};
pub use named::{named_by, reached_by};
pub use order::externs_of;
pub use placed::{PlacedInterface, PlacedWorld};
pub use texts::full_name;
pub use world::WorldExterns;
