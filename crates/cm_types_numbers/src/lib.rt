//! Numbers for types: equal exactly where the types are equal.
//!
//! Each type is numbered once, and once for each way in which imports and exports move its
//! resources.
#![tactic(auto)]

mod chains;
mod funcs;
mod key;
mod known;
mod known_placed;
pub mod laws;
mod moves;
mod nodes;
mod numbers;
pub mod placed_laws;
mod single_types;
mod type_numbers;
mod types;

pub use known::Known;
pub use known_placed::KnownPlaced;
pub use moves::Brought;
pub use numbers::Numbers;
