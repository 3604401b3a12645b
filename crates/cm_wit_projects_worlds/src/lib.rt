//! What the worlds of projects of WIT packages import and export, includes written out.
#![tactic(auto)]

mod finding;
mod flat;
mod including;
mod item;
mod marks;
mod noted;
mod reaching;

pub use finding::{find_world, world_names};
pub use item::{Item, Thing};
pub use reaching::{World, world_at};
