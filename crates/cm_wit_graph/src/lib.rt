//! Directed graphs: what leads to what, cycles, orders of dependencies.
//!
//! An order puts each node behind those that it needs, by what waits or depth first.
#![tactic(auto)]

mod components;
mod cycles;
mod depth_first;
mod edges;
mod graph;
pub mod laws;
mod leading;
mod ordering;
mod reaching;
mod rows;
mod waiting;
mod walk;

pub use depth_first::{place, place_all};
pub use graph::Graph;
pub use ordering::order_of;
pub use reaching::{Reach, reach_from};
