//! The rules on the names of a WIT text: declared twice, unknown, or in a cycle.
//!
//! The first of each key, a number and a name, is found by the hash of its name; no choice of names
//! makes a look-up slow.
#![tactic(auto)]

mod adding;
mod borrows;
mod distinct;
mod edges;
mod faults;
mod file_mentions;
mod first_keys;
mod full_names;
mod func_mentions;
mod graphs;
mod interface_mentions;
mod known;
mod mention;
mod names;
mod others;
mod scope;
mod type_mentions;
mod unknown;
mod world_mentions;

pub use file_mentions::mentions;
pub use first_keys::FirstKeys;
pub use full_names::folded;
pub use mention::{FullName, ListedName, Mention, Place, Reference};
pub use names::Names;
