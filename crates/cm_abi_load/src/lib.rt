//! Loads values from memory: numbers, strings, lists and handles (CanonicalABI.md, "Loading").
//!
//! A `Maker` decides what becomes of a value: a tree, or records of its strings and lists.
#![tactic(auto)]

mod giver;
mod handles;
pub mod laws;
mod leaves;
mod loading;
mod maker;
mod measures;
mod numbers;
mod progress;
mod regions;
pub mod slots;
mod stop;
mod texts;
mod trees;

pub use giver::Giver;
pub use handles::{load_handle, resource_of};
pub use leaves::{core_size, labels_set, leaf_size, leaf_value};
pub use loading::{is_plain_leaf, make_handle, make_list, make_value};
pub use maker::{Maker, Reader};
pub use measures::measure_text;
pub use numbers::{number_32, number_at};
pub use progress::{MetHandle, Progress};
pub use regions::check_region;
pub use stop::Stop;
pub use texts::load_text;
pub use trees::Trees;
