//! Items of an instance type by name; numbers of equal instances.
//!
//! The resources that an import brings are one range. Imports that are instances of one type share
//! a number, and so do exports that are one instance: the index under which each stood first.
#![tactic(auto)]

mod items;
pub mod laws;
mod pass;
mod ranges;
mod shared;

pub use items::InstanceItems;
pub use ranges::{Resource, Resources};
pub use shared::Shared;
