//! The bundle of a linked set: one file that other runtimes read (Binary.md).
//!
//! A bundle has an instance of each component, which is given what others export. It has one
//! spelling: [`write`] gives it, and [`read`] reads that and no other.
#![tactic(auto)]

mod aliases;
mod bundled;
mod bundling;
mod checking;
mod codes;
mod contents;
mod customs;
mod fault;
mod fitting;
mod form;
mod front_items;
mod fronts;
pub mod laws;
mod names;
mod numbers;
mod parts;
mod reading;
mod sections;
mod set_supplies;
mod spaces;
mod supplies;
mod writing;

pub use bundling::{BundlingFault, bundle, unbundle};
pub use fault::{BundleFault, BundleReason};
pub use form::{
    BUNDLE_PREAMBLE, Bundle, BundleImport, ImportGroup, MAX_PARTS, Part, PartExport, PartName,
    Sort, Supply,
};
pub use front_items::imports_of;
pub use names::part_names;
pub use reading::read;
pub use writing::{WriteFault, write};
