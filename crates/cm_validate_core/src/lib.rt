//! The core index spaces; names of imports and exports; what a type definition breaks by itself.
//!
//! Values under names are found in trees, and keep the order in which they came; the names of
//! imports and of exports are found by a hash (`cm_names`). What an index violates goes by the sort
//! of what it names, so a rule is judged before a type is built.
#![tactic(auto)]

mod aliases;
mod canons;
mod entries;
mod forms;
mod instances;
mod labels;
pub mod laws;
mod name_map;
mod name_set;
mod names;
mod options;
mod parts;
mod reasons;
mod signatures;
mod spaces;

pub use entries::{CoreFunc, CoreInstanceEntry, CoreItem, GuestExport, GuestMemory};
pub use forms::{ExternSort, is_label};
pub use labels::names_are_distinct;
pub use name_map::NameMap;
pub use name_set::NameSet;
pub use names::FoldedName;
pub use parts::{parts_fault, payload_fault, value_fault};
pub use reasons::{broken_unless, index_fault, lesser};
pub use signatures::{params_fault, uses_fault};
pub use spaces::CoreSpaces;
