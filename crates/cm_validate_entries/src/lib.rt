//! The index spaces of functions and instances; imports and exports.
#![tactic(auto)]

mod aliases;
mod entries;
mod exports;
mod imports;
mod instances;
pub mod laws;
mod lifts;
mod lists;
mod resources;
mod spaces;
mod types;

pub use aliases::{Aliased, moved_number, moved_place};
pub use cm_validate_types::TypeEntry;
pub use entries::{FuncEntry, InstanceEntry, MemberEntry};
pub use lifts::func_type_at;
pub use lists::ComponentLists;
pub use resources::resource_fault;
pub use spaces::{ComponentSpaces, ExportEntry, ExportedEntry};
