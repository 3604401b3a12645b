//! `validate`: all index spaces of a component, or the first fault.
#![tactic(auto)]

mod again;
mod canons;
mod checked;
mod checking;
mod core_items;
mod entries;
mod exported;
mod items;
mod made;
mod parts;
mod room;
mod space_items;
mod spaces;
mod types;
mod walk;

pub use checked::Checked;
pub use checking::validate;
pub use cm_validate_core::GuestExport;
pub use cm_validate_entries::{ExportEntry, ExportedEntry, FuncEntry, InstanceEntry, MemberEntry};
pub use cm_validate_items::Resource;
pub use cm_validate_model::{ValidFault, ValidReason};
pub use cm_validate_types::TypeEntry;
pub use entries::{ComponentEntries, ComponentExterns};
pub use made::{CoreFuncEntry, MadeFunc};
pub use spaces::IndexSpaces;
