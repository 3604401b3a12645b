//! Decides whether an export serves an import: by name and version, then by type.
//!
//! Types are compared once each resource is replaced by what it is in the end.
#![tactic(auto)]

mod chosen;
mod components;
mod exports;
mod greatest;
mod import_candidates;
mod imports;
mod instances;
mod items;
mod linking;
mod origins;
mod readings;
mod resources;
mod series;
mod sides;
mod tables;
mod unversioned;

pub use cm_validate_spaces::{
    Checked, CoreFuncEntry, ExportEntry, ExportedEntry, FuncEntry, InstanceEntry, MadeFunc,
    MemberEntry,
};
pub use exports::Exports;
pub use import_candidates::candidates_of;
pub use linking::Linking;
pub use tables::Tables;
