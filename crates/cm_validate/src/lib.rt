//! Valid components: `validate`, what each index means, and `signature`.
#![tactic(auto)]

mod externs;
mod items;
mod made;
mod numbers;
mod signatures;

pub use cm_types_arena::{Desc, Externs, Items, NamedDesc, NamedItem, Signature};
pub use cm_validate_spaces::{
    Checked, CoreFuncEntry, ExportEntry, ExportedEntry, FuncEntry, GuestExport, InstanceEntry,
    MadeFunc, MemberEntry, Resource, ValidFault, ValidReason, validate,
};
pub use signatures::signature;
