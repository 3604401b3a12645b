//! The grammar of WIT texts: one production for each form, and its reader (WIT.md).
#![tactic(auto)]

mod file;
mod file_reader;
mod heads;
mod interface_reader;
mod interfaces;
mod signature_reader;
mod signatures;
mod type_reader;
mod types;
mod world_reader;
mod worlds;

pub use cm_wit_tokens::{ReadError, Version, WitFault, WitReason};
pub use file::{FileItem, WitFile};
pub use file_reader::read_file;
pub use interfaces::{Case, Interface, InterfaceItem, ResourceFunc, TypeDef, Use, UsedName};
pub use signature_reader::{
    read_foreign_path, read_func, read_optional_version, read_params, read_path,
};
pub use signatures::{Func, Path, Typed};
pub use type_reader::read_type;
pub use types::{Primitive, WitType};
pub use worlds::{World, WorldExtern, WorldItem};
