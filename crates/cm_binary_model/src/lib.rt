//! The tree of a decoded component file: its sections and their items (Binary.md).
//!
//! The limits of a file, and the length of the shortest one, are here as well.
#![tactic(auto)]

mod aliases;
mod canons;
mod component;
mod externs;
mod instances;
mod limits;
mod measuring;
mod part;
mod section;
mod types;

pub use aliases::Alias;
pub use canons::{Canon, CanonOption};
pub use component::{Component, component_within_limits};
pub use externs::{Export, ExportSort, ExternDesc, Import};
pub use instances::{
    CoreInlineExport, CoreInstance, CoreInstantiationArg, CoreSort, InlineExport, Instance,
    InstanceExportSort,
};
pub use limits::{COMPONENT_PREAMBLE, LimitFault, MAX_FILE_BYTES, MAX_TYPES, MODULE_PREAMBLE};
pub use part::Part;
pub use section::{CustomSection, Section, contents_length, file_length, types_in};
pub use types::{types_in_declaration, types_in_def};
