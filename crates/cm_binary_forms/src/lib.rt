//! The grammar of component files: a production for each form, and its reader (Binary.md).
//!
//! The bytes that name the forms are tables of codes here; so are the reasons for which bytes are
//! no component file.
#![tactic(auto)]

mod aliases;
mod canons;
mod codes;
mod contents;
mod declarations;
mod externs;
mod fault;
mod file;
mod indices;
mod instances;
mod sections;
mod texts;
mod types;

pub use codes::{
    AliasSort, CanonForm, CoreAliasTarget, CoreInstanceForm, DeclarationForm, DeclaredDescForm,
    DeclaredTypeForm, DescForm, FuncAliasTarget, InstanceForm, NoDescription, OptionForm,
    OptionalForm, OuterTypeTarget, ResultForm, SectionKind, TypeAliasTarget, TypeBoundForm,
    TypeForm, ValueForm, no_alias_target,
};
pub use fault::{DecodeFault, DecodeReason, Feature};
pub use file::read_file;
pub use sections::{read_section, room_after};
pub use texts::{read_extern_name, read_label, read_plain_name, read_text};
pub use types::Types;
