//! Names, types and values of components, as trees (Explainer.md, "Type Definitions").
//!
//! Types in an arena, and signatures, stand in the rooms behind this door; the doors `cm_validate`
//! and `cm_wit` give out what a signature is.
#![tactic(auto)]

mod core_value;
mod def_types;
mod dismantling;
mod extern_names;
mod label_walk;
pub mod laws;
mod limits;
mod names;
mod resource;
mod shared_text;
mod spellable;
mod type_trees;
mod typed_values;
mod values;
mod version;

pub use core_value::{CoreKind, CoreValue};
pub use def_types::{
    CaseType, Declaration, DeclaredType, DefType, DefValType, ExportDecl, ExportDesc, FuncType,
    LabeledValType, OuterType, PrimValType, TypeBound, ValType,
};
pub use extern_names::{ExternName, ExternNameForm};
pub use limits::{MAX_DEPTH, MAX_FLAT_PARAMS, MAX_FLAT_RESULTS, MAX_NODES};
pub use names::{Label, NameFault, same_name};
pub use resource::{ResourceId, resolve, same_resource};
pub use spellable::MAX_FLAGS;
pub use type_trees::{Case, Field, Func, TypeFault, TypeNode, TypeTree};
pub use typed_values::has_type;
pub use values::{Value, is_scalar};
pub use version::Version;
