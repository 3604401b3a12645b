//! Types by index in an arena, where a definition names its parts by earlier ones; and signatures.
//!
//! An import shifts the resource numbers of the types that it brings: a `Placed` is an index with
//! that shift, a `Replacement` puts what stands for a resource in its place, and `same_types` says
//! whether two types are equal then. Imports and exports, instances and functions stand here in
//! this form.
//!
//! A `Signature` is all that a component or a world imports and exports. All types of it are in one
//! arena. Names of a component are whole; names of a world are prefix and rest, each prefix stored
//! once. Both are read by parts.
#![tactic(auto)]

mod building;
mod entries;
mod externs;
mod func_types;
mod funcs;
mod instances;
pub mod laws;
mod moves;
mod named_externs;
mod names;
mod numbered;
mod placed;
pub mod placed_laws;
mod primitives;
mod replacement;
mod same_types;
mod shared;
pub mod signature_laws;
mod signatures;
mod summaries;
mod type_defs;
pub mod type_laws;
mod types;

pub use externs::{Extern, ExternDesc};
pub use funcs::FuncDef;
pub use instances::{InstanceType, Item, ItemDesc};
pub use moves::Move;
pub use named_externs::{Desc, Externs, Items, NamedDesc, NamedItem};
pub use names::{Front, PackageName, SharedName};
pub use numbered::NumberedExterns;
pub use placed::{Placed, moved_resource};
pub use primitives::Primitive;
pub use replacement::{Replacement, Row};
pub use same_types::{same_func, same_type};
pub use shared::{SharedDesc, SharedExtern, SharedExterns, SharedItem, SharedItems};
pub use signatures::Signature;
pub use summaries::Summary;
pub use type_defs::{CaseDef, FieldDef, TypeDef};
pub use types::{DefFault, Types};
