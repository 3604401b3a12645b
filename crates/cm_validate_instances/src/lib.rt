//! Instances: their types, checked before they are built, and those made of inline exports.
//!
//! The declarations of an instance type are added one by one. A sketch has the sort of a type, the
//! resource of a handle, and whether a borrow occurs; the sketches of the types that a definition
//! names decide which rules it violates, but for the limits of size. The rules on names are those
//! of the whole.
#![tactic(auto)]

pub mod declaration_laws;
mod declarations;
mod definition_faults;
mod definitions;
mod entries;
mod exports;
pub mod instance_laws;
mod instance_types;
mod instances;
mod item_faults;
mod item_sketches;
mod level;
mod member_sketches;
mod members;
pub mod name_laws;
mod names;
mod passes;
mod resources;
pub mod sketch_laws;
mod sketched_exports;
mod sketches;
mod sketching;

pub use cm_validate_types::{broken_unless, lesser, names_are_distinct};
pub use declarations::Declarations;
pub use entries::{own_result, self_borrow, sketch_entry};
pub use instance_types::define_instance;
pub use instances::add_instance;
pub use item_faults::item_names_fault;
pub use item_sketches::{ItemSketch, NamedSketch};
pub use level::SketchLevel;
pub use sketches::{FuncSketch, Sketch, ValueSketch, moved_option, resource_id};
