//! Makes the signature of a world of packages, or says why it has none.
//!
//! Whether the names in its instances lead to types is decided first; then the items of each
//! interface's instance are made. By the laws here, packages hold only types that a component file
//! can spell.
#![tactic(auto)]

mod externs;
mod faults;
mod files;
mod fronts;
mod instances;
pub mod item_laws;
mod items;
pub mod laws;
mod led_interfaces;
mod led_worlds;
mod members;
mod parts;
mod reaching;
mod resources;
mod signature;
pub mod signature_laws;
mod signing;
pub mod spellable_laws;
mod texts;
mod typing;
mod worlds;
pub mod written_laws;

pub use cm_wit_tables::all_have_types;
pub use externs::push_externs;
pub use files::package_files;
pub use fronts::package_fronts;
pub use instances::{WorldInstances, instances_of};
pub use items::push_items;
pub use led_worlds::members_have_types;
pub use members::{Member, Members, interface_members};
pub use parts::{Parts, Sources};
pub use reaching::cycle_fault;
pub use signature::signature_with;
pub use typing::typed_declarations;
pub use worlds::{signature_of_world, world_signature};
