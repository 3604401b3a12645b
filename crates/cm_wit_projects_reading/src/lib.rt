//! The grammar of WIT texts that projects write: packages in braces, gates, includes (WIT.md).
#![tactic(auto)]

mod file;
mod file_reader;
mod gate_reader;
mod gates;
mod heads;
mod interface_reader;
mod interfaces;
mod left_out;
mod places;
mod texts;
mod world_reader;
mod worlds;

pub use cm_wit_tokens::{WitFault, WitReason};
pub use file::{FileItem, NestedPackage, PackageItem, PackageName, TopUse, WitFile};
pub use gates::{Gate, Gated, Kept, PlacedGate};
pub use interfaces::{Interface, InterfaceItem, ResourceItem, TypeItem};
pub use places::{LinePlace, line_place, name_place};
pub use texts::read_file;
pub use worlds::{Include, Renamed, World, WorldExtern, WorldItem};
