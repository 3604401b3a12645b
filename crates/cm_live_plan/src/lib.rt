//! Lines that tell an engine how to instantiate the core modules of a component.
#![tactic(auto)]

mod hex_text;
mod memories;
mod names;
mod plan;
mod sections;

pub use hex_text::HexText;
pub use memories::{memory_of, pages_of};
pub use plan::{Beside, PlacedFile, write_component};
pub use sections::{Place, component_places, module_places};
