//! A stub while it is written: its sections, core modules, types and resources.
#![tactic(auto)]

mod core_module;
mod draft;
mod fault;
mod handles;
mod host_module;
mod lists;
mod types;

pub use core_module::CoreType;
pub use draft::Draft;
pub use fault::DraftFault;
pub use handles::{Brought, BroughtResource, Handles, ResourceKey};
pub use host_module::HostModules;
pub use types::{TypeKey, Writer, Written};
