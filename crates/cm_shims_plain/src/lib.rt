//! Component files that may have shims: their grammar, and how they are read as plain components.
//!
//! A shim is a nested component that renames what it is given and does nothing else (Binary.md has
//! what is read).
#![tactic(auto)]

mod arguments;
mod codes;
mod fault;
mod file;
mod instantiated;
mod items;
pub mod laws;
mod names;
mod parts;
mod places;
mod plain;
mod reading;
mod renumbered;
mod sections;
mod shims;
mod spaces;
mod stop;
mod wants;

pub use codes::{InstanceForm, ShimItems, ShimKind, TypeEquality, WideDescForm, WideKind};
pub use fault::{PlainFault, ShimFault, ShimReason};
pub use file::read_wide_file;
pub use parts::{
    Argument, Shim, ShimExport, ShimImport, ShimSection, WideDesc, WideImport, WideInstance,
    WideSection,
};
pub use places::{Place, Places};
pub use reading::{Shimmed, read};
pub use sections::wide_room_after;
pub use shims::shim_room_after;
pub use wants::Want;
