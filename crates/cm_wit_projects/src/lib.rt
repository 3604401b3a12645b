//! Projects of WIT packages: files in folders, packages in braces, gates (WIT.md, "Packages and
//! Worlds").
#![tactic(auto)]

mod fault;
mod files;
mod gating;
mod listing;
mod packages;
mod source;
mod units;

pub use fault::ResolveFault;
pub use files::read_folders;
pub use gating::{first_bad_gate, is_there};
pub use listing::{Body, Declared, NamedPath, declared_in, named_in};
pub use packages::check_packages;
pub use source::Source;
pub use units::{ItemRef, Unit, units_of};
