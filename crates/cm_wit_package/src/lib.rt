//! Packages of WIT, parsed and printed; a printed one is read as the same.
#![tactic(auto)]

mod file_text;
mod interfaces;
pub mod laws;
mod names;
mod package;
mod parsing;
mod places;
mod printing;
pub mod round_laws;
mod signatures;
mod types;
mod worlds;

pub use cm_wit_tokens::{WitFault, WitReason};
pub use file_text::print_file;
pub use package::Package;
pub use parsing::parse;
pub use printing::print;
