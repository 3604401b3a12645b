//! The text of a type or a signature, as the command `show` prints it.
//!
//! Resources are numbered in such a text, each by its first appearance.
#![tactic(auto)]

mod counting;
mod fault;
mod items;
pub mod laws;
mod lists;
mod names;
mod page;
pub mod pages_laws;
mod putting;
mod signatures;
mod types;

pub use counting::Counting;
pub use fault::ShowFault;
pub use items::{show_extern_line, show_item};
pub use page::{MAX_SHOWN, Page};
pub use signatures::show;
pub use types::{show_fields, show_type};
