//! Reads the files of a command, and writes the lines of their faults.
//!
//! A component is shown by its imports and exports, and compared with a world of a WIT text.
#![tactic(auto)]

mod bad_file;
mod conforming;
mod files;
mod loading;
mod showing;
mod text_fault;
mod unfit;
mod words;
mod worlds;

pub use bad_file::{BadFile, FileReason};
pub use cm_validate::Checked;
pub use conforming::conform_component;
pub use files::{FileFault, Files, MAX_READ};
pub use loading::{checked_of, component_of, load, read_file, text_of};
pub use showing::{show_component, write_show_fault};
pub use text_fault::{MAX_TEXT, TextFileFault};
pub use unfit::{Unfit, UnfitReason};
pub use worlds::world_of;
