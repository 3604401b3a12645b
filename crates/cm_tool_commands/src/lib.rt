//! The commands that play nothing; how commands end, and the lines of faults.
//!
//! `check`, `show`, `conform` and `link`, over files that are loaded and linked here, for `play`
//! too.
#![tactic(auto)]

mod commands;
mod conforming;
mod disk;
mod fault;
mod limit;
mod loading;
mod outcome;
mod words;

pub use cm_match::{LinkFault, Linked, MAX_COMPONENTS, link};
pub use cm_tool_files::{
    BadFile, Checked, FileFault, FileReason, Files, MAX_READ, Unfit, UnfitReason, checked_of,
    component_of, conform_component, read_file, text_of, world_of,
};
pub use cm_tool_lines::{Drive, SetSize, write_event, write_plan};
pub use cm_tool_script::{Script, ScriptFault, ScriptGuest, script_bytes};
pub use cm_tool_words::{Request, Usage, WordsFault};
pub use cm_validate::{ValidFault, signature};
pub use commands::{run_check, run_conform, run_link, run_show};
pub use conforming::Asked;
pub use disk::Disk;
pub use fault::{Fault, report};
pub use limit::LIMIT;
pub use loading::{LoadedFiles, load_files, load_script};
pub use outcome::Outcome;
pub use words::words_of;
