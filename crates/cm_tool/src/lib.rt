//! The command, over a host's files and writers: check, show, conform, link, play.
#![tactic(auto)]

mod commands;
mod playing;

pub use cm_machine::{Event, Misuse, Move, Set};
pub use cm_tool_commands::{
    Asked, Checked, Disk, Ending, Fault, FileFault, Files, LIMIT, LinkFault, Linked, LoadedFiles,
    MAX_COMPONENTS, ScriptFault, Told, UnfitReason, Usage, ValidFault, What, Whose, Words,
    checked_of, component_of, conform_component, link, load_files, load_script, report,
    script_bytes, signature, text_of, words_of, world_of, write_plan,
};
pub use commands::{play_linked, report_usage, tool};
pub use playing::play;
