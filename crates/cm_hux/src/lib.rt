//! The commands of `hux`, over a host's files and writers.
//!
//! Each reads component files that may have shims, as the standard tool chain writes them.
#![tactic(auto)]

mod bundling;
mod commands;
mod conforming;
mod differing;
mod explaining;
mod objects;
mod stubbing;
mod wit_faults;
mod wit_files;
mod wit_worlds;

pub use cm_hux_json::{CoreRow, core_row, core_text};
pub use cm_hux_play::files::{
    Disk, DiskStreams, Ending, Fault, FileFault, Files, Loaded, Streams, ToolFault, load_file,
    report, words_of,
};
pub use cm_hux_show::show_world;
pub use commands::run_hux;
