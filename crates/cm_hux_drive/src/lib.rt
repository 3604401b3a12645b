//! Plays of scripts of `hux`: their moves and their checks are made, and a printer sees them.
#![tactic(auto)]

mod checked;
mod checking;
mod core_names;
mod looking;
mod printer;
mod scripts;
mod seat;
mod sets;
mod traps;

pub use checked::{DriveEnd, Watching, play_script};
pub use checking::Checks;
pub use cm_hux_explain::ShortMove;
pub use cm_hux_files as files;
pub use cm_hux_script::{HuxScript, Moment, Script};
pub use cm_machine::{Event, MAX_PAGES, Misuse, Move, Set};
pub use cm_tool_lines as lines;
pub use core_names::Names;
pub use printer::Printer;
pub use scripts::load_script;
pub use seat::{Seat, seats_of};
pub use sets::make_set;
pub use traps::tell_trap;
