//! `hux play` and `hux live`: a linked set is played, and told as the words of a command want it.
//!
//! Printers print the events of a play, or what components say to one another: as lines, objects or
//! a diagram, in the words of Mermaid.
#![tactic(auto)]

mod charted;
mod diagram;
mod graph;
mod guarded;
mod hearing;
mod living;
mod named;
mod planned;
mod playing;
mod said_chart;
mod said_objects;
mod telling;
mod told_events;
mod told_play;

pub use cm_hux_drive::files;
pub use graph::write_graph;
pub use living::run_live;
pub use named::component_names;
pub use playing::run_play;
