//! Scripts of `hux`: those of `component_tool`, core functions by name, and what a play is to show.
//!
//! A `HuxScript` has the moves and drives of a `Script`, and checks that belong to moments of its
//! play.
#![tactic(auto)]

mod bad_line;
mod check;
mod events;
mod fault;
mod functions;
mod numbers;
mod script;
mod statement;
mod traps;

pub use bad_line::BadLine;
pub use check::{Check, Moment, Wanted};
pub use cm_tool_script::Script;
pub use fault::{HuxLineFault, HuxRefusal, NameFault};
pub use functions::CoreNames;
pub use script::HuxScript;
