//! What components say to one another in a play: calls and results, by names, with their values.
//!
//! A `Watch` sees each move before it is made and each event after it, and answers a `Message` of
//! what passed. Values are those of the proved `lift` in the view of who gives them.
#![tactic(auto)]

mod called;
mod frames;
mod lines;
mod messages;
mod naming;
mod passing;
mod watch;
mod words;

pub use cm_match::Linked;
pub use cm_tool_help_texts::is_hidden;
pub use lines::{Participant, write_message};
pub use messages::{Message, Spoken, Trapping};
pub use watch::{Actor, Watch};
pub use words::MAX_WORDS;
