//! The words of the command line, read as a request.
#![tactic(auto)]

mod mistakes;
mod usage;
mod words;

pub use mistakes::Mistake;
pub use usage::{Form, USAGE, Usage};
pub use words::{Request, WordsFault};
