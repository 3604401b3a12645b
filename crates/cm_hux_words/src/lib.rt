//! The words of the command line of `hux`, read as a request.
#![tactic(auto)]

mod asked;
mod commands;
mod program;
mod request;
mod words;

pub use asked::{
    CallWords, ConformWords, DiffWords, LinkWords, LiveWords, PlayWords, PlugWords, ServeWords,
    StubWords, WitWords,
};
pub use program::VERSION;
pub use request::{Answer, Habits, Request, WordsFault};
