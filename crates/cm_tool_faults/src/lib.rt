//! Faults in words, with names: which file, which import, and who exports the name.
//!
//! A line is that of the command, without its first word: what is fixed in front, and what was
//! found and expected behind.
#![tactic(auto)]

mod shown;

pub use shown::{NamedFile, Shown};
