//! `hux call`: a call of a function that the last of several components exports.
#![tactic(auto)]

mod arguments;
mod call_text;
mod called;
mod callers;
mod calling;
mod drives;
mod passing;
mod resumed;
mod scripts;

pub use calling::run_call;
