//! The tokens of WIT texts that projects write, with gates (WIT.md, "Lexical structure").
//!
//! They are those of `cm_wit_tokens`, so that a grammar of its steps reads them.
#![tactic(auto)]

mod comment;
mod front;
mod run;
mod standing;
mod tokens;

pub use tokens::lexed;
