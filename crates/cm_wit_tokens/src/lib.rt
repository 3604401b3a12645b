//! The tokens of WIT texts, and the steps that grammars of tokens are built from (WIT.md, "Lexical
//! structure").
//!
//! The laws of the steps make reading exact.
#![tactic(auto)]

mod comment;
mod cursor;
mod fault;
mod front;
mod keyword;
mod lexed;
mod lists;
mod operator;
mod run;
mod token;
mod whole;

pub use cm_types::{Label, MAX_DEPTH, Version};
pub use cursor::Cursor;
pub use fault::{ReadError, WitFault, WitReason};
pub use keyword::Keyword;
pub use lexed::Lexed;
pub use lists::{Item, read_items, read_items_and, read_members};
pub use operator::Operator;
pub use token::{Form, Token};
pub use whole::read_text;
