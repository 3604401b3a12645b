//! Grammars of bytes: the steps that file formats are built from, with laws.
//!
//! A grammar says which bytes spell a value, and what the first fault of other bytes is; a reader
//! that goes by it is exact.
#![tactic(auto)]

mod cursor;
mod fault;
mod form;
mod stocked;

pub use cursor::{Code, Cursor};
pub use fault::{End, Fault, ReadError};
pub use form::{Form, read_vec, write_blob};
pub use stocked::{StockedForm, read_stocked};
