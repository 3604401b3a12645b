//! Values of components as text, by their types: printed, and read back.
#![tactic(auto)]

mod cursor;
mod kind;
pub mod laws;
mod leaves;
mod names;
mod numbers;
mod parsed_flags;
mod parsing;
mod piece;
mod print_fault;
mod printed_flags;
mod printing;
mod putting;
mod quoted;
mod quotes;
mod reader;
pub mod reading_laws;
mod value_fault;
mod values;
mod worded;

pub use parsing::parse;
pub use print_fault::PrintFault;
pub use printing::{print, print_front, quoted_text};
pub use value_fault::{ValueFault, ValueReason};
pub use worded::{Plain, Style, Worded};
