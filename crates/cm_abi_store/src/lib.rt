//! Stores values into memory by their layouts, and converts strings (CanonicalABI.md, "Storing").
//!
//! A value comes from a tree, or from another memory: both are a `ValueSource`.
#![tactic(auto)]

mod bytes;
mod core_values;
mod given;
pub mod laws;
mod numbers;
mod source;
mod storing;
mod target;
mod texts;
mod tree;

pub use bytes::{write_bytes, write_number};
pub use core_values::put_numbers;
pub use given::{
    field_width, number_passed, pass_handle, pass_pointer, store_handle, store_pointer,
};
pub use source::{PassedSource, StoredSource, ValueSource};
pub use storing::{store_fields, store_row, store_value};
pub use target::{Next, Target};
pub use texts::{stored_size, units_stored, write_text, write_text_of};
pub use tree::{Tree, Trees};
