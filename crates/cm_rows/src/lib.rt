//! Rows of tests: read, answered and compared; how they spell files, types and values.
//!
//! Programs of rows share it: families of rows, each row a line of words that is answered by a
//! line, and what rows of several programs spell: bytes, files, texts, writers, types and values.
#![tactic(auto)]

mod answering;
mod arena;
mod asked;
mod bytes;
mod core_values;
mod escapes;
mod fault;
mod line;
mod named_files;
mod named_types;
mod pipe;
mod type_words;
mod words;

pub use answering::{Driver, answer_families};
pub use arena::{Arena, Outcome, Places};
pub use asked::Asked;
pub use bytes::{write_bytes, write_units};
pub use core_values::{read_core_value, read_core_values, write_core_values};
pub use escapes::{read_text, write_text};
pub use fault::RowFault;
pub use line::Line;
pub use named_files::NamedFiles;
pub use named_types::{named, read_labels, read_move, read_name, read_resource, read_resources};
pub use pipe::{Full, Pipe};
pub use type_words::{make_func, read_func, read_params, read_tree, read_type};
pub use words::{split_repeat, word, words_from};
