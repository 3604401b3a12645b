//! Tables of names and other texts, in which no choice of names makes a look-up slow.
//!
//! A `TextTable` numbers texts from 0 on: it is a hash table with 16 probes, and a tree behind it
//! for the texts that find no place. In a `TextNumbers` equal texts have one number. `Keys` finds
//! the first of keys, each a number and a name, in trees.
#![tactic(auto)]

mod finding;
mod hash;
mod key_tables;
mod keys;
mod placing;
mod text_numbers;
mod texts;

pub use keys::Keys;
pub use text_numbers::TextNumbers;
pub use texts::TextTable;
