//! Ends of error lines on component files and on WIT texts: what was found, and what was expected.
//!
//! Each call takes what a fault was found in, and answers the words behind its line, which begin
//! with `: ` or are none. A tail stays in one line, and names no more than a few things: names are
//! escaped, places are lines and columns, and a word that is near is told.
#![tactic(auto)]

mod bytes;
mod counts;
mod escaped;
mod expected;
mod index_help;
mod items;
mod names_help;
mod near;
mod paths;
mod position;
mod texts;
mod wit_token;
mod worlds;

pub use bytes::bytes_help;
pub use escaped::{Escaped, is_hidden};
pub use items::valid_help;
pub use near::is_near;
pub use position::Position;
pub use texts::wit_help;
pub use worlds::world_help;
