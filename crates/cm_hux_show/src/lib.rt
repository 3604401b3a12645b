//! The text of a signature as WIT writes it: each type once, under its name.
//!
//! A type has the name under which an instance exports it. Where it is used elsewhere it is brought
//! by `use`; what has no name and is not short gets one that no file can have, as `#0`.
#![tactic(auto)]

mod items;
mod keys;
mod labels;
mod scope;
mod shapes;
mod types;
mod world;
mod writer;

pub use cm_tool_show::{MAX_SHOWN, ShowFault};
pub use keys::{Key, Used, last_resources};
pub use types::{primitive_word, type_text};
pub use world::show_world;
