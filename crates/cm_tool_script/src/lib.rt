//! Scripts: statements that say what guests do, and guests that do it.
#![tactic(auto)]

mod forms;
mod guest;
mod hex_bytes;
mod numbers;
mod script;
mod statement;

pub use forms::form_of;
pub use guest::ScriptGuest;
pub use hex_bytes::{ScriptFault, script_bytes};
pub use numbers::{read_u32, read_u64};
pub use script::{Script, ScriptRefusal};
pub use statement::{LineFault, Statement};
