//! Explains traps, misuses and reasons: their meaning, their usual causes, and what to do.
//!
//! Causes and remedies stand in `explained.toml`, meanings in docs/RULES.md and on the pages of
//! crates; the rows are written of both, by checks/explained.
#![tactic(auto)]

mod asked;
mod fault;
mod row;
mod rows;
mod trapped;

pub use asked::{Found, find, write_found};
pub use cm_machine_model::Trap;
pub use fault::ExplainFault;
pub use row::Row;
pub use rows::all_rows;
pub use trapped::{KeptMove, LastMove, ShortMove, explain_trap};
