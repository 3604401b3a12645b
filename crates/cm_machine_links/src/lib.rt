//! Finds once, for a linked set, what each core function comes to, with its layouts.
//!
//! The layouts and core kinds of what a function passes, and what has to be looked at and written
//! of it, are made once for each type of a function, with each resource what it is in the end, and
//! shared by all links of the type.
#![tactic(auto)]

mod core_funcs;
pub mod laws;
mod links;
mod making;
mod options;
mod origins;
mod passing;
pub mod plan_laws;

pub use core_funcs::CoreFunc;
pub use links::Links;
pub use making::links_of;
