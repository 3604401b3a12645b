//! The call of a lowered function, from its lift to its post-return.
//!
//! `enter` begins a call (CanonicalABI.md, `canon_lower`, `enter_call`) and `exit` ends it
//! (`canon_lift`, `exit_call`); both use `lift` (`lift_flat_values`), `requests` (what
//! the receiver's allocator is asked for, and its answers) and `lower` (`lower_flat_values`).
//! `post_return` is the return of what tidies up. What is promised of each is a part of a row of
//! `Step`; `call_lowered` and `return_in_call` put the rows together.
#![tactic(auto)]

mod arguments;
mod enter;
mod exit;
mod laws;
mod lift;
mod link;
mod lower;
mod numbers;
mod post_return;
mod requests;
mod traps;

pub use enter::call_lowered;
pub use exit::return_in_call;
