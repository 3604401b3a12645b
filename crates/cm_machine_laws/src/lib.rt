//! The headline's sentences, on moves and events alone, and their proofs, over all histories; no
//! code.
//!
//! The sentences reconstruct who acts, which calls are open, which values were sent and returned,
//! and why a move traps, without reading the machine's stack; that the stack says the same is a law
//! (`told_laws`). Each begin and each step keeps the machine's state valid (`valid_laws`).
//!
//! - `values`: what was sent is what is received, by what allocators were asked for and answered;
//! - `memories`: which bytes of which memory change;
//! - `handles`: which handles come and go, by calls, by returns and by the resource built-ins;
//! - `owners`: each resource has one place, what is gone stays gone, and what is lent or borrowed
//!   is so for a call that goes on;
//! - `traps`: each trap has its named cause, which is the first in the order of its move, and
//!   closes exactly the instances of what went on; and each cause traps.
#![tactic(auto)]

pub mod handles;
pub mod memories;
pub mod owners;
pub mod told_laws;
pub mod traps;
pub mod valid_laws;
pub mod values;
