//! The adapters of the Canonical ABI: `lift` and `lower`, or `scan` and `copy` (CanonicalABI.md,
//! "Lifting and Lowering Values").
//!
//! The way of a call. Of each function a layout of the tuple of its parameters and one of its
//! results is made once, and the kinds of the core values that pass them (`cm_layout`).
//!
//! 1. `lift` reads the values that the giver's core values denote, takes the handles that are
//!    owned out of the giver's table and lends those that are borrowed. The giver's memory may
//!    change from then on: what was lifted does not.
//! 2. `requests` lists the memory that lowering the values asks the receiver for. Its `realloc` is
//!    called for each in turn, with the answer to the one before where a request is chained;
//!    `check_answer` looks at one answer at a time. The pointer to a tuple of results is the one
//!    that the caller gave.
//! 3. `lower` looks at all answers, adds the handles to the receiver's table and writes the values
//!    into its memory. Its core values pass them.
//!
//! The law `laws::one_call` says that what `lift` promises is what `requests` and `lower` want to
//! know, and that then both sides denote the same value.
//!
//! With no tree made of the values, where the giver's memory stays as it is until they are copied:
//!
//! 1. `scan` looks at the values where they stand, with the same answer and the same handles as
//!    `lift`, and keeps in a `Scan` a record of each part, and the handles. A `Scan` is made once
//!    and filled again for each call: where a call takes no more than one before it, no memory is
//!    taken.
//! 2. `Scan::next_request` tells the same requests by these records, one after another, and
//!    `Scan::answer` keeps each answer, which has no fault.
//! 3. `copy` looks whether the parts are apart, adds the handles to the receiver's table, and
//!    copies the values from the giver's memory into the receiver's, and into the core values that
//!    pass them.
//!
//! The laws `laws::one_copied_call` and `laws::what_a_scan_keeps` say that of these three calls.
//! The laws `fitting_laws` say what fits a memory: records of strings and lists tell what it reads,
//! and a value that can be stored has room in it.
#![tactic(auto)]

mod cases;
pub mod fitting_laws;
pub mod laws;
mod lowering;
mod passing;
mod slots;

pub use cm_abi_copy::{Found, Scan, copy, scan};
pub use cm_abi_lift::{Lifted, Passed, lift};
pub use cm_abi_model::{
    AbiFault, Encodings, HandleLeaf, HandleValue, PartKind, PartRecord, Receiver, Request,
    StringEncoding, Way,
};
pub use cm_abi_requests::{check_answer, check_answers, requests};
pub use lowering::lower;
pub use passing::Passing;
