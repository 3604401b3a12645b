//! Lemmas of lists, options, bools and numbers, each proved once for all the crates above.
//!
//! They speak of the standard library's words alone. The crate has no code: its lemmas stand in
//! `proofs/`, a file for each subject.
#![tactic(auto)]
