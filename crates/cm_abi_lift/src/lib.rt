//! Lifts values from core values, and takes or lends the handles in them (CanonicalABI.md,
//! "Flattening" and "Lifting and Lowering Values").
//!
//! The same walk records strings and lists where no tree is wanted (`Recorder`). What stands in
//! memory is loaded by `cm_abi_load`.
#![tactic(auto)]

mod handing;
pub mod laws;
mod lifted;
mod passed;
mod recorder;
pub mod scan_laws;
mod walk;

pub use cm_abi_load::slots::{behind, number_32, wrapped_at};
pub use handing::{Handed, hand_over, is_sound};
pub use lifted::{Lifted, first_fault, lift};
pub use passed::{Passed, make_passed};
pub use recorder::Recorder;
