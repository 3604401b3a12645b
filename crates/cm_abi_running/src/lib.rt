//! Programs of types are run: values are looked at by checks, and copied by puts.
//!
//! To run the checks of a type is to lift by the type, and to run its puts is to store or to lower
//! the value (`CanonicalABI.md`, "Loading", "Storing", "Flat Lifting" and "Flat Lowering"): `laws`
//! has that over definitions alone. That programs are gone through in place of the layout is this
//! project's own choice. Checks look at strings, lists, handles, cases and chars alone. Here is
//! also what values are copied from, and when they can be copied.
#![tactic(auto)]

mod copier;
pub mod laws;
mod leaves;
mod looking;
mod looking_flat;
mod looking_passed;
mod putting;
mod putting_flat;
mod texts;

pub use copier::Copier;
pub use leaves::number_stored;
pub use looking_passed::look_at_passed;
pub use putting::put_all;
pub use putting_flat::put_flat_all;
pub use texts::{size_of_part, write_text_at};
