//! Programs of types: lists of what has to be looked at, and written, of the values of a type.
//!
//! A list is made once from a layout, in one step of the lists of what the type holds, which it
//! shares. `CanonicalABI.md` says of each value part by part how it is loaded and stored
//! ("Loading", "Storing", "Flat Lifting" and "Flat Lowering"); that this is listed beforehand, and
//! that the list is gone through in place of the layout, is this project's own choice. What a list
//! or a case holds is a list of its own. The list of a field is written out in that of the whole
//! where it has at most `FEW` members, else it is shared: so the lists of a type take no more than
//! its own nodes, `FEW` times, however many types hold it.
//!
//! `PlacedPrograms` has the programs of an arena's types by their places, each listed once. A type
//! that more than `MAX_FLAT_PARAMS` core values would pass is wide: it never passes so, and for
//! them nothing is listed of it.
#![tactic(auto)]

mod call_puts;
mod checks;
mod gathering;
mod holding;
mod limits;
mod listed_checks;
mod listed_puts;
mod listed_slots;
mod placed_checks;
mod placed_puts;
pub mod places;
mod programs;
mod puts;
mod slots;
mod widths;

pub use call_puts::CallPuts;
pub use checks::{CaseChecks, Check};
pub use limits::FEW;
pub use listed_checks::{flat_checks, stored_checks};
pub use listed_puts::stored_puts;
pub use listed_slots::flat_puts;
pub use programs::{CallProgram, PlacedPrograms};
pub use puts::{CasePuts, Put};
pub use slots::{CaseSlotPuts, SlotPut};
