//! Where resources are, and what is lent and borrowed, as laws: each function here does nothing,
//! and its contract is the law.

ghost use Rattle.cm_machine_laws.specs.Always.{Always};
ghost use Rattle.cm_machine_laws.specs.Lent.{BorrowsStand, LendsStand};
ghost use Rattle.cm_machine_laws.specs.Placed.{KeepsGone, EachResourceHasOnePlace};

use crate::told_laws::histories_are_told;
use crate::valid_laws::{
    histories_are_valid, what_is_borrowed_is_backed, what_is_met_is_the_values_handles,
};
use crate::values::values_are_followed;

/// Resources and borrows in each history of each set that can be linked, whatever its guests do.
///
/// Each resource that was made has exactly one place, and those on their way are of the value that
/// is being placed. What was dropped or lost stays so, and no serial number is issued twice. What
/// is lent is lent to the calls that go on, as they borrowed it, no more and no less. Each
/// borrowed handle is of a call whose body runs in that instance, and none dangles.
pub fn owners_are_told()
    ensures one_place { Always EachResourceHasOnePlace }
    ensures stays_gone { Always KeepsGone }
    ensures lends_stand { Always LendsStand }
    ensures borrows_stand { Always BorrowsStand }
{
    histories_are_valid();
    histories_are_told();
    values_are_followed();
    what_is_borrowed_is_backed();
    what_is_met_is_the_values_handles();
}
