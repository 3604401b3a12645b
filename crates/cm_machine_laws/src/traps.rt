//! Which trap comes when, and what it closes, as laws: each function here does nothing, and its
//! contract is the law.

ghost use Rattle.cm_machine_laws.specs.Always.{Always};
ghost use Rattle.cm_machine_laws.specs.Closing.{NamesFaults, TrapHasItsCauseAndCloses};
ghost use Rattle.cm_machine_laws.specs.Closing.{TrapsAtACause};

use crate::told_laws::histories_are_told;
use crate::valid_laws::{
    histories_are_valid, one_value_is_carried, what_is_met_is_the_values_handles,
};
use crate::values::{handles_are_counted, values_are_followed};
use cm_abi_lift::laws::first_faults_are_told;
use cm_abi_model::laws::{
    denotations_are_unique, each_part_is_asked_for, what_is_handed_over_is_counted,
    what_is_met_stands,
};

/// Which trap comes when, in each history of each set that can be linked, whatever its guests do.
///
/// A trap is the first in the order of its move whose cause is there, or the machine found no
/// memory, where it may want some and no cause is there of those that come before. It closes
/// exactly the instances of what went on, with the callee where a call's arguments were lifted: the
/// stack is empty, all lends have ended, the borrows of the closed are gone, what was on its way or
/// was taken by the move is lost, and memories and all other handles stay. And where a cause of a
/// move's order is there, the move traps, by the first one, unless there is no memory. What is
/// wrong with a value is named by the trap of its own name.
pub fn traps_have_their_causes()
    ensures traps { Always TrapHasItsCauseAndCloses }
    ensures refusals { Always TrapsAtACause }
    ensures names { NamesFaults }
{
    first_faults_are_told();
    denotations_are_unique();
    each_part_is_asked_for();
    what_is_handed_over_is_counted();
    what_is_met_stands();
    what_is_met_is_the_values_handles();
    one_value_is_carried();
    handles_are_counted();
    histories_are_valid();
    histories_are_told();
    values_are_followed();
}
