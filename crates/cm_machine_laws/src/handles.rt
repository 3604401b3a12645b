//! Which handles come and go, as a law: the function here does nothing, and its contract is the
//! law.

ghost use Rattle.cm_machine_laws.specs.Always.{Always};
ghost use Rattle.cm_machine_laws.specs.FreeIndices.{NextIndexIsTheLastFreed};
ghost use Rattle.cm_machine_laws.specs.HandleChanges.{HandlesChangeByTheirMoves};

use crate::told_laws::histories_are_told;
use crate::valid_laws::{histories_are_valid, one_value_is_carried};
use crate::values::values_are_followed;
use cm_abi_model::laws::{what_is_handed_over_is_counted, what_is_met_stands};
use cm_handles::laws::tables_change_in_one_place;

/// Handles in each history of each set that can be linked, whatever its guests do.
///
/// A call takes what its arguments own out of the caller's table, and a body's return what its
/// result owns out of the callee's; where a value is handed over, the receiver's table gets the
/// value's handles, each at its next index. A built-in makes one handle, for a resource with a
/// serial number never issued before, or drops one that is lent to nobody, or tells one's
/// representation. Nobody's handles else come or go, a begin's and the end of a call's included;
/// how often a handle is lent is another law's.
///
/// The next index is the one that was freed last of those that are free still, else the least from
/// 1 on that was never used.
pub fn handles_change_as_told()
    ensures changes { Always HandlesChangeByTheirMoves }
    ensures next_index { Always NextIndexIsTheLastFreed }
{
    what_is_handed_over_is_counted();
    what_is_met_stands();
    tables_change_in_one_place();
    one_value_is_carried();
    histories_are_valid();
    histories_are_told();
    values_are_followed();
}
