//! Which bytes of which memory change, as a law: the function here does nothing, and its contract
//! is the law.

ghost use Rattle.cm_machine_laws.specs.Always.{Always};
ghost use Rattle.cm_machine_laws.specs.MemoryChanges.{MemoryChangesByMovesAndValues};

use crate::told_laws::histories_are_told;
use crate::valid_laws::{histories_are_valid, one_value_is_carried};
use crate::values::values_are_followed;
use cm_abi_model::laws::{
    each_part_is_asked_for, requests_end_exact, what_is_stored_lies_in_regions,
};
use cm_abi_requests::laws::what_is_denoted_can_be_lowered;

/// Memories in each history of each set that can be linked, whatever its guests do.
///
/// A Write changes the bytes that it names of the acting instance's own memory, and a Grow adds
/// pages of zeros to it. Where a value is handed over, the receiver's memory alone changes, inside
/// the regions that its allocator answered, and there the bytes of the value alone: no padding, and
/// nothing beside a chosen payload. All else leaves each memory as it is: a begin, a call that asks
/// an allocator, a resource built-in, the end of a call, a trap.
pub fn memory_changes_as_told()
    ensures { Always MemoryChangesByMovesAndValues }
{
    each_part_is_asked_for();
    requests_end_exact();
    what_is_stored_lies_in_regions();
    what_is_denoted_can_be_lowered();
    one_value_is_carried();
    histories_are_valid();
    histories_are_told();
    values_are_followed();
}
