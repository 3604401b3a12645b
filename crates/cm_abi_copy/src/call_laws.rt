//! What copying the values of a call means, as laws: each function here does nothing, and its
//! contract is the law.

ghost use Rattle.std.specs.Prelude.{◌≡◌, ◌<◌, ◌≤◌, ℕ};
ghost use Rattle.cm_types.specs.Types.{Fields};
ghost use Rattle.cm_types.specs.Values.{Val};
ghost use Rattle.cm_layout.specs.Layouts.{layout_of};
ghost use Rattle.cm_layout.specs.Shapes.{Shape};
ghost use Rattle.cm_abi_model.specs.Stores.{Given};
ghost use Rattle.cm_abi_model.specs.Views.{flat_limit};
ghost use Rattle.cm_abi_model.specs.Ways.{way_of};
ghost use Rattle.cm_abi_running.specs.Shown.{without_handles};
ghost use Rattle.cm_abi_running.specs.declared.copier.Copier.{Copier};
ghost use Rattle.cm_abi_copy.specs.CallCopies.{IsFlatCopy, IsSpilledCopy};
ghost use Rattle.cm_abi_copy.specs.PassingOn.{CanBePassedOn};
ghost use Rattle.cm_abi_lift.specs.declared.passed.Passed.{Passed};
ghost use Rattle.cm_abi_store.specs.FlatLowering.{behind_by, slots_by};

use crate::laws::{
    handles_are_stored_as_numbers, parts_that_are_read_are_copied, records_tell_sizes,
};
use cm_abi_load::laws::{numbers_are_sized, parts_that_are_shown_are_read, what_is_shown_is_read};
use cm_abi_store::laws::{flat_tuples_are_passed, spilled_tuples_are_stored};
use cm_layout::laws::layouts;

/// What is passed of a value, and stored behind it, tells of its handles no more than the numbers
/// that they were given.
fn handles_are_passed_as_numbers()
    ensures slots { (g : Given) (sh : Shape) (v : Val) (s k h : ℕ)
        → slots_by g sh (without_handles v) s k h ≡ slots_by g sh v s k h }
    ensures behind { (g : Given) (sh : Shape) (v : Val) (k h : ℕ)
        → behind_by g sh (without_handles v) k h ≡ behind_by g sh v k h }
{
    handles_are_stored_as_numbers();
}

/// Values that can be passed on can be copied as the tuple that they are where they are behind a
/// pointer, and else from slots to slots; what is stored and passed then is what the call stores
/// and passes.
pub(crate) fn what_is_denoted_is_copied()
    ensures spilled { (n m : ℕ) (from : Copier) (passed : Passed) (types : Fields) (v : Val)
        → CanBePassedOn n m from passed types v
        → flat_limit (way_of passed.way) < (layout_of passed.layout.now).head.width
        → IsSpilledCopy n m from passed types v }
    ensures flat { (n m : ℕ) (from : Copier) (passed : Passed) (types : Fields) (v : Val)
        → CanBePassedOn n m from passed types v
        → (layout_of passed.layout.now).head.width ≤ flat_limit (way_of passed.way)
        → IsFlatCopy n m from passed types v }
{
    layouts();
    numbers_are_sized();
    what_is_shown_is_read();
    parts_that_are_shown_are_read();
    parts_that_are_read_are_copied();
    records_tell_sizes();
    spilled_tuples_are_stored();
    flat_tuples_are_passed();
    handles_are_stored_as_numbers();
    handles_are_passed_as_numbers();
}
