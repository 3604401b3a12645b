//! What copying by puts means, as laws: each function here does nothing, and its contract is the
//! law.

ghost use Rattle.std.specs.Prelude.{◌≡◌, ◌^◌, ◌<◌, ◌≤◌, List, slice_index, ℕ};
ghost use Rattle.cm_types.specs.declared.core_value.CoreValue.{CoreValue};
ghost use Rattle.cm_types.specs.Types.{Fields};
ghost use Rattle.cm_types.specs.Values.{Val};
ghost use Rattle.cm_layout.specs.Laid.{Laid};
ghost use Rattle.cm_layout.specs.Layouts.{layout_of};
ghost use Rattle.cm_layout.specs.Shapes.{Shape};
ghost use Rattle.cm_abi_model.specs.Views.{flat_limit};
ghost use Rattle.cm_abi_model.specs.Ways.{way_of};
ghost use Rattle.cm_abi_load.specs.Sized.{IsSized};
ghost use Rattle.cm_abi_lift.specs.declared.passed.Passed.{Passed};
ghost use Rattle.cm_abi_store.specs.FlatLowering.{IsPassedIn};
ghost use Rattle.cm_abi_programs.specs.Puts.{puts_of};
ghost use Rattle.cm_abi_programs.specs.SlotPuts.{flat_puts_of};
ghost use Rattle.cm_abi_running.specs.Passing.{all_passed, lowered_as};
ghost use Rattle.cm_abi_running.specs.Putting.{all_written, stored_as};
ghost use Rattle.cm_abi_copy.specs.CallPutting.{IsFlatPut, IsSpilledPut};
ghost use Rattle.cm_abi_running.specs.Copying.{Copying, shown_to};
ghost use Rattle.cm_abi_running.specs.declared.copier.Copier.{Copier};
ghost use Rattle.cm_abi_copy.specs.FlatReady.{IsFlatReady};
ghost use Rattle.cm_abi_copy.specs.FlatShown.{flat_shown};
ghost use Rattle.cm_abi_copy.specs.PassingOn.{CanBePassedOn};
ghost use Rattle.cm_abi_running.specs.PutsReady.{ArePutsReady, seen_from};
ghost use Rattle.cm_abi_running.specs.PutsWithin.{ArePutsWithin};
ghost use Rattle.cm_abi_running.specs.Ready.{IsReady};
ghost use Rattle.cm_abi_running.specs.SlotPutsReady.{AreSlotsReady, AreSlotsWithin};

use crate::call_laws::what_is_denoted_is_copied;
use crate::laws::{handles_are_stored_as_numbers, what_is_read_is_copied};
use cm_abi_load::laws::numbers_are_sized;
use cm_abi_running::laws::{puts_run_in_turn, running_puts_is_storing, slot_puts_run_in_turn};
use cm_layout::laws::layouts;

/// The puts of a type lie within its values: within the bytes that it takes, and within the core
/// values that it is passed in.
fn puts_lie_within_values()
    ensures stored { (n : ℕ) (x : Shape) → Laid n x → IsSized x → ArePutsWithin n (puts_of x) }
    ensures passed { (n : ℕ) (x : Shape) → IsPassedIn n x → IsSized x
        → AreSlotsWithin n (flat_puts_of x) }
{}

/// Running the puts of a type is storing the value that the source shows at an address, and
/// lowering the one that core values show.
fn running_puts_copies_what_is_shown()
    ensures stored { (c : Copying) (x : Shape) (p q k h : ℕ)
        → ((i : ℕ) → slice_index c.memory i < 2 ^ 8) → IsSized x
        → all_written (seen_from c) c.given (puts_of x) p q k h
        ≡ stored_as c.given x (shown_to c x p) q k h }
    ensures passed { (c : Copying) (slots : List CoreValue) (x : Shape) (s k h : ℕ)
        → ((i : ℕ) → slice_index c.memory i < 2 ^ 8) → IsSized x
        → all_passed (seen_from c) c.given slots (flat_puts_of x) s k h
        ≡ lowered_as c.given x (flat_shown c slots x s) s k h }
{
    puts_run_in_turn();
    slot_puts_run_in_turn();
    running_puts_is_storing();
}

/// What can be copied can be copied by the puts of its type.
fn what_is_ready_is_ready_for_puts()
    ensures stored { (n : ℕ) (c : Copying) (x : Shape) (p q k h : ℕ)
        → ((i : ℕ) → slice_index c.memory i < 2 ^ 8) → IsSized x → IsReady n c x p k h
        → ArePutsReady n c (puts_of x) p q k h }
    ensures passed { (n : ℕ) (c : Copying) (slots : List CoreValue) (x : Shape) (s k h : ℕ)
        → ((i : ℕ) → slice_index c.memory i < 2 ^ 8) → IsSized x
        → IsFlatReady n c slots x s k h → AreSlotsReady n c slots (flat_puts_of x) s k h }
{
    puts_run_in_turn();
    slot_puts_run_in_turn();
    running_puts_copies_what_is_shown();
}

/// Values that can be passed on can be copied by their puts, as the tuple that they are where they
/// are behind a pointer, and else from core values to core values; what is stored and passed then
/// is what the call stores and passes. The source is a memory of bytes.
pub(crate) fn what_is_denoted_can_be_put()
    ensures spilled { (n m : ℕ) (from : Copier) (passed : Passed) (types : Fields) (v : Val)
        → CanBePassedOn n m from passed types v
        → ((i : ℕ) → slice_index from.memory.now i < 2 ^ 8)
        → flat_limit (way_of passed.way) < (layout_of passed.layout.now).head.width
        → IsSpilledPut n m from passed types v }
    ensures flat { (n m : ℕ) (from : Copier) (passed : Passed) (types : Fields) (v : Val)
        → CanBePassedOn n m from passed types v
        → ((i : ℕ) → slice_index from.memory.now i < 2 ^ 8)
        → (layout_of passed.layout.now).head.width ≤ flat_limit (way_of passed.way)
        → IsFlatPut n m from passed types v }
{
    layouts();
    numbers_are_sized();
    what_is_denoted_is_copied();
    what_is_read_is_copied();
    handles_are_stored_as_numbers();
    puts_lie_within_values();
    running_puts_copies_what_is_shown();
    what_is_ready_is_ready_for_puts();
}
