//! What lifting means, as laws: each function here does nothing, and its contract is the law.

ghost use Rattle.std.specs.Prelude.{◌≡◌, ◌↔◌, ◌⊎◌, ◌≤◌, Bool, List, Ok, Err};
ghost use Rattle.cm_types.specs.declared.core_value.CoreValue.{CoreValue};
ghost use Rattle.cm_types.specs.Types.{Fields};
ghost use Rattle.cm_types.specs.Values.{Val};
ghost use Rattle.cm_layout.specs.Shapes.{layout_of_fields_at};
ghost use Rattle.cm_abi_model.specs.declared.fault.AbiFault.{AbiFault};
ghost use Rattle.cm_abi_model.specs.Denotes.{Denotes};
ghost use Rattle.cm_abi_model.specs.Faults.{abi_fault_number};
ghost use Rattle.cm_abi_model.specs.LiftStops.{LiftStops};
ghost use Rattle.cm_abi_model.specs.Taken.{Transferable, met};
ghost use Rattle.cm_abi_model.specs.Views.{View, Way, flat_limit};
ghost use Rattle.cm_abi_load.specs.Meeting.{Meets};
ghost use Rattle.cm_abi_load.specs.Outcomes.{State};
ghost use Rattle.cm_abi_load.specs.Reading.{seen_by};
ghost use Rattle.cm_abi_lift.specs.FlatReading.{read_passed};
ghost use Rattle.cm_abi_model.specs.Lifts.{Hands};
ghost use Rattle.cm_abi_model.specs.Lifts.{Lifts};
ghost use Rattle.cm_abi_lift.specs.Lifts.{lift_of};

use cm_abi_load::laws::{
    parts_that_are_read_are_shown, parts_that_are_shown_are_read, what_is_read_is_shown,
    what_is_shown_is_read,
};
use cm_abi_model::laws::handing_over_goes_in_turn;

/// What is lifted in a view is denoted there and can be handed over, and all its handles are; and
/// what is denoted and can be handed over is lifted. So a fault is met only where no value is
/// denoted, or where it cannot be handed over.
pub fn lifting_is_exact()
    ensures lifts { (w : View) (way : Way) (types : Fields) (slots : List CoreValue) (v : Val)
        (tags : List Bool) (h : Hands)
        → lift_of w.memory w.table w.encoding way (layout_of_fields_at types) slots
        ≡ Ok (v, tags, h) → Lifts w way types slots v tags h }
    ensures only { (w : View) (way : Way) (types : Fields) (slots : List CoreValue) (v : Val)
        → Denotes w way types slots v → Transferable w way types slots v
        → (tags : List Bool) × (h : Hands) × (lift_of w.memory w.table w.encoding way
        (layout_of_fields_at types) slots ≡ Ok (v, tags, h)) }
{
    what_is_read_is_shown();
    what_is_shown_is_read();
    parts_that_are_read_are_shown();
    parts_that_are_shown_are_read();
    handing_over_goes_in_turn();
}

/// Lifting comes to a fault exactly where the first thing in reading order that is wrong, in the
/// words of the types, is that one. It is one alone, and one of the traps 4 to 13. Either core
/// values denote a value that can be handed over, or lifting stops, and never both.
pub fn first_faults_are_told()
    ensures told { (w : View) (way : Way) (types : Fields) (slots : List CoreValue) (f : AbiFault)
        → lift_of w.memory w.table w.encoding way (layout_of_fields_at types) slots ≡ Err f
        ↔ LiftStops w way types slots f }
    ensures one { (w : View) (way : Way) (types : Fields) (slots : List CoreValue)
        (f g : AbiFault) → LiftStops w way types slots f → LiftStops w way types slots g → f ≡ g }
    ensures beside_no_value { (w : View) (way : Way) (types : Fields) (slots : List CoreValue)
        (f : AbiFault) (v : Val) → LiftStops w way types slots f → Denotes w way types slots v
        → Transferable w way types slots v → ⊥ }
    ensures number { (w : View) (way : Way) (types : Fields) (slots : List CoreValue)
        (f : AbiFault) → LiftStops w way types slots f
        → (4 ≤ abi_fault_number f) × (abi_fault_number f ≤ 13) }
    ensures either { (w : View) (way : Way) (types : Fields) (slots : List CoreValue)
        → ((v : Val) × Denotes w way types slots v × Transferable w way types slots v)
        ⊎ ((f : AbiFault) × LiftStops w way types slots f) }
{
    what_is_read_is_shown();
    what_is_shown_is_read();
    parts_that_are_read_are_shown();
    parts_that_are_shown_are_read();
    handing_over_goes_in_turn();
}

/// What is read of core values is what they denote; its bytes were taken from those that may still
/// come, and its tags and its handles were met in reading order, each handle as wanted.
pub fn what_is_passed_is_met()
    ensures denoted { (w : View) (way : Way) (types : Fields) (slots : List CoreValue)
        (s after : State) (v : Val)
        → read_passed (seen_by w) (flat_limit way) (layout_of_fields_at types) slots s
        ≡ Ok (v, after) → Denotes w way types slots v }
    ensures met { (w : View) (way : Way) (types : Fields) (slots : List CoreValue)
        (s after : State) (v : Val)
        → read_passed (seen_by w) (flat_limit way) (layout_of_fields_at types) slots s
        ≡ Ok (v, after) → Meets w.table s after (met w way types slots v) }
{
    what_is_read_is_shown();
    what_is_shown_is_read();
    parts_that_are_read_are_shown();
    parts_that_are_shown_are_read();
    handing_over_goes_in_turn();
}
