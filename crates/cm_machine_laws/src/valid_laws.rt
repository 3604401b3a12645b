//! What holds of the rules of the machine, as laws: each function here does nothing, and its
//! contract is the law.

ghost use Rattle.std.specs.Prelude.{◌≡◌, ℕ, true, false, List, [], Some, length, slice_get};
ghost use Rattle.cm_types.specs.Values.{Val};
ghost use Rattle.cm_types.specs.Types.{Fields};
ghost use Rattle.cm_types.specs.declared.core_value.CoreValue.{CoreValue};
ghost use Rattle.cm_abi_model.specs.Denotes.{Denotes};
ghost use Rattle.cm_abi_model.specs.Receives.{leaves_in};
ghost use Rattle.cm_abi_model.specs.Requests.{tuple_of};
ghost use Rattle.cm_abi_model.specs.HandleLeaves.{owned_in};
ghost use Rattle.cm_abi_model.specs.Taken.{Transferable, met};
ghost use Rattle.cm_abi_model.specs.Views.{View, Way};
ghost use Rattle.cm_machine_laws.specs.Taking.{AreTaken, AreThere};
ghost use Rattle.cm_machine_model.specs.declared.event.Event.{Event};
ghost use Rattle.cm_machine_model.specs.declared.moves.Move.{Move};
ghost use Rattle.cm_machine_model.specs.History.{IsHistoryOf, Occurrence, WritesBytes};
ghost use Rattle.cm_machine_model.specs.Owning.{NoneDangles};
ghost use Rattle.cm_machine_model.specs.Passages.{Carries};
ghost use Rattle.cm_machine_model.specs.Plan.{Link, Plan};
ghost use Rattle.cm_machine_model.specs.Plans.{IsPlan};
ghost use Rattle.cm_machine_model.specs.Run.{after_begin};
ghost use Rattle.cm_machine_model.specs.State.{Passage, State, are_page_counts, fresh_state};
ghost use Rattle.cm_machine_model.specs.Step.{Step};
ghost use Rattle.cm_machine_model.specs.Valid.{IsValidState};

use cm_abi_model::laws::one_value_is_on_its_way;
use cm_handles::laws::tables_change_in_one_place;

/// The machine is valid before anything ran, and when a root call begins.
pub fn machine_starts_valid()
    ensures fresh { (plan : Plan) (pages : List ℕ) → IsPlan plan
        → are_page_counts (length plan) pages ≡ true
        → IsValidState plan (fresh_state (length plan) pages) }
    ensures begun { (plan : Plan) (s : State) (i : ℕ) → IsValidState plan s → s.stack ≡ []
        → slice_get s.closed i ≡ Some false → IsValidState plan (after_begin s i) }
{}

/// Each step keeps the machine valid, where a move writes bytes.
pub fn machine_stays_valid()
    ensures { (plan : Plan) (s : State) (m : Move) (e : Event) (new : State)
        → IsValidState plan s → WritesBytes m → Step plan s m e new → IsValidState plan new }
{
    one_value_is_on_its_way();
    tables_change_in_one_place();
}

/// The machine is valid in each state that a history leads to.
pub fn histories_are_valid()
    ensures { (plan : Plan) (pages : List ℕ) (h : List Occurrence) (s : State)
        → IsHistoryOf plan pages h s → IsValidState plan s }
{
    machine_starts_valid();
    machine_stays_valid();
}

/// No borrow dangles: where a handle is borrowed, its resource is in a table, owned by a handle
/// that is lent.
pub fn what_is_borrowed_is_backed()
    ensures { (plan : Plan) (s : State) → IsValidState plan s → NoneDangles s }
{}

/// One passage carries one value: two that the same memory shows, with the same handles, are one.
pub fn one_value_is_carried()
    ensures { (memory : List ℕ) (l : Link) (way : Way) (p : Passage) (v u : Val)
        → Carries memory l way p v → Carries memory l way p u → v ≡ u }
{
    one_value_is_on_its_way();
}

/// The handles that a lift meets are those of the value that it lifts, one for one: those that it
/// owns are taken where a handle owns them, and those that it borrows are lent where one stands for
/// them.
pub fn what_is_met_is_the_values_handles()
    ensures { (w : View) (way : Way) (types : Fields) (slots : List CoreValue) (v : Val)
        → Denotes w way types slots v
        → AreThere w.table (met w way types slots v) (leaves_in (tuple_of types) v) }
{}

/// What a value owns that can be handed over are the resources of the handles that are taken for
/// it, one after another.
pub fn what_a_value_owns_is_taken()
    ensures { (w : View) (way : Way) (types : Fields) (slots : List CoreValue) (v : Val)
        → Denotes w way types slots v → Transferable w way types slots v
        → AreTaken w.table (met w way types slots v)
        (owned_in (leaves_in (tuple_of types) v)) }
{}
