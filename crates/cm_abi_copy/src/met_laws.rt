//! What the handles that are met are, as laws: each function here does nothing, and its contract is
//! the law.

ghost use Rattle.std.specs.Prelude.{◌≡◌, [], List};
ghost use Rattle.cm_types.specs.declared.core_value.CoreValue.{CoreValue};
ghost use Rattle.cm_types.specs.Types.{Fields};
ghost use Rattle.cm_types.specs.Values.{Val};
ghost use Rattle.cm_abi_model.specs.Denotes.{Denotes};
ghost use Rattle.cm_abi_model.specs.Receives.{leaves_in};
ghost use Rattle.cm_abi_model.specs.Requests.{tuple_of};
ghost use Rattle.cm_abi_model.specs.Taken.{met};
ghost use Rattle.cm_abi_model.specs.Views.{View, Way};
ghost use Rattle.cm_abi_load.specs.Meeting.{AreAsWanted, Meets};
ghost use Rattle.cm_abi_load.specs.Outcomes.{State};
ghost use Rattle.cm_abi_copy.specs.MetLeaves.{leaves_found, leaves_met};

/// The handles that are met in what core values denote are those of the value, in reading order,
/// each as its type has it.
pub fn handles_that_are_met_are_the_values()
    ensures met { (w : View) (way : Way) (types : Fields) (slots : List CoreValue) (v : Val)
        → Denotes w way types slots v
        → leaves_met w.table (met w way types slots v) ≡ leaves_in (tuple_of types) v }
    ensures found { (w : View) (way : Way) (types : Fields) (slots : List CoreValue) (v : Val)
        (before after : State) → Denotes w way types slots v → before.handles ≡ []
        → Meets w.table before after (met w way types slots v)
        → leaves_found w.table after.handles ≡ leaves_in (tuple_of types) v }
    ensures wanted { (w : View) (way : Way) (types : Fields) (slots : List CoreValue) (v : Val)
        (before after : State) → before.handles ≡ []
        → Meets w.table before after (met w way types slots v)
        → AreAsWanted w.table after.handles }
{}
