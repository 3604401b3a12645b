//! What a host sees, as laws: each function here does nothing, and its contract is the law.

ghost use Rattle.std.specs.Prelude.{◌≡◌, List, [], false};
ghost use Rattle.cm_types.specs.declared.core_value.CoreValue.{CoreValue};
ghost use Rattle.cm_types.specs.Holds.{holds, is_handle};
ghost use Rattle.cm_types.specs.Types.{Fields, Ty};
ghost use Rattle.cm_types.specs.Values.{Val};
ghost use Rattle.cm_handles.specs.Handles.{Handles};
ghost use Rattle.cm_abi_model.specs.Denotes.{Denotes};
ghost use Rattle.cm_abi_model.specs.Receives.{leaves_in};
ghost use Rattle.cm_abi_model.specs.Requests.{tuple_of};
ghost use Rattle.cm_abi_model.specs.Views.{View, Way};
ghost use Rattle.cm_host_values.specs.Indexed.{host_types, indexed};
ghost use Rattle.cm_host_values.specs.Sees.{Sees, host_of};

use cm_abi_model::laws::denotations_are_unique;

/// What a host reads of core values is what it sees of the value that they denote: where they
/// denote a value, there is something to be read, and whatever is read is that value, each handle
/// as the index at which the table has it. And where a host's value is what it sees of a value,
/// core values that pass the one denote the other.
pub fn hosts_see_what_is_denoted()
    ensures there { (w : View) (way : Way) (types : Fields) (slots : List CoreValue) (v : Val)
        → Denotes w way types slots v
        → (u : Val) × Denotes (host_of w) way (host_types types) slots u }
    ensures seen { (w : View) (way : Way) (types : Fields) (slots : List CoreValue) (v u : Val)
        → Denotes w way types slots v → Denotes (host_of w) way (host_types types) slots u
        → Sees w.table (tuple_of types) v u }
    ensures passed { (w : View) (way : Way) (types : Fields) (slots : List CoreValue) (v u : Val)
        → Denotes (host_of w) way (host_types types) slots u → Sees w.table (tuple_of types) v u
        → Denotes w way types slots v }
{
    denotations_are_unique();
}

/// A host sees a type without handles as it is, and a value of it as it is.
pub fn what_has_no_handles_is_seen_as_it_is()
    ensures types { (t : Ty) → holds is_handle t ≡ false → indexed t ≡ t }
    ensures values { (table : Handles) (t : Ty) (v u : Val) → holds is_handle t ≡ false
        → Sees table t v u → v ≡ u }
{}

/// What a host sees has no handles.
pub fn what_a_host_sees_has_no_handles()
    ensures { (types : Fields) (v : Val) → leaves_in (tuple_of (host_types types)) v ≡ [] }
{}
