//! What holds of the tables of what declarations stand for, as laws: each function here does
//! nothing, and its contract is the law.

ghost use Rattle.std.specs.Prelude.{◌≡◌, ◌↔◌, ℕ, List, Option, Some, None, length, slice_get};
ghost use Rattle.std.specs.Prelude.{slice_index_or};
ghost use Rattle.std.specs.List.{AllByRecursion};
ghost use Rattle.std.specs.Option.{option_map};
ghost use Rattle.cm_wit_graph.specs.Orders.{IsWithin};
ghost use Rattle.cm_types.specs.declared.resource.ResourceId.{ResourceId};
ghost use Rattle.cm_wit_meanings.specs.Scopes.{Meaning, resource};
ghost use Rattle.cm_wit_tables.specs.Declarations.{Declaration, HasTypeCycle, IsRanked, uses};
ghost use Rattle.cm_wit_tables.specs.Tables.{HasOneTable, IsWhole, Solves, entry_meaning};
ghost use Rattle.cm_wit_tables.specs.TypeFaults.{AllHaveTypes, IsResource};

use cm_wit_graph::laws::nodes_can_be_ranked;

/// Declarations of which none uses itself, by way of others or not, can be ranked, each above those
/// that it uses.
pub fn acyclic_ones_can_be_ranked()
    ensures { (ds : List Declaration) → (HasTypeCycle ds → ⊥)
        → (rank : ℕ → ℕ) × IsRanked ds rank }
{
    nodes_can_be_ranked();
}

/// Where each declaration can be ranked above those that it uses, and so none uses itself, there is
/// one table of what they stand for, and no other.
pub fn one_table()
    ensures { (ds : List Declaration) (rank : ℕ → ℕ) → IsRanked ds rank → HasOneTable ds }
{}

/// Where declarations can be ranked, exactly those of resources stand for a resource.
pub fn resources_stand_for_resources()
    ensures { (ds : List Declaration) (rank : ℕ → ℕ) (table : List (Option Meaning)) (k : ℕ)
        → IsRanked ds rank → Solves ds table → IsResource ds k
        ↔ ((r : ResourceId) × (slice_get table k ≡ Some (Some (resource r)))) }
{}

/// Where no declaration uses itself, there is one table of what they stand for, and no other.
pub fn acyclic_ones_have_one_table()
    ensures { (ds : List Declaration) → (HasTypeCycle ds → ⊥) → HasOneTable ds }
{
    acyclic_ones_can_be_ranked();
}

/// Where no declaration uses itself, each stands for something exactly where each name in their
/// texts leads to a type, and that of a borrow to a resource.
pub fn each_stands_where_names_lead()
    ensures { (ds : List Declaration) (table : List (Option Meaning)) → (HasTypeCycle ds → ⊥)
        → Solves ds table → AllHaveTypes ds ↔ IsWhole ds table }
{
    acyclic_ones_can_be_ranked();
}

/// Tables that agree on the declarations that one uses agree on what that one stands for.
pub fn what_is_used_decides()
    ensures { (ds : List Declaration) (a b : List (Option Meaning)) (k : ℕ)
        → AllByRecursion (λ j. slice_index_or a j None ≡ slice_index_or b j None) (uses ds k)
        → option_map (entry_meaning ds a k) (slice_get ds k)
        ≡ option_map (entry_meaning ds b k) (slice_get ds k) }
{}

/// Each declaration that one uses is among the declarations.
pub fn what_is_used_is_declared()
    ensures { (ds : List Declaration) → IsWithin (length ds) (uses ds) }
{}
