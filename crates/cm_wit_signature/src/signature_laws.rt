//! What holds of the signatures of worlds, as laws: each function here does nothing, and its
//! contract is the law.

ghost use Rattle.std.specs.Prelude.{◌≡◌, ℕ, List, Option, Some, length};
ghost use Rattle.cm_types.specs.Signatures.{SignatureTy};
ghost use Rattle.cm_wit_reading.specs.Trees.{File};
ghost use Rattle.cm_wit_worlds.specs.Interfaces.{PlacedWorld, interfaces};
ghost use Rattle.cm_wit_meanings.specs.Scopes.{Meaning};
ghost use Rattle.cm_wit_tables.specs.Declarations.{Declaration, HasTypeCycle};
ghost use Rattle.cm_wit_tables.specs.Tables.{Solves, scope_of};
ghost use Rattle.cm_wit_tables.specs.Worlds.{declarations, instances};
ghost use Rattle.cm_wit_signature.specs.Named.{HaveTypes};
ghost use Rattle.cm_wit_signature.specs.Own.{AreOwn};
ghost use Rattle.cm_wit_signature.specs.Signatures.{signature_in};

use cm_wit_tables::declared_laws::{
    acyclic_ones_can_be_ranked, each_stands_where_names_lead, resources_stand_for_resources,
};

/// Where each name in what a world reaches leads to a type, that of a borrow to a resource, and no
/// type uses itself, the world has a signature.
pub fn typed_ones_have_signatures()
    ensures { (fs : List File) (w : PlacedWorld) (into out : List ℕ)
        (table : List (Option Meaning))
        → HaveTypes fs w (instances (length (interfaces fs)) into out)
        → (HasTypeCycle (declarations fs (instances (length (interfaces fs)) into out)) → ⊥)
        → Solves (declarations fs (instances (length (interfaces fs)) into out)) table
        → (s : SignatureTy) × (signature_in fs w into out table ≡ Some s) }
{
    acyclic_ones_can_be_ranked();
    resources_stand_for_resources();
    each_stands_where_names_lead();
}

/// Where no declaration uses itself, each resource that a name stands for is the world's own.
pub fn resources_are_own()
    ensures { (ds : List Declaration) (table : List (Option Meaning)) (l : ℕ)
        → (HasTypeCycle ds → ⊥) → Solves ds table → AreOwn (scope_of ds table l) }
{
    acyclic_ones_can_be_ranked();
}
