//! What holds of the definitions, as laws: each function here does nothing, and its contract is the
//! law.

ghost use Rattle.std.specs.Prelude.{◌≡◌, ◌≤◌, ℕ, List, Option, Some, is_some, true};
ghost use Rattle.cm_types.specs.declared.resource.ResourceId.{ResourceId};
ghost use Rattle.cm_validate_model.specs.Definitions.{brought, defined};
ghost use Rattle.cm_validate_model.specs.Spaces.{Spaces};
ghost use Rattle.cm_match_model.specs.Origins.{AreOrigins, LeadEarlier, Links, Table};
ghost use Rattle.cm_match_model.specs.Origins.{definition_of, origin_of, served};

/// Where imports are linked to earlier components, one table tells what each resource is in the
/// end, and no other.
pub fn origins_are_unique()
    ensures one { (set : List Spaces) (links : Links) → LeadEarlier links
        → AreOrigins set links (origin_of set links) }
    ensures no_other { (set : List Spaces) (links : Links) (s t : Table) → LeadEarlier links
        → AreOrigins set links s → AreOrigins set links t → (r : ResourceId) → s r ≡ t r }
{}

/// What a table of origins says: a resource that a component defines is itself, and one that is
/// brought is what the resource is that serves it.
pub fn origins_follow_links()
    ensures defined { (set : List Spaces) (links : Links) (table : Table)
        → AreOrigins set links table → (r : ResourceId) (destructor : Option ℕ)
        → definition_of set r ≡ Some (defined destructor) → table r ≡ Some r }
    ensures brought { (set : List Spaces) (links : Links) (table : Table)
        → AreOrigins set links table → (r provided origin : ResourceId) (import item : ℕ)
        → definition_of set r ≡ Some (brought import item)
        → served set links r.component import item ≡ Some provided
        → table provided ≡ Some origin → table r ≡ Some origin }
{}

/// Where imports are linked to earlier components, a resource is in the end one of its own
/// component or of an earlier one; and each resource that is there is one in the end.
pub fn origins_lead_earlier()
    ensures earlier { (set : List Spaces) (links : Links) → LeadEarlier links
        → (r origin : ResourceId) → origin_of set links r ≡ Some origin
        → origin.component ≤ r.component }
    ensures there { (set : List Spaces) (links : Links) (r : ResourceId)
        → is_some (definition_of set r) ≡ true → is_some (origin_of set links r) ≡ true }
{}
