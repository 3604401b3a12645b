//! What holds of the definitions, as laws: each function here does nothing, and its contract is the
//! law.

ghost use Rattle.std.specs.Prelude.{◌≡◌, ◌<◌, ℕ, List, Option, Some, map, slice_get};
ghost use Rattle.cm_binary_model.specs.Trees.{SectionTree};
ghost use Rattle.cm_types.specs.Types.{FuncTy};
ghost use Rattle.cm_validate_model.specs.Definitions.{ExportDef, func_type_of, lifted};
ghost use Rattle.cm_validate_model.specs.Valid.{IsValid};
ghost use Rattle.std.specs.List.{AllByRecursion};
ghost use Rattle.cm_validate_model.specs.Spaces.{Spaces, spaces_of};
ghost use Rattle.cm_match_model.specs.declared.fault.LinkReason.{LinkReason};
ghost use Rattle.cm_match_model.specs.Origins.{LeadEarlier, Links};
ghost use Rattle.cm_match_model.specs.declared.component.Link.{Link};
ghost use Rattle.cm_match_model.specs.Imports.{LinkSet, Sees, export_in, links_of, seen_by};
ghost use Rattle.cm_match_model.specs.Links.{CanBeLinked, IsLinkFault};
ghost use Rattle.cm_match_model.specs.Serving.{IsSameFunc};
ghost use Rattle.cm_validate_model.specs.Imported.{wanted_func};
ghost use Rattle.cm_validate_model.specs.Named.{IsLiftWhole};
ghost use Rattle.cm_match_model.specs.Targets.{AreTargets, FuncAt, Target, Targets, serving_func};
ghost use Rattle.cm_match_model.specs.Targets.{targets_of};

use cm_validate_model::function_laws::{functions_are_as_imported, what_functions_name_is_there};

/// An import is linked to an export of an earlier component.
pub fn links_lead_earlier()
    ensures { (set : LinkSet) → LeadEarlier (links_of set) }
{}

/// An import is linked to an export that is there.
pub fn links_name_exports()
    ensures { (set : LinkSet) (c n : ℕ) (l : Link) → links_of set c n ≡ Some l
        → (e : ExportDef) × (export_in set.spaces l.component l.export ≡ Some e) }
{}

/// A set that can be linked has no fault, and no set has two.
pub fn sets_have_one_answer()
    ensures never_both { (set : LinkSet) (c n : ℕ) (r : LinkReason)
        → CanBeLinked set → IsLinkFault set c n r → ⊥ }
    ensures one { (set : LinkSet) (c d m n : ℕ) (q r : LinkReason)
        → IsLinkFault set c m q → IsLinkFault set d n r → (c ≡ d) × (m ≡ n) × (q ≡ r) }
{}

/// Where imports are linked to earlier components, there is one answer to what each imported
/// function comes to in the end, and no other.
pub fn targets_are_unique()
    ensures one { (set : List Spaces) (links : Links) → LeadEarlier links
        → AreTargets set links (targets_of set links) }
    ensures no_other { (set : List Spaces) (links : Links) (s t : Targets) → LeadEarlier links
        → AreTargets set links s → AreTargets set links t
        → (component import : ℕ) (item : Option ℕ)
        → s component import item ≡ t component import item }
{}

/// In a set that can be linked, each function that a component imports, by itself or as an item of
/// an instance, is served by a function of an earlier component of the same type.
pub fn imported_functions_are_served()
    ensures { (set : LinkSet) → CanBeLinked set → (c : ℕ) (s : Spaces)
        → slice_get set.spaces c ≡ Some s → (import : ℕ) (item : Option ℕ) (f : FuncTy)
        → wanted_func s import item ≡ Some f
        → (g : FuncAt) × (serving_func set.spaces (links_of set) c import item ≡ Some g)
        × (g.component < c) × IsSameFunc set c f g.component (func_type_of g.func) }
{}

/// In a set that can be linked, each function that a component imports, by itself or as an item of
/// an instance, comes to a lifted function of an earlier component of the same type.
pub fn imported_functions_reach_lifts()
    ensures { (components : List (List SectionTree)) (sees : Sees)
        → CanBeLinked (seen_by sees (map spaces_of components))
        → (c import : ℕ) (s : Spaces) (item : Option ℕ) (f : FuncTy)
        → slice_get (map spaces_of components) c ≡ Some s → wanted_func s import item ≡ Some f
        → (t : Target) × (targets_of (map spaces_of components)
        (links_of (seen_by sees (map spaces_of components))) c import item ≡ Some t)
        × (t.component < c)
        × IsSameFunc (seen_by sees (map spaces_of components)) c f t.component t.ty }
{
    imported_functions_are_served();
    functions_are_as_imported();
}

/// Where components are valid, an imported function comes to a lift of a guest's core function of
/// its component, with options that name what is there and that its type needs.
pub fn targets_are_lifts()
    ensures { (components : List (List SectionTree)) (sees : Sees)
        → AllByRecursion IsValid components
        → (c import : ℕ) (item : Option ℕ) (t : Target)
        → targets_of (map spaces_of components) (links_of (seen_by sees (map spaces_of components)))
        c import item ≡ Some t
        → (s : Spaces) × (slice_get (map spaces_of components) t.component ≡ Some s)
        × IsLiftWhole s (lifted t.core_func t.ty t.options) }
{
    what_functions_name_is_there();
}
