//! What holds of bundles of linked sets, as laws: each function here does nothing, and its contract
//! is the law.

ghost use Rattle.std.specs.Prelude.{◌≡◌, ℕ, List, Some, map, slice_get};
ghost use Rattle.std.specs.List.{AllByRecursion};
ghost use Rattle.cm_bundle.specs.Trees.{GroupTree, SupplyTree, NameTree};
ghost use Rattle.cm_match_model.specs.Imports.{LinkSet, imports_of};
ghost use Rattle.cm_match_model.specs.Links.{CanBeLinked};
ghost use Rattle.cm_validate_model.specs.Spaces.{Spaces};
ghost use Rattle.cm_bundle.specs.Bundled.{arguments_of, bundle_of};
ghost use Rattle.cm_bundle.specs.Serving.{IsGiven};

use cm_match_model::laws::links_lead_earlier;

/// In the bundle of a set that can be linked, each import is given an export of an earlier
/// component that serves it.
pub fn arguments_serve_their_imports()
    ensures { (set : LinkSet) → CanBeLinked set
        → AllByRecursion (λ i. (x : SupplyTree) × IsGiven set i x) (imports_of set.spaces) }
{
    links_lead_earlier();
}

/// A component of a set that can be linked is given one argument for each import, in order and
/// under its name, and no other.
pub fn arguments_are_one_for_each_import()
    ensures { (set : LinkSet) → CanBeLinked set → (component : ℕ) (s : Spaces)
        → slice_get set.spaces component ≡ Some s
        → map (λ x. x.name) (arguments_of set component) ≡ map (λ i. i.name) s.imports }
{}

/// The files of a bundle are those of its set, in order.
pub fn files_are_kept()
    ensures { (set : LinkSet) (front : List GroupTree) (files : List (List ℕ)) (exporter : ℕ)
        (names : List NameTree)
        → map (λ p. p.file) (bundle_of set front files exporter names).parts ≡ files }
{}
