//! What holds of imports that are instances of one type, as laws: each function here does nothing,
//! and its contract is the law.

ghost use Rattle.std.specs.Prelude.{◌≡◌, ℕ, List, Some, map, slice_get};
ghost use Rattle.cm_binary_model.specs.Trees.{SectionTree};
ghost use Rattle.cm_types.specs.Signatures.{NamedExtern, NamedItem, fresh_resource, instance};
ghost use Rattle.cm_types.specs.declared.resource.ResourceId.{ResourceId};
ghost use Rattle.cm_types_arena.specs.Moves.{moved};
ghost use Rattle.cm_types_arena.specs.Instances.{replaced_item};
ghost use Rattle.cm_validate_model.specs.Definitions.{ExportDef, InstanceTy, NamedMember};
ghost use Rattle.cm_validate_model.specs.Definitions.{exported_instance};
ghost use Rattle.cm_validate_model.specs.Items.{Item};
ghost use Rattle.cm_validate_model.specs.Spaces.{after_items, empty_spaces, spaces_of};
ghost use Rattle.cm_match_model.specs.declared.fault.LinkReason.{LinkReason};
ghost use Rattle.cm_match_model.specs.Imports.{Sees, import_at, import_in, seen_by};
ghost use Rattle.cm_match_model.specs.Links.{IsNotServed, IsServed};
ghost use Rattle.cm_match_model.specs.Serving.{IsExternUnserved, IsItemServed, ServesExtern};
ghost use Rattle.cm_match_model.specs.Serving.{standing};
ghost use Rattle.cm_match_model.specs.Alike.{AreAllAlike, FailsAt, IsLinkedTo};
ghost use Rattle.cm_match_model.specs.Brought.{BringsInOrder, OwnsWhatItBrings, items_from};

use crate::laws::links_lead_earlier;
use crate::origin_laws::origins_are_unique;
use cm_validate_model::counted_laws::{moves_of_what_is_counted, resources_are_counted};

/// Wherever in a component, valid or not: the items of an import of an instance are those of a
/// type, whose own resources they bring, one after another; each is the component's resource of its
/// number, and no item names a resource that an item behind it brings.
pub fn imports_bring_in_order()
    ensures before { (front : List Item) (import : ℕ) (x : NamedExtern) (items : List NamedItem)
        → slice_get (after_items empty_spaces front).imports import ≡ Some x
        → x.desc ≡ instance items
        → BringsInOrder (after_items empty_spaces front).resources import items }
    ensures whole { (sections : List SectionTree) (import : ℕ) (x : NamedExtern)
        (items : List NamedItem) → slice_get (spaces_of sections).imports import ≡ Some x
        → x.desc ≡ instance items
        → BringsInOrder (spaces_of sections).resources import items }
{
    resources_are_counted();
    moves_of_what_is_counted();
}

/// Two imports of a component that are instances of one type and are linked to the same instance:
/// a resource of the type's own is, in the end, the same for both, where the item that brings it is
/// served.
pub fn served_resources_are_the_same()
    ensures { (components : List (List SectionTree)) (sees : Sees) (c j k d : ℕ) (t : InstanceTy)
        (a b : ℕ) (members : List NamedMember)
        → IsLinkedTo (seen_by sees (map spaces_of components)) c j t a d (exported_instance members)
        → IsLinkedTo (seen_by sees (map spaces_of components)) c k t b d (exported_instance members)
        → (number : ℕ) (i : NamedItem) (r : ResourceId) → slice_get t.items number ≡ Some i
        → i.desc ≡ fresh_resource r
        → IsItemServed (seen_by sees (map spaces_of components)) c d members
        (replaced_item (moved t.first t.fresh a) i)
        → standing (seen_by sees (map spaces_of components)) c (moved t.first t.fresh a r)
        ≡ standing (seen_by sees (map spaces_of components)) c (moved t.first t.fresh b r) }
{
    resources_are_counted();
    links_lead_earlier();
    origins_are_unique();
    imports_bring_in_order();
}

/// The items of two such imports are alike, one by one, as far as they are served. So the first
/// that is not served is the item of the same number, and for the same reason.
pub fn items_are_alike()
    ensures alike { (components : List (List SectionTree)) (sees : Sees) (c j k d : ℕ)
        (t : InstanceTy) (a b : ℕ) (members : List NamedMember) → OwnsWhatItBrings t
        → IsLinkedTo (seen_by sees (map spaces_of components)) c j t a d (exported_instance members)
        → IsLinkedTo (seen_by sees (map spaces_of components)) c k t b d (exported_instance members)
        → AreAllAlike (seen_by sees (map spaces_of components)) c d members (items_from t a)
        (items_from t b) }
    ensures fails { (components : List (List SectionTree)) (sees : Sees) (c j k d : ℕ)
        (t : InstanceTy) (a b : ℕ) (members : List NamedMember) (number : ℕ) (r : LinkReason)
        → OwnsWhatItBrings t
        → IsLinkedTo (seen_by sees (map spaces_of components)) c j t a d (exported_instance members)
        → IsLinkedTo (seen_by sees (map spaces_of components)) c k t b d (exported_instance members)
        → FailsAt (seen_by sees (map spaces_of components)) c d members (items_from t a) number r
        → FailsAt (seen_by sees (map spaces_of components)) c d members (items_from t b) number r }
{
    resources_are_counted();
    links_lead_earlier();
    origins_are_unique();
    imports_bring_in_order();
}

/// An export that serves one of two such imports serves the other; one that does not serve the one
/// does not serve the other, for the same reason.
pub fn what_serves_one_serves_both()
    ensures served { (components : List (List SectionTree)) (sees : Sees) (c j k d : ℕ)
        (t : InstanceTy) (a b : ℕ) (e : ExportDef) → OwnsWhatItBrings t
        → IsLinkedTo (seen_by sees (map spaces_of components)) c j t a d e
        → IsLinkedTo (seen_by sees (map spaces_of components)) c k t b d e
        → ServesExtern (seen_by sees (map spaces_of components)) c (instance (items_from t a)) d e
        → ServesExtern (seen_by sees (map spaces_of components)) c (instance (items_from t b)) d e }
    ensures unserved { (components : List (List SectionTree)) (sees : Sees) (c j k d : ℕ)
        (t : InstanceTy) (a b : ℕ) (e : ExportDef) (r : LinkReason) → OwnsWhatItBrings t
        → IsLinkedTo (seen_by sees (map spaces_of components)) c j t a d e
        → IsLinkedTo (seen_by sees (map spaces_of components)) c k t b d e
        → IsExternUnserved (seen_by sees (map spaces_of components)) c (instance (items_from t a))
        d e r
        → IsExternUnserved (seen_by sees (map spaces_of components)) c (instance (items_from t b))
        d e r }
{
    items_are_alike();
}

/// Two imports of a component that are instances of one type and are linked to the same definition
/// of one provider are served alike: where the one is served the other is, and where the one is not
/// the other is not, for the same reason.
pub fn imports_are_served_alike()
    ensures served { (components : List (List SectionTree)) (sees : Sees) (c j k d : ℕ)
        (t : InstanceTy) (a b : ℕ) (e : ExportDef) (x y : NamedExtern) → OwnsWhatItBrings t
        → IsLinkedTo (seen_by sees (map spaces_of components)) c j t a d e
        → IsLinkedTo (seen_by sees (map spaces_of components)) c k t b d e
        → import_in (map spaces_of components) c j ≡ Some x
        → import_in (map spaces_of components) c k ≡ Some y
        → IsServed (seen_by sees (map spaces_of components)) (import_at c j x)
        → IsServed (seen_by sees (map spaces_of components)) (import_at c k y) }
    ensures not_served { (components : List (List SectionTree)) (sees : Sees) (c j k d : ℕ)
        (t : InstanceTy) (a b : ℕ) (e : ExportDef) (x y : NamedExtern) (r : LinkReason)
        → OwnsWhatItBrings t
        → IsLinkedTo (seen_by sees (map spaces_of components)) c j t a d e
        → IsLinkedTo (seen_by sees (map spaces_of components)) c k t b d e
        → import_in (map spaces_of components) c j ≡ Some x
        → import_in (map spaces_of components) c k ≡ Some y
        → IsNotServed (seen_by sees (map spaces_of components)) (import_at c j x) r
        → IsNotServed (seen_by sees (map spaces_of components)) (import_at c k y) r }
{
    what_serves_one_serves_both();
}
