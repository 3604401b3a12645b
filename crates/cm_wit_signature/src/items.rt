//! The items of instances, whose types are put into an arena.

ghost use Rattle.std.specs.Prelude.{◌≡◌, ℕ, List, None, Some, [], true, IfOk, IfErr, length, map};
ghost use Rattle.std.specs.Prelude.{slice_get};
ghost use Rattle.cm_types.specs.Types.{FuncTy, Ty};
ghost use Rattle.cm_types_arena.specs.Places.{funcs_of, types_of};
ghost use Rattle.cm_types.specs.ExternNames.{name_spelling};
ghost use Rattle.cm_types_arena.specs.Instances.{desc_of, is_desc_there};
ghost use Rattle.cm_types_arena.specs.Shared.{are_shared_items_there, shared_item_of};
ghost use Rattle.cm_types_arena.specs.Shared.{shared_items_of};
ghost use Rattle.cm_types_arena.specs.SharedNames.{name_with};
ghost use Rattle.cm_types_arena.specs.declared.names.Front.{Front};
ghost use Rattle.cm_types_arena.specs.declared.names.Front.TheVariants as front;
ghost use Rattle.cm_wit_reading.specs.SignatureViews.{func_tree};
ghost use Rattle.cm_wit_reading.specs.Views.{interface_tree, resource_func_tree};
ghost use Rattle.cm_wit_meanings.specs.Places.{ArePlaced, Extends, IsPlaced, meaning_in, scope_in};
ghost use Rattle.cm_wit_meanings.specs.declared.fault.MeaningFault.TheVariants as fault;
ghost use Rattle.cm_wit_meanings.specs.Scopes.{as_resource};
ghost use Rattle.cm_wit_signature.specs.Fronts.{AreFronted, HasResource, IsFronted, func_front};
ghost use Rattle.cm_wit_signature.specs.Functions.{desc_funcs, item_funcs};
ghost use Rattle.cm_wit_signature.specs.Members.{func_name, items_in, member_item, own_type};
ghost use Rattle.cm_wit_meanings.specs.Meanings.{each_meaning};
ghost use Rattle.cm_wit_signature.specs.Members.{used_type};
ghost use Rattle.cm_wit_signature.specs.Members as spec;
ghost use Rattle.std.specs.List.{flat_map};
ghost use Rattle.std.specs.Option.{option_and_then};
ghost use Rattle.cm_wit_signature.specs.ItemFaults.{AreItemsFault, AreWithin, IsItemFault};
ghost use Rattle.cm_wit_signature.specs.MemberViews.{member_view};
ghost use Rattle.cm_wit_signature.specs.Own.{AreOwn, IsOwn};

use crate::resources::{front_resources, resource_at};
use crate::{Member, Members, interface_members};
use cm_types::{Label, ResourceId};
use cm_types_arena::placed_laws::unmoved;
use cm_types_arena::{ItemDesc, Placed, SharedItem, SharedItems, SharedName, Types};
use cm_wit_meanings::{Meaning, MeaningFault, Scope, push_func, push_resource_func};
use cm_wit_reading::{Func, Interface, ResourceFunc};
use std::alloc::{AllocError, Global};

/// What a name stands for.
fn found(scope: &Scope<'_, '_>, name: &Label) -> Result<Meaning, MeaningFault>
    ensures meaning { IfOk result (λ m. (types : List Ty) →
        scope_in types scope.now name.now ≡ Some (meaning_in types m)) }
    ensures placed { IfOk result (λ m. (count : ℕ) →
        ArePlaced count scope.now.table.now → IsPlaced count m) }
    ensures fault { IfErr result (λ f. f ≡ fault.NoSuchType) }
    ensures nothing { IfErr result (λ f. (types : List Ty) →
        scope_in types scope.now name.now ≡ None) }
{
    match scope.find(name.as_str()) {
        Some(meaning) => Ok(meaning),
        None => Err(MeaningFault::NoSuchType),
    }
}

/// A used type: equal to the one that is used.
fn used_desc(meaning: Meaning) -> ItemDesc
    ensures desc { (types : List Ty) (funcs : List FuncTy) → IsOwn (meaning_in types meaning)
        → desc_of types funcs result ≡ used_type (meaning_in types meaning) }
    ensures no_func { (types : List Ty) (funcs : List FuncTy) →
        desc_funcs (desc_of types funcs result) ≡ [] }
    ensures there { (types funcs : ℕ) → IsPlaced types meaning
        → is_desc_there types funcs result ≡ true }
{
    unmoved();
    match meaning {
        Meaning::Value(place) => ItemDesc::EqualType(Placed::at(place)),
        Meaning::Resource(resource) => ItemDesc::EqualResource(resource.number),
    }
}

/// A type that is defined: equal to what its definition says, but a resource is one of the
/// instance's own.
fn own_desc(meaning: Meaning) -> ItemDesc
    ensures desc { (types : List Ty) (funcs : List FuncTy) → IsOwn (meaning_in types meaning)
        → desc_of types funcs result ≡ own_type (meaning_in types meaning) }
    ensures no_func { (types : List Ty) (funcs : List FuncTy) →
        desc_funcs (desc_of types funcs result) ≡ [] }
    ensures there { (types funcs : ℕ) → IsPlaced types meaning
        → is_desc_there types funcs result ≡ true }
{
    unmoved();
    match meaning {
        Meaning::Value(place) => ItemDesc::EqualType(Placed::at(place)),
        Meaning::Resource(resource) => ItemDesc::FreshResource(resource.number),
    }
}

/// The name that is a label alone, whose front is the first.
fn plain_name(label: &Label) -> Result<SharedName, AllocError>
    ensures front { IfOk result (λ n. n.front ≡ 0) }
    ensures back { IfOk result (λ n. n.back ≡ label.now) }
{
    Ok(SharedName {
        front: 0,
        back: label.clone()?,
    })
}

/// The label behind the front of the name of a function of a resource. A constructor has none: the
/// resource's stands for it.
fn back_of<'a>(resource: &'a Label, func: &'a ResourceFunc) -> &'a Label
    ensures { name_spelling
        (name_with (func_front resource.now (resource_func_tree func.now)) result.now)
        ≡ func_name resource.now (resource_func_tree func.now) }
{
    match func {
        ResourceFunc::Method(name, _) => name,
        ResourceFunc::Static(name, _) => name,
        ResourceFunc::Constructor(_) => resource,
    }
}

/// Adds the type of a function of a resource, and answers the item. The front of its name has this
/// number, at which its resource is found.
fn push_resource_item(
    alloc: Global,
    types: &mut Types,
    scope: &Scope<'_, '_>,
    resources: &[Option<ResourceId>],
    resource: &Label,
    func: &ResourceFunc,
    front: usize,
) -> Result<SharedItem, MeaningFault>
    requires placed { ArePlaced (length (types_of types.old)) scope.now.table.now }
    requires resource { slice_get resources.now front ≡ Some
        (option_and_then as_resource (scope_in (types_of types.old) scope.now resource.now)) }
    ensures item { IfOk result (λ i. (fronts : List Front)
        → slice_get fronts front ≡ Some (func_front resource.now (resource_func_tree func.now))
        → member_item (scope_in (types_of types.old) scope.now)
        (spec.of_resource resource.now (resource_func_tree func.now))
        ≡ Some (shared_item_of (types_of types.new) (funcs_of types.new) fronts i)) }
    ensures there { IfOk result (λ i. is_desc_there (length (types_of types.new))
        (length (funcs_of types.new)) i.desc ≡ true) }
    ensures within { IfOk result (λ i. AreWithin
        (desc_funcs (desc_of (types_of types.new) (funcs_of types.new) i.desc))) }
    ensures fault { IfErr result (IsItemFault
        (member_item (scope_in (types_of types.old) scope.now)
        (spec.of_resource resource.now (resource_func_tree func.now)))) }
    ensures grown { Extends (types_of types.old) (types_of types.new) }
    ensures funcs { Extends (funcs_of types.old) (funcs_of types.new) }
{
    unmoved();
    let numbered = resource_at(resources, front)?;
    let place = push_resource_func(alloc, types, scope, numbered, func)?;
    let back = back_of(resource, func).clone()?;
    Ok(SharedItem {
        name: SharedName { front, back },
        desc: ItemDesc::Func(Placed::at(place)),
    })
}

/// Adds the type of a function, and answers the item.
fn push_func_item(
    alloc: Global,
    types: &mut Types,
    scope: &Scope<'_, '_>,
    name: &Label,
    func: &Func,
) -> Result<SharedItem, MeaningFault>
    requires placed { ArePlaced (length (types_of types.old)) scope.now.table.now }
    ensures item { IfOk result (λ i. (fronts : List Front)
        → slice_get fronts 0 ≡ Some front.Plain
        → member_item (scope_in (types_of types.old) scope.now)
        (spec.function name.now (func_tree func.now))
        ≡ Some (shared_item_of (types_of types.new) (funcs_of types.new) fronts i)) }
    ensures there { IfOk result (λ i. is_desc_there (length (types_of types.new))
        (length (funcs_of types.new)) i.desc ≡ true) }
    ensures within { IfOk result (λ i. AreWithin
        (desc_funcs (desc_of (types_of types.new) (funcs_of types.new) i.desc))) }
    ensures fault { IfErr result (IsItemFault
        (member_item (scope_in (types_of types.old) scope.now)
        (spec.function name.now (func_tree func.now)))) }
    ensures grown { Extends (types_of types.old) (types_of types.new) }
    ensures funcs { Extends (funcs_of types.old) (funcs_of types.new) }
{
    unmoved();
    let place = push_func(alloc, types, scope, func)?;
    Ok(SharedItem {
        name: plain_name(name)?,
        desc: ItemDesc::Func(Placed::at(place)),
    })
}

/// The item that a used type is.
fn used_item(scope: &Scope<'_, '_>, name: &Label) -> Result<SharedItem, MeaningFault>
    ensures item { IfOk result (λ i. (types : List Ty) (funcs : List FuncTy) (fronts : List Front)
        → AreOwn (scope_in types scope.now) → slice_get fronts 0 ≡ Some front.Plain
        → member_item (scope_in types scope.now) (spec.used name.now)
        ≡ Some (shared_item_of types funcs fronts i)) }
    ensures there { IfOk result (λ i. (types funcs : ℕ) → ArePlaced types scope.now.table.now
        → is_desc_there types funcs i.desc ≡ true) }
    ensures no_func { IfOk result (λ i. (types : List Ty) (funcs : List FuncTy) →
        desc_funcs (desc_of types funcs i.desc) ≡ []) }
    ensures fault { (types : List Ty) → IfErr result
        (IsItemFault (member_item (scope_in types scope.now) (spec.used name.now))) }
{
    let meaning = found(scope, name)?;
    Ok(SharedItem {
        name: plain_name(name)?,
        desc: used_desc(meaning),
    })
}

/// The item that a type is that is defined.
fn own_item(scope: &Scope<'_, '_>, name: &Label) -> Result<SharedItem, MeaningFault>
    ensures item { IfOk result (λ i. (types : List Ty) (funcs : List FuncTy) (fronts : List Front)
        → AreOwn (scope_in types scope.now) → slice_get fronts 0 ≡ Some front.Plain
        → member_item (scope_in types scope.now) (spec.declared name.now)
        ≡ Some (shared_item_of types funcs fronts i)) }
    ensures there { IfOk result (λ i. (types funcs : ℕ) → ArePlaced types scope.now.table.now
        → is_desc_there types funcs i.desc ≡ true) }
    ensures no_func { IfOk result (λ i. (types : List Ty) (funcs : List FuncTy) →
        desc_funcs (desc_of types funcs i.desc) ≡ []) }
    ensures fault { (types : List Ty) → IfErr result
        (IsItemFault (member_item (scope_in types scope.now) (spec.declared name.now))) }
{
    let meaning = found(scope, name)?;
    Ok(SharedItem {
        name: plain_name(name)?,
        desc: own_desc(meaning),
    })
}

/// Adds the types in a member, and answers the item.
fn push_item(
    alloc: Global,
    types: &mut Types,
    scope: &Scope<'_, '_>,
    resources: &[Option<ResourceId>],
    member: &Member<'_>,
) -> Result<SharedItem, MeaningFault>
    requires placed { ArePlaced (length (types_of types.old)) scope.now.table.now }
    requires own { AreOwn (scope_in (types_of types.old) scope.now) }
    requires resource { HasResource (scope_in (types_of types.old) scope.now)
        resources.now member.now }
    ensures item { IfOk result (λ i. (fronts : List Front)
        → slice_get fronts 0 ≡ Some front.Plain → IsFronted fronts member.now
        → member_item (scope_in (types_of types.old) scope.now) (member_view member.now)
        ≡ Some (shared_item_of (types_of types.new) (funcs_of types.new) fronts i)) }
    ensures there { IfOk result (λ i. is_desc_there (length (types_of types.new))
        (length (funcs_of types.new)) i.desc ≡ true) }
    ensures within { IfOk result (λ i. AreWithin
        (desc_funcs (desc_of (types_of types.new) (funcs_of types.new) i.desc))) }
    ensures fault { IfErr result (IsItemFault
        (member_item (scope_in (types_of types.old) scope.now) (member_view member.now))) }
    ensures grown { Extends (types_of types.old) (types_of types.new) }
    ensures funcs { Extends (funcs_of types.old) (funcs_of types.new) }
{
    match *member {
        Member::Used(name) => used_item(scope, name),
        Member::Declared(name) => own_item(scope, name),
        Member::OfResource {
            resource,
            func,
            front,
        } => push_resource_item(alloc, types, scope, resources, resource, func, front),
        Member::Function(name, func) => push_func_item(alloc, types, scope, name, func),
    }
}

/// Adds the types in members, and answers the items.
#[tactic(auto, using(crate::proofs::PushLaws::push_laws))]
fn push_members(
    alloc: Global,
    types: &mut Types,
    scope: &Scope<'_, '_>,
    members: Members<'_>,
) -> Result<SharedItems, MeaningFault>
    requires placed { ArePlaced (length (types_of types.old)) scope.now.table.now }
    requires own { AreOwn (scope_in (types_of types.old) scope.now) }
    requires fronted { AreFronted members.fronts.items members.list.items }
    ensures items { IfOk result (λ v.
        each_meaning (member_item (scope_in (types_of types.old) scope.now))
        (map member_view members.entry.list.items)
        ≡ Some (shared_items_of (types_of types.new) (funcs_of types.new) v)) }
    ensures there { IfOk result (λ v. are_shared_items_there (length (types_of types.new))
        (length (funcs_of types.new)) v.items.items ≡ true) }
    ensures within { IfOk result (λ v. AreWithin (flat_map item_funcs
        (shared_items_of (types_of types.new) (funcs_of types.new) v))) }
    ensures fault { IfErr result (AreItemsFault
        (each_meaning (member_item (scope_in (types_of types.old) scope.now))
        (map member_view members.entry.list.items))) }
    ensures grown { Extends (types_of types.old) (types_of types.new) }
    ensures funcs { Extends (funcs_of types.old) (funcs_of types.new) }
{
    let resources = front_resources(alloc, scope, &members.fronts)?;
    let mut items = Vec::new(alloc);
    for member in &members.list {
        let item = push_item(alloc, types, scope, &resources, member)?;
        if items.push(item).is_err() {
            return Err(MeaningFault::Memory);
        }
    }
    let Members { fronts, .. } = members;
    Ok(SharedItems { fronts, items })
}

/// Adds the types of the functions of an interface, and the types in them, and answers the items of
/// the instance that it stands for, in the order of its text (WIT.md, "Interfaces").
///
/// The names in it are looked up in the scope. `NoSuchType` comes where one stands for no type, or
/// that of a borrow or of a resource for no resource; `TooLarge` where the type of a function is
/// not within the limits; `NotSpellable` where no file could spell a type in one; and `Memory`
/// where there is no memory. Then some of the types in it may have been added; earlier types, and
/// those of functions, stay as they are. The names of a resource's functions share what stands in
/// front of their labels. It costs the text's own length and a look-up for each of its names; that
/// of a resource is looked up as often as there are kinds of its functions, not once for each.
pub fn push_items(
    alloc: Global,
    types: &mut Types,
    scope: &Scope<'_, '_>,
    interface: &Interface,
) -> Result<SharedItems, MeaningFault>
    requires placed { ArePlaced (length (types_of types.old)) scope.now.table.now }
    requires own { AreOwn (scope_in (types_of types.old) scope.now) }
    ensures items { IfOk result (λ v. items_in (scope_in (types_of types.old) scope.now)
        (interface_tree interface.now)
        ≡ Some (shared_items_of (types_of types.new) (funcs_of types.new) v)) }
    ensures there { IfOk result (λ v. are_shared_items_there (length (types_of types.new))
        (length (funcs_of types.new)) v.items.items ≡ true) }
    ensures within { IfOk result (λ v. AreWithin (flat_map item_funcs
        (shared_items_of (types_of types.new) (funcs_of types.new) v))) }
    ensures fault { IfErr result (AreItemsFault
        (items_in (scope_in (types_of types.old) scope.now) (interface_tree interface.now))) }
    ensures grown { Extends (types_of types.old) (types_of types.new) }
    ensures funcs { Extends (funcs_of types.old) (funcs_of types.new) }
{
    let members = interface_members(alloc, interface)?;
    push_members(alloc, types, scope, members)
}
