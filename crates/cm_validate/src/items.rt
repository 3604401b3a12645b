//! The items of the instances that a component exports.

ghost use Rattle.std.specs.Prelude.{◌≡◌, ℕ, IfOk, List, map, true};
ghost use Rattle.cm_types.specs.Types.{FuncTy, Ty};
ghost use Rattle.cm_types_arena.specs.Instances.{are_items_there, items_of};
ghost use Rattle.cm_validate_core.specs.NameMaps.{entries_of};
ghost use Rattle.cm_validate_model.specs.Spaces.{items_of_members};
ghost use Rattle.cm_validate_entries.specs.Entries.{are_members_there, members_of};
ghost use Rattle.cm_validate.specs.Items.{func_place, member_desc, member_item};
ghost use Rattle.cm_validate.specs.Items.{moved_desc, moved_item};

use cm_types::ExternName;
use cm_types_arena::{Item, ItemDesc, Move, Placed};
use cm_validate_core::NameMap;
use cm_validate_entries::{FuncEntry, InstanceEntry, MemberEntry, moved_number, moved_place};
use std::alloc::{AllocError, Global};

/// The place of the type of a function.
pub(crate) fn func_place(func: FuncEntry<'_>) -> Placed
    ensures { result ≡ func_place func.entry }
{
    match func {
        FuncEntry::Lifted { ty, .. } | FuncEntry::Imported { ty, .. } => ty,
    }
}

/// The item that a member is: a type that it has is equal to the one of the component.
fn member_desc(member: MemberEntry<'_>) -> ItemDesc
    ensures { result ≡ member_desc member.entry }
{
    match member {
        MemberEntry::Func(func) => ItemDesc::Func(func_place(func)),
        MemberEntry::Value(ty) => ItemDesc::EqualType(ty),
        MemberEntry::Resource(number) => ItemDesc::EqualResource(number),
    }
}

/// The item under a name.
fn named_item(alloc: Global, name: &str, member: MemberEntry<'_>) -> Result<Item, AllocError>
    ensures { IfOk result (λ i. i ≡ record { name = name.now; desc = member_desc member.entry }) }
{
    // The names of inline exports are extern names, so what is refused is memory.
    let name = ExternName::parse(alloc, name).map_err(|_| AllocError)?;
    let desc = member_desc(member);
    Ok(Item { name, desc })
}

/// The items that definitions under names are.
fn member_items<'a>(
    alloc: Global,
    members: &NameMap<'a, MemberEntry<'a>>,
) -> Result<Vec<Item>, AllocError>
    ensures { IfOk result (λ items. items.items ≡ map member_item (entries_of members.now)) }
{
    let mut items = Vec::with_capacity(alloc, members.len())?;
    for number in 0..members.len() {
        if let Some((name, member)) = members.at(number) {
            items.push(named_item(alloc, name, *member)?)?;
        }
    }
    Ok(items)
}

/// The item that an item of an imported instance is for the component: a resource that the import
/// brings is one that it has.
fn moved_desc(by: Move, desc: ItemDesc) -> ItemDesc
    ensures { result ≡ moved_desc by desc }
{
    match desc {
        ItemDesc::Func(ty) => ItemDesc::Func(moved_place(by, ty)),
        ItemDesc::EqualType(ty) => ItemDesc::EqualType(moved_place(by, ty)),
        ItemDesc::EqualResource(number) | ItemDesc::FreshResource(number) => {
            ItemDesc::EqualResource(moved_number(by, number))
        }
    }
}

/// The items of such an instance, each as the component has it.
fn moved_items(alloc: Global, by: Move, items: &[Item]) -> Result<Vec<Item>, AllocError>
    ensures { IfOk result (λ moved. moved.items ≡ map (moved_item by) items.now) }
{
    let mut moved = Vec::with_capacity(alloc, items.len())?;
    for item in items {
        let name = item.name.clone()?;
        let desc = moved_desc(by, item.desc);
        moved.push(Item { name, desc })?;
    }
    Ok(moved)
}

/// The items of an instance that is exported.
pub(crate) fn instance_items(
    alloc: Global,
    instance: &InstanceEntry<'_>,
) -> Result<Vec<Item>, AllocError>
    ensures are { IfOk result (λ items. (types : List Ty) (funcs : List FuncTy)
        → items_of types funcs items.items
        ≡ items_of_members (members_of types funcs instance.now)) }
    ensures there { IfOk result (λ items. (types funcs : ℕ)
        → are_members_there types funcs instance.now ≡ true
        → are_items_there types funcs items.items ≡ true) }
{
    match instance {
        InstanceEntry::Imported { items, by, .. } => moved_items(alloc, *by, &items.ty().items),
        InstanceEntry::Exporting(members) => member_items(alloc, members),
    }
}
