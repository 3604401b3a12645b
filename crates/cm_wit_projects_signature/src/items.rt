//! The items of instances.

ghost use Rattle.std.specs.Prelude.{length};
ghost use Rattle.cm_types_arena.specs.Places.{types_of};
ghost use Rattle.cm_wit_meanings.specs.Places.{ArePlaced};

use cm_types::{Label, ResourceId};
use cm_types_arena::{Front, ItemDesc, Placed, SharedItem, SharedItems, SharedName, Types};
use cm_wit_meanings::{Meaning, MeaningFault, Scope as Lookup, push_func, push_resource_func};
use cm_wit_projects_names::{Entry, Scope, What, alias_of, put};
use cm_wit_projects_reading::{Kept, ResourceItem, TypeItem};
use cm_wit_reading::{Func, ResourceFunc, Use};
use cm_wit_signature::item_laws::tables_stay;
use std::alloc::{AllocError, Global};

/// The items of an instance while they are made.
#[derive(Drop)]
struct Made {
    fronts: Vec<Front>,
    items: Vec<SharedItem>,
    /// The last resource, and the number of the first front of the names of its functions.
    resource: Option<ResourceId>,
    first: usize,
}

/// What a name stands for.
fn found(lookup: &Lookup<'_, '_>, name: &Label) -> Result<Meaning, MeaningFault> {
    match lookup.find(name.as_str()) {
        Some(meaning) => Ok(meaning),
        None => Err(MeaningFault::NoSuchType),
    }
}

/// A type that is another one: equal to it.
fn same_desc(meaning: Meaning) -> ItemDesc {
    match meaning {
        Meaning::Value(place) => ItemDesc::EqualType(Placed::at(place)),
        Meaning::Resource(resource) => ItemDesc::EqualResource(resource.number),
    }
}

/// A type that is declared: a resource is one of its own.
fn own_desc(meaning: Meaning) -> ItemDesc {
    match meaning {
        Meaning::Value(place) => ItemDesc::EqualType(Placed::at(place)),
        Meaning::Resource(resource) => ItemDesc::FreshResource(resource.number),
    }
}

/// Adds an item whose name has the front of this number.
fn add(
    out: &mut Vec<SharedItem>,
    front: usize,
    name: &Label,
    desc: ItemDesc,
) -> Result<(), AllocError> {
    let back = name.clone()?;
    put(
        out,
        SharedItem {
            name: SharedName { front, back },
            desc,
        },
    )
}

/// Adds types that are used.
fn add_used(made: &mut Made, lookup: &Lookup<'_, '_>, used: &Use) -> Result<(), MeaningFault> {
    for name in &used.names {
        let given = match &name.new_name {
            Some(new_name) => new_name,
            None => &name.name,
        };
        let desc = same_desc(found(lookup, given)?);
        add(&mut made.items, 0, given, desc)?;
    }
    Ok(())
}

/// Adds the fronts of the names of a resource's functions.
fn add_fronts(made: &mut Made, name: &Label) -> Result<(), AllocError> {
    made.first = made.fronts.len();
    put(&mut made.fronts, Front::Method(name.clone()?))?;
    put(&mut made.fronts, Front::Static(name.clone()?))?;
    put(&mut made.fronts, Front::Constructor(name.clone()?))
}

/// Adds a type that is declared.
fn add_type(
    made: &mut Made,
    lookup: &Lookup<'_, '_>,
    name: &Label,
    item: &TypeItem,
) -> Result<(), MeaningFault> {
    let meaning = found(lookup, name)?;
    if alias_of(item).is_some() {
        add(&mut made.items, 0, name, same_desc(meaning))?;
        return Ok(());
    }
    if let Meaning::Resource(resource) = meaning {
        made.resource = Some(resource);
        add_fronts(made, name)?;
    }
    add(&mut made.items, 0, name, own_desc(meaning))?;
    Ok(())
}

/// The number of the front of a function's name behind the first of its resource, and the label
/// behind it: for a constructor that of the resource stands for it.
fn front_of<'a>(resource: &'a Label, func: &'a ResourceFunc) -> (usize, &'a Label) {
    match func {
        ResourceFunc::Method(name, _) => (0, name),
        ResourceFunc::Static(name, _) => (1, name),
        ResourceFunc::Constructor(_) => (2, resource),
    }
}

/// Adds a function of the last resource.
fn add_method(
    alloc: Global,
    types: &mut Types,
    made: &mut Made,
    lookup: &Lookup<'_, '_>,
    resource: &Label,
    func: &ResourceFunc,
) -> Result<(), MeaningFault>
    requires placed { ArePlaced (length (types_of types.old)) lookup.now.table.now }
    ensures placed { ArePlaced (length (types_of types.new)) lookup.now.table.now }
{
    tables_stay();
    let Some(id) = made.resource else {
        return Err(MeaningFault::NoSuchType);
    };
    let place = push_resource_func(alloc, types, lookup, id, func)?;
    let (behind, name) = front_of(resource, func);
    let front = made.first.saturating_add(behind);
    add(
        &mut made.items,
        front,
        name,
        ItemDesc::Func(Placed::at(place)),
    )?;
    Ok(())
}

/// Adds a function.
fn add_func(
    alloc: Global,
    types: &mut Types,
    made: &mut Made,
    lookup: &Lookup<'_, '_>,
    name: &Label,
    func: &Func,
) -> Result<(), MeaningFault>
    requires placed { ArePlaced (length (types_of types.old)) lookup.now.table.now }
    ensures placed { ArePlaced (length (types_of types.new)) lookup.now.table.now }
{
    tables_stay();
    let place = push_func(alloc, types, lookup, func)?;
    add(&mut made.items, 0, name, ItemDesc::Func(Placed::at(place)))?;
    Ok(())
}

/// Adds what an item has.
fn add_entry(
    alloc: Global,
    types: &mut Types,
    made: &mut Made,
    lookup: &Lookup<'_, '_>,
    entry: &Entry<'_>,
) -> Result<(), MeaningFault>
    requires placed { ArePlaced (length (types_of types.old)) lookup.now.table.now }
    ensures placed { ArePlaced (length (types_of types.new)) lookup.now.table.now }
{
    match entry.what {
        What::Use(used) => add_used(made, lookup, used),
        What::Type(name, item) => add_type(made, lookup, name, item),
        What::Method(resource, ResourceItem::Read(func)) => {
            add_method(alloc, types, made, lookup, resource, func)
        }
        What::Func(name, Kept::Read(func)) => add_func(alloc, types, made, lookup, name, func),
        _ => Ok(()),
    }
}

/// Adds what items have that are there.
fn add_entries(
    alloc: Global,
    types: &mut Types,
    made: &mut Made,
    lookup: &Lookup<'_, '_>,
    entries: &[Entry<'_>],
) -> Result<(), MeaningFault>
    requires placed { ArePlaced (length (types_of types.old)) lookup.now.table.now }
    ensures placed { ArePlaced (length (types_of types.new)) lookup.now.table.now }
{
    for entry in entries {
        if entry.there {
            add_entry(alloc, types, made, lookup, entry)?;
        }
    }
    Ok(())
}

/// Adds the types of the functions of an interface, and answers the items of the instance that it
/// stands for, in the order of its text (WIT.md, "Interfaces"). Faults are those of `push_func` of
/// `cm_wit_meanings`.
pub fn push_items(
    alloc: Global,
    types: &mut Types,
    lookup: &Lookup<'_, '_>,
    scope: &Scope<'_>,
) -> Result<SharedItems, MeaningFault>
    requires placed { ArePlaced (length (types_of types.old)) lookup.now.table.now }
    ensures placed { ArePlaced (length (types_of types.new)) lookup.now.table.now }
{
    let mut made = Made {
        fronts: Vec::new(alloc),
        items: Vec::new(alloc),
        resource: None,
        first: 0,
    };
    put(&mut made.fronts, Front::Plain)?;
    add_entries(alloc, types, &mut made, lookup, &scope.entries)?;
    let Made { fronts, items, .. } = made;
    Ok(SharedItems { fronts, items })
}
