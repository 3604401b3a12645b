//! Imports and exports.

ghost use Rattle.std.specs.Prelude.{length};
ghost use Rattle.cm_types_arena.specs.Places.{types_of};
ghost use Rattle.cm_wit_meanings.specs.Places.{ArePlaced};

use crate::items::push_items;
use crate::lists::Lists;
use cm_types::Label;
use cm_types_arena::{
    Front, PackageName, Placed, SharedDesc, SharedExtern, SharedExterns, SharedName, Types,
};
use cm_wit_meanings::{MeaningFault, push_func};
use cm_wit_projects::{Declared, Unit};
use cm_wit_projects_names::{Names, What, put};
use cm_wit_projects_reading::Kept;
use cm_wit_projects_worlds::{Item, Thing};
use cm_wit_reading::Func;
use cm_wit_signature::item_laws::tables_stay;
use cm_wit_tables::Table;
use std::alloc::{AllocError, Global};

/// What imports and exports are made of.
#[derive(Clone, Copy)]
pub struct Parts<'p, 'a> {
    pub units: &'p [Unit<'a>],
    pub names: &'p Names<'a>,
    pub lists: &'p Lists,
    pub table: &'p Table<'a>,
}

/// The front of the names of a unit's interfaces.
fn unit_front(alloc: Global, unit: &Unit<'_>) -> Result<Front, AllocError> {
    let name = unit.name;
    let version = match &name.version {
        Some(version) => Some(version.as_str()),
        None => None,
    };
    let package = PackageName::new(alloc, &name.namespace, &name.name, version)?;
    Ok(Front::Interface(package))
}

/// The front of names that are labels alone, and behind it those of the names of each unit's
/// interfaces.
fn fronts_of(alloc: Global, units: &[Unit<'_>]) -> Result<Vec<Front>, AllocError> {
    let mut fronts = Vec::new(alloc);
    put(&mut fronts, Front::Plain)?;
    for unit in units {
        put(&mut fronts, unit_front(alloc, unit)?)?;
    }
    Ok(fronts)
}

/// The name of an import or an export: of an interface, behind the front of its unit.
fn name_of(item: &Item<'_>, declared: Option<&Declared<'_>>) -> Result<SharedName, MeaningFault> {
    match (item.name, declared) {
        (Some(name), _) => Ok(SharedName {
            front: 0,
            back: name.clone()?,
        }),
        (None, Some(declared)) => Ok(SharedName {
            front: declared.unit.saturating_add(1),
            back: declared.body.name().clone()?,
        }),
        (None, None) => Err(MeaningFault::NoSuchType),
    }
}

/// The name of an import or an export of a world.
fn named(parts: &Parts<'_, '_>, item: &Item<'_>) -> Result<SharedName, MeaningFault> {
    let declared = match item.thing {
        Thing::Interface(number) => parts.names.directory.declared.get(number),
        Thing::Inner(_) | Thing::Func(..) | Thing::Type => None,
    };
    name_of(item, declared)
}

/// The text of a function of a world, by its place there.
fn func_at<'a>(parts: &Parts<'_, 'a>, world: usize, place: usize) -> Option<&'a Func> {
    let scope = parts.names.scopes.get(world)?;
    let entry = scope.entries.get(place)?;
    match entry.what {
        What::Func(_, Kept::Read(func)) => Some(func),
        _ => None,
    }
}

/// Adds the types of a function of a world.
fn push_own(
    alloc: Global,
    types: &mut Types,
    parts: &Parts<'_, '_>,
    world: usize,
    place: usize,
) -> Result<SharedDesc, MeaningFault>
    requires placed { ArePlaced (length (types_of types.old)) parts.now.table.now.meanings.items }
    ensures placed { ArePlaced (length (types_of types.new)) parts.now.table.now.meanings.items }
{
    tables_stay();
    match (func_at(parts, world, place), parts.lists.at(world, false)) {
        (Some(func), Some(list)) => {
            let place = push_func(alloc, types, &parts.table.scope(list), func)?;
            Ok(SharedDesc::Func(Placed::at(place)))
        }
        _ => Err(MeaningFault::NoSuchType),
    }
}

/// Adds the types of an instance.
fn push_instance(
    alloc: Global,
    types: &mut Types,
    parts: &Parts<'_, '_>,
    list: Option<usize>,
    number: usize,
) -> Result<SharedDesc, MeaningFault>
    requires placed { ArePlaced (length (types_of types.old)) parts.now.table.now.meanings.items }
    ensures placed { ArePlaced (length (types_of types.new)) parts.now.table.now.meanings.items }
{
    match (parts.names.scopes.get(number), list) {
        (Some(scope), Some(list)) => {
            let items = push_items(alloc, types, &parts.table.scope(list), scope)?;
            Ok(SharedDesc::Instance(items))
        }
        _ => Err(MeaningFault::NoSuchType),
    }
}

/// Adds the types of an import or an export; a type that a world has by name is none.
fn push_desc(
    alloc: Global,
    types: &mut Types,
    parts: &Parts<'_, '_>,
    list: Option<usize>,
    thing: Thing,
) -> Result<Option<SharedDesc>, MeaningFault>
    requires placed { ArePlaced (length (types_of types.old)) parts.now.table.now.meanings.items }
    ensures placed { ArePlaced (length (types_of types.new)) parts.now.table.now.meanings.items }
{
    match thing {
        Thing::Interface(number) => { Ok(Some(push_instance(alloc, types, parts, list, number)?)) }
        Thing::Inner(scope) => Ok(Some(push_instance(alloc, types, parts, list, scope)?)),
        Thing::Func(world, place) => Ok(Some(push_own(alloc, types, parts, world, place)?)),
        Thing::Type => Ok(None),
    }
}

/// Adds an import or an export.
fn push_extern(
    alloc: Global,
    types: &mut Types,
    parts: &Parts<'_, '_>,
    list: Option<usize>,
    item: &Item<'_>,
    out: &mut Vec<SharedExtern>,
) -> Result<(), MeaningFault>
    requires placed { ArePlaced (length (types_of types.old)) parts.now.table.now.meanings.items }
    ensures placed { ArePlaced (length (types_of types.new)) parts.now.table.now.meanings.items }
{
    if let Some(desc) = push_desc(alloc, types, parts, list, item.thing)? {
        let name = named(parts, item)?;
        put(out, SharedExtern { name, desc })?;
    }
    Ok(())
}

/// Adds the types of imports or exports, and answers these, in order. Faults are those of
/// `push_func` of `cm_wit_meanings`.
pub fn push_externs(
    alloc: Global,
    types: &mut Types,
    parts: &Parts<'_, '_>,
    exported: bool,
    items: &[Item<'_>],
) -> Result<SharedExterns, MeaningFault>
    requires placed { ArePlaced (length (types_of types.old)) parts.now.table.now.meanings.items }
    ensures placed { ArePlaced (length (types_of types.new)) parts.now.table.now.meanings.items }
{
    let fronts = fronts_of(alloc, parts.units)?;
    let mut externs = Vec::new(alloc);
    for (place, item) in items.iter().enumerate() {
        let list = parts.lists.of_item(place, exported);
        push_extern(alloc, types, parts, list, item, &mut externs)?;
    }
    Ok(SharedExterns { fronts, externs })
}
