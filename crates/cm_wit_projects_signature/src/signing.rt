//! The signatures of worlds.

ghost use Rattle.std.specs.Prelude.{length};
ghost use Rattle.cm_types_arena.specs.Places.{types_of};
ghost use Rattle.cm_wit_meanings.specs.Places.{ArePlaced};

use crate::declaring::declarations_of;
use crate::externs::{Parts, push_externs};
use crate::fault::{SignatureFault, fault_of_meaning, fault_of_table};
use crate::lists::Lists;
use crate::there::are_externs_there;
use cm_types_arena::{Externs, SharedExterns, Signature, Types};
use cm_wit_meanings::MeaningFault;
use cm_wit_projects::{ResolveFault, Unit};
use cm_wit_projects_names::{Names, Project, Spot, fault_of};
use cm_wit_projects_worlds::{World, find_world, world_at};
use cm_wit_reading::TypeDef;
use cm_wit_tables::{Declaration, table_of};
use cm_wit_tokens::WitReason;
use std::alloc::Global;

/// The signature of imports and exports that stand in an arena.
fn signed(
    types: Types,
    imports: SharedExterns,
    exports: SharedExterns,
) -> Result<Signature, SignatureFault> {
    let (all, funcs) = (types.len(), types.func_count());
    if !are_externs_there(all, funcs, &imports.externs) {
        return Err(SignatureFault::NoSuchType);
    }
    if !are_externs_there(all, funcs, &exports.externs) {
        return Err(SignatureFault::NoSuchType);
    }
    Ok(Signature::new(types, Externs::OfWorld(imports), Externs::OfWorld(exports)))
}

/// The imports and the exports of a world, whose types are added.
fn both_sides(
    alloc: Global,
    types: &mut Types,
    parts: &Parts<'_, '_>,
    world: &World<'_>,
) -> Result<(SharedExterns, SharedExterns), MeaningFault>
    requires placed { ArePlaced (length (types_of types.old)) parts.now.table.now.meanings.items }
    ensures placed { ArePlaced (length (types_of types.new)) parts.now.table.now.meanings.items }
{
    let imports = push_externs(alloc, types, parts, false, &world.imports)?;
    let exports = push_externs(alloc, types, parts, true, &world.exports)?;
    Ok((imports, exports))
}

/// The signature of a world whose scopes declare these types.
fn tabled<'a>(
    alloc: Global,
    units: &[Unit<'a>],
    names: &Names<'a>,
    lists: &Lists,
    world: &World<'a>,
    declarations: &[Declaration<'a>],
) -> Result<Signature, SignatureFault> {
    let mut types = Types::new(alloc)?;
    let table = match table_of(alloc, &mut types, declarations) {
        Ok(table) => table,
        Err(fault) => return Err(fault_of_table(fault)),
    };
    let parts = Parts {
        units,
        names,
        lists,
        table: &table,
    };
    match both_sides(alloc, &mut types, &parts, world) {
        Ok((imports, exports)) => signed(types, imports, exports),
        Err(fault) => Err(fault_of_meaning(fault)),
    }
}

/// The signature of a world that imports and exports these.
fn signature_of<'a>(
    alloc: Global,
    units: &[Unit<'a>],
    names: &Names<'a>,
    world: &World<'a>,
    resource: &'a TypeDef,
) -> Result<Signature, SignatureFault> {
    let lists = Lists::of_world(alloc, world, names.scopes.len())?;
    let declarations = declarations_of(alloc, &names.scopes, &lists, resource)?;
    tabled(alloc, units, names, &lists, world, &declarations)
}

/// A place of a unit at which something is wrong, as a fault of a world.
fn fault_at(
    alloc: Global,
    project: &Project<'_>,
    units: &[Unit<'_>],
    spot: Spot,
) -> SignatureFault {
    if spot.reason == WitReason::Memory {
        return SignatureFault::Memory;
    }
    let fault: ResolveFault = fault_of(alloc, project.groups(), units, spot);
    SignatureFault::At(fault)
}

/// The signature of the world of a name, among units of a project.
fn signature_in<'a>(
    alloc: Global,
    project: &Project<'_>,
    units: &[Unit<'a>],
    resource: &'a TypeDef,
    name: &str,
) -> Result<Signature, SignatureFault> {
    let names = match project.names(alloc, units) {
        Ok(names) => names,
        Err(spot) => return Err(fault_at(alloc, project, units, spot)),
    };
    let Some(number) = find_world(alloc, units, &names, name)? else {
        return Err(SignatureFault::NoSuchWorld);
    };
    match world_at(alloc, &names, number) {
        Ok(world) => signature_of(alloc, units, &names, &world, resource),
        Err(spot) => Err(fault_at(alloc, project, units, spot)),
    }
}

/// The signature of a world of a project by its full name (`namespace:package/world`, with
/// `@version` where the package has one), or by its name alone in the project's own package
/// (WIT.md, "Worlds"). A type that is declared to be what another name stands for is that type,
/// also where it is a resource.
///
/// `NoSuchWorld` comes where there is no such world, or gates take it away; `At` where its includes
/// do not fit together, or it has a resource of its own (`cm_wit_projects_worlds`), at a byte of a
/// file; `TooLarge` where a type, or the parameters or the result of a function, would have more
/// than 10,000 nodes or be more than 64 deep; and `Memory`. It takes time and memory linear in the
/// project, with a look-up for each name, but for a chain of includes, which takes its length times
/// the items that it brings.
pub fn project_signature(
    alloc: Global,
    project: &Project<'_>,
    name: &str,
) -> Result<Signature, SignatureFault> {
    let resource = TypeDef::Resource(Vec::new(alloc));
    signature_with(alloc, &*project, &resource, name)
}

/// The same, where this is what a resource is declared to be.
fn signature_with<'a>(
    alloc: Global,
    project: &'a Project<'_>,
    resource: &'a TypeDef,
    name: &str,
) -> Result<Signature, SignatureFault> {
    let units = project.units(alloc)?;
    signature_in(alloc, project, &units, resource, name)
}
