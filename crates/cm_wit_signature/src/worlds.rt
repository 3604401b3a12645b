//! The signatures of worlds by their full names.

ghost use Rattle.std.specs.Prelude.{◌≡◌, ℕ, List, Some, IfOk, IfErr, map};
ghost use Rattle.std.specs.String.{string_bytes};
ghost use Rattle.cm_types_arena.specs.Signatures.{signature_of};
ghost use Rattle.cm_wit_package.specs.PackageViews.{package_tree};
ghost use Rattle.cm_wit_worlds.specs.Interfaces as spec;
ghost use Rattle.cm_wit_worlds.specs.Interfaces.{package_name};
ghost use Rattle.cm_wit_worlds.specs.InterfaceViews.{files_of, placed_interface, placed_world};
ghost use Rattle.cm_wit_signature.specs.Faults.{IsFaultIn, IsFaultOfWorld};
ghost use Rattle.cm_wit_signature.specs.Faults.{IsWorldSignature, world_of};

use crate::signing::signature_in_order;
use crate::{cycle_fault, package_files};
use cm_types_arena::Signature;
use cm_wit_package::Package;
use cm_wit_worlds::{
    Directory, PlacedInterface, PlacedWorld, WorldFault, externs_of, interfaces, package_names,
    worlds,
};
use std::alloc::Global;

/// The signature of a world of the packages of a directory, whose interfaces are these.
fn signature_of_placed<'a>(
    alloc: Global,
    directory: &Directory<'a>,
    interfaces: &[PlacedInterface<'a>],
    world: &PlacedWorld<'a>,
) -> Result<Signature, WorldFault>
    requires { map placed_interface interfaces.now
        ≡ spec.interfaces (files_of directory.now.files.items) }
    ensures signature { IfOk result (λ s. (name : List ℕ)
        → world_of (files_of directory.now.files.items) name ≡ Some (placed_world world.now)
        → IsWorldSignature (files_of directory.now.files.items) name (signature_of s)) }
    ensures fault { IfErr result
        (IsFaultIn (files_of directory.now.files.items) (placed_world world.now)) }
{
    match externs_of(alloc, directory, interfaces, world) {
        Ok(externs) => signature_in_order(alloc, directory, interfaces, world, &externs),
        Err(WorldFault::Cycle) => Err(cycle_fault(alloc, directory, interfaces, world)),
        Err(fault) => Err(fault),
    }
}

/// The signature of the world of a full name, of the packages of a directory, whose interfaces are
/// these.
///
/// Faults come, and time is taken, as by `world_signature`.
pub fn signature_of_world<'a>(
    alloc: Global,
    directory: &Directory<'a>,
    interfaces: &[PlacedInterface<'a>],
    name: &str,
) -> Result<Signature, WorldFault>
    requires { map placed_interface interfaces.now
        ≡ spec.interfaces (files_of directory.now.files.items) }
    ensures signature { IfOk result (λ s.
        IsWorldSignature (files_of directory.now.files.items) name.now (signature_of s)) }
    ensures fault { IfErr result
        (IsFaultOfWorld (files_of directory.now.files.items) name.now) }
{
    let worlds = worlds(alloc, &directory.files)?;
    let Some(number) = directory.world_at(alloc, &worlds, name)? else {
        return Err(WorldFault::NoSuchWorld);
    };
    match worlds.get(number) {
        Some(world) => signature_of_placed(alloc, directory, interfaces, world),
        None => Err(WorldFault::NoSuchWorld),
    }
}

/// The signature of the world of a full name, among packages with these names.
fn signature_of_named<'a>(
    alloc: Global,
    packages: &'a [Package],
    names: &'a [String],
    name: &str,
) -> Result<Signature, WorldFault>
    requires { map string_bytes names.now ≡ map package_name (map package_tree packages.now) }
    ensures signature { IfOk result (λ s.
        IsWorldSignature (map package_tree packages.now) name.now (signature_of s)) }
    ensures fault { IfErr result (IsFaultOfWorld (map package_tree packages.now) name.now) }
{
    let files = package_files(alloc, packages)?;
    let interfaces = interfaces(alloc, &files)?;
    let directory = Directory::new(alloc, files, names, &interfaces)?;
    signature_of_world(alloc, &directory, &interfaces, name)
}

/// The signature of the world of a full name (`namespace:package/world`, with `@version` where the
/// package has one) among packages (WIT.md, "Worlds").
///
/// Its imports are those of the world's text, in order, each behind the interfaces that it uses and
/// that are not there yet, and then what its exports use that the world does not export. Of several
/// packages of one name and version the first counts. `NoSuchWorld` comes where there is no such
/// world, else `NoSuchInterface` where a path in the world, or in an interface that it reaches,
/// leads to no interface, else `NoSuchType` where a name in what it reaches leads to no type, or
/// that of a borrow to no resource, else `Cycle` where a type or an interface that it reaches uses
/// itself, else `TooLarge` where a type, or the parameters or the result of a function, would have
/// more than 10,000 nodes or be more than 64 deep; and `Memory` where memory is refused. It takes
/// time and memory linear in the packages, with a look-up for each name.
pub fn world_signature(
    alloc: Global,
    packages: &[Package],
    name: &str,
) -> Result<Signature, WorldFault>
    ensures signature { IfOk result (λ s.
        IsWorldSignature (map package_tree packages.now) name.now (signature_of s)) }
    ensures fault { IfErr result (IsFaultOfWorld (map package_tree packages.now) name.now) }
{
    let names = package_names(alloc, &package_files(alloc, packages)?)?;
    signature_of_named(alloc, packages, &names, name)
}
