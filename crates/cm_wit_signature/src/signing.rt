//! The signature of a world whose names lead to types.

ghost use Rattle.std.specs.Prelude.{◌≡◌, ◌<◌, ◌^◌, ℕ, List, Some, IfOk, IfErr, length, map};
ghost use Rattle.cm_names.specs.Listed.{listed};
ghost use Rattle.cm_types_arena.specs.Signatures.{signature_of};
ghost use Rattle.cm_types_arena.specs.Places.{types_of};
ghost use Rattle.cm_wit_tables.specs.DeclaredViews.{declaration_view, instance_view};
ghost use Rattle.cm_wit_worlds.specs.Interfaces as spec;
ghost use Rattle.cm_wit_worlds.specs.InterfaceViews.{files_of, placed_interface, placed_world};
ghost use Rattle.cm_wit_signature.specs.ItemFaults.{AreWithin, IsFaultWith};
ghost use Rattle.cm_wit_meanings.specs.Places.{ArePlaced, table_in};
ghost use Rattle.cm_wit_meanings.specs.Scopes.{scope_at};
ghost use Rattle.cm_wit_signature.specs.Faults.{IsFaultIn, IsWorldSignature, world_of};
ghost use Rattle.cm_wit_signature.specs.Functions.{funcs_in};
ghost use Rattle.cm_wit_signature.specs.Own.{AreOwn};
ghost use Rattle.cm_wit_reading.specs.Trees.{File};
ghost use Rattle.cm_wit_worlds.specs.Worlds.{AreWorldExterns};
ghost use Rattle.cm_wit_signature.specs.Made.{signature_made};
ghost use Rattle.cm_wit_signature.specs.PackageFronts.{HavePackages};
ghost use Rattle.cm_wit_signature.specs.Typed.{IsTyped};

use crate::faults::{fault_of_meaning, fault_of_table};
use crate::laws::typing_faults_are_of_worlds;
use crate::signature_laws::{resources_are_own, typed_ones_have_signatures};
use crate::{Parts, Sources, WorldInstances, instances_of, signature_with, typed_declarations};
use cm_types_arena::{Signature, Types};
use cm_wit_meanings::MeaningFault;
use cm_wit_tables::{Declaration, Table, table_of};
use cm_wit_worlds::{Directory, PlacedInterface, PlacedWorld, WorldExterns, WorldFault};
use std::alloc::Global;

/// The signature of a world with these instances, where names stand for what a table has.
fn made<'a>(
    alloc: Global,
    sources: &Sources<'_, 'a>,
    externs: &WorldExterns,
    instances: &WorldInstances,
    types: Types,
    table: &Table<'a>,
) -> Result<Signature, MeaningFault>
    requires placed { ArePlaced (length (types_of types)) table.now.meanings.items }
    requires own { (l : ℕ) → AreOwn (scope_at (listed table.now.names)
        (table_in (types_of types) table.now.meanings.items) l) }
    requires packages { HavePackages (files_of sources.now.files.now)
        (map placed_interface sources.now.interfaces.now) }
    requires few { instances.now.imported < 2 ^ 63 }
    ensures signature { IfOk result (λ s. signature_made
        (map placed_interface sources.now.interfaces.now) (placed_world sources.now.world.now)
        (listed table.now.names)
        (table_in (types_of types) table.now.meanings.items) (length instances.now.list.items)
        instances.now.imported externs.now.imports.items externs.now.exports.items
        ≡ Some (signature_of s)) }
    ensures within { IfOk result (λ s. AreWithin (funcs_in (signature_of s))) }
    ensures fault { IfErr result (IsFaultWith funcs_in
        (signature_made (map placed_interface sources.now.interfaces.now)
        (placed_world sources.now.world.now) (listed table.now.names)
        (table_in (types_of types) table.now.meanings.items) (length instances.now.list.items)
        instances.now.imported externs.now.imports.items externs.now.exports.items)) }
{
    let parts = Parts {
        sources: *sources,
        names: &table.names,
        table: &table.meanings,
        own: instances.list.len(),
    };
    let first = instances.imported;
    signature_with(
        alloc,
        types,
        &parts,
        &externs.imports,
        first,
        &externs.exports,
    )
}

/// The signature of a world whose instances declare this, where each name leads to a type.
fn tabled<'a>(
    alloc: Global,
    sources: &Sources<'_, 'a>,
    externs: &WorldExterns,
    instances: &WorldInstances,
    declarations: &[Declaration<'a>],
) -> Result<Signature, WorldFault>
    requires packages { HavePackages (files_of sources.now.files.now)
        (map placed_interface sources.now.interfaces.now) }
    requires few { instances.now.imported < 2 ^ 63 }
    ensures signature { IfOk result (λ s. (fs : List File) (name : List ℕ)
        → world_of fs name ≡ Some (placed_world sources.now.world.now)
        → IsTyped fs (placed_world sources.now.world.now)
        (map placed_interface sources.now.interfaces.now)
        externs.now.imports.items externs.now.exports.items
        (map instance_view instances.now.list.items) instances.now.imported
        (map declaration_view declarations.now)
        → IsWorldSignature fs name (signature_of s)) }
    ensures fault { IfErr result (λ f. (fs : List File)
        → IsTyped fs (placed_world sources.now.world.now)
        (map placed_interface sources.now.interfaces.now)
        externs.now.imports.items externs.now.exports.items
        (map instance_view instances.now.list.items) instances.now.imported
        (map declaration_view declarations.now)
        → IsFaultIn fs (placed_world sources.now.world.now) f) }
{
    resources_are_own();
    typed_ones_have_signatures();
    let mut types = Types::new(alloc)?;
    match table_of(alloc, &mut types, declarations) {
        Err(fault) => Err(fault_of_table(fault)),
        Ok(table) => match made(alloc, sources, externs, instances, types, &table) {
            Ok(signature) => Ok(signature),
            Err(fault) => Err(fault_of_meaning(fault)),
        },
    }
}

/// The signature of a world that imports and exports these, in order; else `NoSuchType` where a
/// name leads to no type, or that of a borrow to no resource, else `Cycle` where a type uses
/// itself, else `TooLarge`; or `Memory`.
pub fn signature_in_order<'a>(
    alloc: Global,
    directory: &Directory<'a>,
    interfaces: &[PlacedInterface<'a>],
    world: &PlacedWorld<'a>,
    externs: &WorldExterns,
) -> Result<Signature, WorldFault>
    requires interfaces { map placed_interface interfaces.now
        ≡ spec.interfaces (files_of directory.now.files.items) }
    requires externs { AreWorldExterns (files_of directory.now.files.items)
        (placed_world world.now) externs.now.imports.items externs.now.exports.items }
    ensures signature { IfOk result (λ s. (name : List ℕ)
        → world_of (files_of directory.now.files.items) name ≡ Some (placed_world world.now)
        → IsWorldSignature (files_of directory.now.files.items) name (signature_of s)) }
    ensures fault { IfErr result
        (IsFaultIn (files_of directory.now.files.items) (placed_world world.now)) }
{
    typing_faults_are_of_worlds();
    let count = interfaces.len();
    let instances = instances_of(alloc, count, &externs.imports, &externs.exports)?;
    let declarations = typed_declarations(alloc, directory, interfaces, world, &instances.list)?;
    let sources = Sources {
        files: &directory.files,
        interfaces,
        world,
    };
    tabled(alloc, &sources, externs, &instances, &declarations)
}
