//! Whether the names in instances, and in the functions of a world itself, lead to types.

ghost use Rattle.std.specs.Prelude.{◌≡◌, ◌↔◌, ◌&&◌, IfOk, IsTrue, List, length, map};
ghost use Rattle.std.specs.Prelude.{slice_get};
ghost use Rattle.std.specs.List.{list_all};
ghost use Rattle.cm_names.specs.Listed.{listed};
ghost use Rattle.cm_wit_reading.specs.Views.{extern_tree, world_item_tree};
ghost use Rattle.cm_wit_reading.specs.Trees.{File};
ghost use Rattle.cm_wit_worlds.specs.Interfaces as spec;
ghost use Rattle.cm_wit_worlds.specs.InterfaceViews.{placed_interface, placed_world};
ghost use Rattle.cm_wit_tables.specs.DeclaredViews.{declaration_view, instance_view};
ghost use Rattle.cm_wit_signature.specs.Named.{InstancesHaveTypes, OwnFuncsHaveTypes};
ghost use Rattle.cm_wit_signature.specs.Tests as test;

use crate::led_interfaces::interface_led;
use crate::texts::{Names, func_led};
use cm_names::Keys;
use cm_wit_reading::{WorldExtern, WorldItem};
use cm_wit_tables::{Declaration, Instance, declaration_keys, resource_marks};
use cm_wit_worlds::{PlacedInterface, PlacedWorld};
use std::alloc::{AllocError, Global};

fn extern_led(names: Names<'_, '_>, what: &WorldExtern) -> bool
    ensures { result ≡ test.extern_led (listed names.entry.keys.now) names.entry.marks.now
        names.entry.list (extern_tree what.now) }
{
    match what {
        WorldExtern::Interface(_) => true,
        WorldExtern::Func(_, func) => func_led(names, func),
    }
}

fn item_led(names: Names<'_, '_>, item: &WorldItem) -> bool
    ensures { result ≡ test.item_led (listed names.entry.keys.now) names.entry.marks.now
        names.entry.list (world_item_tree item.now) }
{
    match item {
        WorldItem::Import(what) => extern_led(names, what),
        WorldItem::Export(what) => extern_led(names, what),
    }
}

#[tactic(auto, using(crate::proofs::RestLaws::rest_laws))]
fn items_led(names: Names<'_, '_>, items: &[WorldItem]) -> bool
    ensures { result ≡ list_all (test.item_led (listed names.entry.keys.now)
        names.entry.marks.now names.entry.list) (map world_item_tree items.now) }
{
    for item in items {
        if !item_led(names, item) {
            return false;
        }
    }
    true
}

/// Whether each name in an instance leads to a type, whose list of names has this number.
fn instance_led(
    alloc: Global,
    names: Names<'_, '_>,
    interfaces: &[PlacedInterface<'_>],
    instance: &Instance,
) -> Result<bool, AllocError>
    ensures { IfOk result (λ b. b ≡ test.interface_led (listed names.entry.keys.now)
        names.entry.marks.now names.entry.list
        (slice_get (map placed_interface interfaces.now) (instance_view instance.now).interface)) }
{
    match interfaces.get(instance.interface) {
        Some(placed) => interface_led(alloc, names, placed.interface),
        None => Ok(true),
    }
}

/// Whether each name in instances leads to a type, whose lists of names have numbers from 0 on.
#[tactic(auto, using(crate::proofs::RestLaws::rest_laws))]
fn instances_led(
    alloc: Global,
    keys: &Keys<'_>,
    marks: &[bool],
    interfaces: &[PlacedInterface<'_>],
    instances: &[Instance],
) -> Result<bool, AllocError>
    ensures { IfOk result (λ b. b ≡ test.instances_led (map placed_interface interfaces.now)
        (listed keys.now) marks.now 0 (map instance_view instances.now)) }
{
    for (list, instance) in instances.iter().enumerate() {
        let names = Names { keys, marks, list };
        if !instance_led(alloc, names, interfaces, instance)? {
            return Ok(false);
        }
    }
    Ok(true)
}

fn both(a: bool, b: bool) -> bool
    ensures { result ≡ (a && b) }
{
    a && b
}

/// Whether each name in these instances, which declare this, and in the functions of the world
/// itself leads to a type, and that of a borrow or of a resource to a resource. It takes time
/// linear in the texts. Refused only where there is no memory.
pub fn members_have_types(
    alloc: Global,
    declarations: &[Declaration<'_>],
    interfaces: &[PlacedInterface<'_>],
    instances: &[Instance],
    world: &PlacedWorld<'_>,
) -> Result<bool, AllocError>
    ensures { IfOk result (λ b. (fs : List File)
        → map placed_interface interfaces.now ≡ spec.interfaces fs
        → IsTrue b ↔ (InstancesHaveTypes fs (map declaration_view declarations.now)
        (map instance_view instances.now)
        × OwnFuncsHaveTypes (placed_world world.now) (map declaration_view declarations.now)
        (length instances.now))) }
{
    let keys = declaration_keys(alloc, declarations)?;
    let marks = resource_marks(alloc, &keys, declarations)?;
    let instances_led = instances_led(alloc, &keys, &marks, interfaces, instances)?;
    let names = Names {
        keys: &keys,
        marks: &marks,
        list: instances.len(),
    };
    let items_led = items_led(names, &world.world.items);
    Ok(both(instances_led, items_led))
}
