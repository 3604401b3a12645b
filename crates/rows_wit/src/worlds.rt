//! What worlds import and export, as rows show it.

use cm_rows::Line;
use cm_wit_reading::{WorldExtern, WorldItem};
use cm_wit_worlds::{PlacedInterface, PlacedWorld, WorldExterns, WorldFault, full_name};
use std::alloc::Global;

/// Writes the fault of a world; want of memory is that of the row.
pub fn write_world_fault(line: &mut Line, fault: WorldFault) {
    line.fail_if_memory(fault == WorldFault::Memory);
    line.fault(&fault);
}

/// Writes the imports and the exports of a world, in order: interfaces by their full names,
/// functions by their own.
pub fn write_externs<'a>(
    alloc: Global,
    interfaces: &[PlacedInterface<'a>],
    world: &PlacedWorld<'a>,
    externs: &WorldExterns,
    line: &mut Line,
) {
    line.put("imports");
    write_names(line, alloc, interfaces, world, &externs.imports);
    line.put("; exports");
    write_names(line, alloc, interfaces, world, &externs.exports);
}

fn write_names<'a>(
    line: &mut Line,
    alloc: Global,
    interfaces: &[PlacedInterface<'a>],
    world: &PlacedWorld<'a>,
    numbers: &[usize],
) {
    if numbers.is_empty() {
        line.put(" none");
    }
    for number in numbers {
        line.put(" ");
        write_name(line, alloc, interfaces, world, *number);
    }
}

/// Writes the full name of the interface of a number, or the name of the function of an item, whose
/// number is counted behind those of all interfaces.
fn write_name<'a>(
    line: &mut Line,
    alloc: Global,
    interfaces: &[PlacedInterface<'a>],
    world: &PlacedWorld<'a>,
    number: usize,
) {
    if let Some(placed) = interfaces.get(number) {
        let name = full_name(alloc, placed.file, &placed.interface.name);
        if let Some(name) = line.kept(name) {
            line.put(name.as_str());
        }
        return;
    }
    let item = number.saturating_sub(interfaces.len());
    line.put(match world.world.items.get(item) {
        Some(WorldItem::Import(WorldExtern::Func(name, _)))
        | Some(WorldItem::Export(WorldExtern::Func(name, _))) => name.as_str(),
        _ => "?",
    });
}
