//! The interfaces and worlds of packages, in order.

ghost use Rattle.std.specs.Prelude.{◌≡◌, ◌++◌, IfOk, OnOk, map};
ghost use Rattle.std.specs.List.{filter_map};
ghost use Rattle.cm_wit_reading.specs.Views.{file_item_tree, file_tree};
ghost use Rattle.cm_wit_worlds.specs.Interfaces.{interface_in, interfaces, world_in, worlds};
ghost use Rattle.cm_wit_worlds.specs.InterfaceViews.{files_of, placed_interface, placed_world};

use crate::placed::{PlacedInterface, PlacedWorld};
use cm_wit_reading::{FileItem, WitFile};
use std::alloc::{AllocError, Global};

/// Adds the interfaces of a package.
#[tactic(auto, using(crate::proofs::ListingLaws::part_laws))]
fn add_interfaces<'a>(
    out: &mut Vec<PlacedInterface<'a>>,
    place: usize,
    file: &'a WitFile,
) -> Result<(), AllocError>
    ensures { OnOk result (map placed_interface out.new.items
        ≡ map placed_interface out.old.items
        ++ filter_map (interface_in place (file_tree file.now)) (file_tree file.now).items) }
{
    for item in &file.items {
        if let FileItem::Interface(interface) = item {
            out.push(PlacedInterface {
                place,
                file,
                interface,
            })?;
        }
    }
    Ok(())
}

/// Adds the worlds of a package.
#[tactic(auto, using(crate::proofs::ListingLaws::part_laws))]
fn add_worlds<'a>(
    out: &mut Vec<PlacedWorld<'a>>,
    place: usize,
    file: &'a WitFile,
) -> Result<(), AllocError>
    ensures { OnOk result (map placed_world out.new.items
        ≡ map placed_world out.old.items
        ++ filter_map (world_in place (file_tree file.now)) (file_tree file.now).items) }
{
    for item in &file.items {
        if let FileItem::World(world) = item {
            out.push(PlacedWorld { place, file, world })?;
        }
    }
    Ok(())
}

/// The interfaces of packages. Refused only where there is no memory.
#[tactic(auto, using(crate::proofs::ListingLaws::listing_laws))]
pub fn interfaces<'a>(
    alloc: Global,
    files: &[&'a WitFile],
) -> Result<Vec<PlacedInterface<'a>>, AllocError>
    ensures { IfOk result (λ v.
        map placed_interface v.items ≡ interfaces (files_of files.now)) }
{
    let mut out = Vec::new(alloc);
    for (place, file) in files.iter().enumerate() {
        add_interfaces(&mut out, place, *file)?;
    }
    Ok(out)
}

/// The worlds of packages. Refused only where there is no memory.
#[tactic(auto, using(crate::proofs::ListingLaws::listing_laws))]
pub fn worlds<'a>(alloc: Global, files: &[&'a WitFile]) -> Result<Vec<PlacedWorld<'a>>, AllocError>
    ensures { IfOk result (λ v. map placed_world v.items ≡ worlds (files_of files.now)) }
{
    let mut out = Vec::new(alloc);
    for (place, file) in files.iter().enumerate() {
        add_worlds(&mut out, place, *file)?;
    }
    Ok(out)
}
