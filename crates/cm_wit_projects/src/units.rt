//! What the files of a project have, package by package.

ghost use Rattle.std.specs.Prelude.{◌≡◌, ◌++◌, ◌∷◌, [], IfOk, OnOk, map};
ghost use Rattle.std.specs.List.{filter_map};
ghost use Rattle.std.specs.Option.{option_map};
ghost use Rattle.cm_wit_projects_reading.specs.Views.{file_item_tree, file_tree, gated_tree};
ghost use Rattle.cm_wit_projects_reading.specs.Views.{package_item_tree, package_name_tree};
ghost use Rattle.cm_wit_projects.specs.Units.{braced_unit, own_item, own_unit, units_from};
ghost use Rattle.cm_wit_projects.specs.Units.{units_in, units_of};
ghost use Rattle.cm_wit_projects.specs.Views.{item_view, trees, unit_view};

use crate::packages::package_of;
use cm_wit_projects_reading::{FileItem, Gated, PackageItem, PackageName, PlacedGate, WitFile};
use std::alloc::{AllocError, Global};

/// An item of a package, behind its gates, and how many bytes of the text are left from its first
/// token on.
#[derive(Clone, Copy)]
pub struct ItemRef<'a> {
    pub gates: &'a [PlacedGate],
    pub left: usize,
    pub item: &'a PackageItem,
}

/// Items of a package that stand together, in a file or in braces: uses at the top among them are
/// theirs alone.
#[derive(Drop)]
pub struct Unit<'a> {
    pub folder: usize,
    pub file: usize,
    pub name: &'a PackageName,
    pub items: Vec<ItemRef<'a>>,
}

/// The item of the file's own package that an item is.
fn own_item<'a>(gated: &'a Gated<FileItem>) -> Option<ItemRef<'a>>
    ensures { option_map item_view result ≡ own_item (gated_tree file_item_tree gated.now) }
{
    match &gated.item {
        FileItem::Item(item) => Some(ItemRef {
            gates: &gated.gates,
            left: gated.left,
            item,
        }),
        FileItem::Package(_) => None,
    }
}

/// The items of a file's own package. Refused only where there is no memory.
#[tactic(auto, using(crate::proofs::PackageLaws::find_laws))]
fn own_items<'a>(
    alloc: Global,
    items: &'a [Gated<FileItem>],
) -> Result<Vec<ItemRef<'a>>, AllocError>
    ensures { IfOk result (λ v. map item_view v.items
        ≡ filter_map own_item (map (gated_tree file_item_tree) items.now)) }
{
    let mut own = Vec::new(alloc);
    for gated in items {
        if let Some(item) = own_item(gated) {
            own.push(item)?;
        }
    }
    Ok(own)
}

/// The items of a package in braces. Refused only where there is no memory.
#[tactic(auto, using(crate::proofs::PackageLaws::list_laws))]
fn braced_items<'a>(
    alloc: Global,
    items: &'a [Gated<PackageItem>],
) -> Result<Vec<ItemRef<'a>>, AllocError>
    ensures { IfOk result (λ v. map item_view v.items
        ≡ map (gated_tree package_item_tree) items.now) }
{
    let mut all = Vec::new(alloc);
    for gated in items {
        all.push(ItemRef {
            gates: &gated.gates,
            left: gated.left,
            item: &gated.item,
        })?;
    }
    Ok(all)
}

/// The items of the file's own package, which has this name. Refused only where there is no memory.
fn own_unit<'a>(
    alloc: Global,
    folder: usize,
    number: usize,
    name: &'a PackageName,
    file: &'a WitFile,
) -> Result<Unit<'a>, AllocError>
    ensures { IfOk result (λ u. unit_view u
        ≡ own_unit folder number (package_name_tree name.now) (file_tree file.now)) }
{
    let items = own_items(alloc, &file.items)?;
    Ok(Unit {
        folder,
        file: number,
        name,
        items,
    })
}

/// The package in braces that an item is. Refused only where there is no memory.
fn braced_unit<'a>(
    alloc: Global,
    folder: usize,
    number: usize,
    gated: &'a Gated<FileItem>,
) -> Result<Option<Unit<'a>>, AllocError>
    ensures { IfOk result (λ u. option_map unit_view u
        ≡ braced_unit folder number (gated_tree file_item_tree gated.now)) }
{
    match &gated.item {
        FileItem::Item(_) => Ok(None),
        FileItem::Package(package) => {
            let items = braced_items(alloc, &package.items)?;
            Ok(Some(Unit {
                folder,
                file: number,
                name: &package.name,
                items,
            }))
        }
    }
}

/// Adds the packages in braces of a file.
#[tactic(auto, using(crate::proofs::PackageLaws::find_laws))]
fn add_braced<'a>(
    alloc: Global,
    out: &mut Vec<Unit<'a>>,
    folder: usize,
    number: usize,
    items: &'a [Gated<FileItem>],
) -> Result<(), AllocError>
    ensures { OnOk result (map unit_view out.new.items ≡ map unit_view out.old.items
        ++ filter_map (braced_unit folder number) (map (gated_tree file_item_tree) items.now)) }
{
    for gated in items {
        if let Some(unit) = braced_unit(alloc, folder, number, gated)? {
            out.push(unit)?;
        }
    }
    Ok(())
}

/// Adds the units of a file of a folder that has this package.
fn add_units<'a>(
    alloc: Global,
    out: &mut Vec<Unit<'a>>,
    folder: usize,
    number: usize,
    name: &'a PackageName,
    file: &'a WitFile,
) -> Result<(), AllocError>
    ensures { OnOk result (map unit_view out.new.items ≡ map unit_view out.old.items
        ++ (own_unit folder number (package_name_tree name.now) (file_tree file.now)
        ∷ filter_map (braced_unit folder number) (file_tree file.now).items)) }
{
    out.push(own_unit(alloc, folder, number, name, file)?)?;
    add_braced(alloc, out, folder, number, &file.items)
}

/// Adds the units of the files of a folder that has this package.
#[tactic(auto, using(crate::proofs::PackageLaws::list_laws))]
fn add_named<'a>(
    alloc: Global,
    out: &mut Vec<Unit<'a>>,
    folder: usize,
    name: &'a PackageName,
    files: &'a [WitFile],
) -> Result<(), AllocError>
    ensures { OnOk result (map unit_view out.new.items ≡ map unit_view out.old.items
        ++ units_from folder 0 (package_name_tree name.now) (map file_tree files.now)) }
{
    for (number, file) in files.iter().enumerate() {
        add_units(alloc, out, folder, number, name, file)?;
    }
    Ok(())
}

/// Adds the units of a folder.
fn add_folder<'a>(
    alloc: Global,
    out: &mut Vec<Unit<'a>>,
    folder: usize,
    files: &'a [WitFile],
) -> Result<(), AllocError>
    ensures { OnOk result (map unit_view out.new.items ≡ map unit_view out.old.items
        ++ units_in folder (map file_tree files.now)) }
{
    match package_of(files) {
        Some(name) => add_named(alloc, out, folder, name, files),
        None => Ok(()),
    }
}

/// The units of folders, in the order in which they are handed over. Refused only where there is no
/// memory.
#[tactic(auto, using(crate::proofs::PackageLaws::list_laws))]
pub fn units_of(alloc: Global, all: &[Vec<WitFile>]) -> Result<Vec<Unit<'_>>, AllocError>
    ensures { IfOk result (λ v. map unit_view v.items ≡ units_of 0 (trees all.now)) }
{
    let mut out = Vec::new(alloc);
    for (folder, files) in all.iter().enumerate() {
        add_folder(alloc, &mut out, folder, files)?;
    }
    Ok(out)
}
