//! What an engine needs to instantiate the core modules of files.

use cm_hux_drive::MAX_PAGES;
use cm_hux_drive::files::{
    Checked, Fault, Linked, Loaded, LoadedFiles, ToolFault, signature, signature_rows,
};
use cm_live_plan::{Beside, PlacedFile, component_places, write_component};
use std::alloc::{AllocError, Global};
use std::io::Write;

/// Where the file of a component stands: in a file of this name, this many bytes from its start.
#[derive(Clone, Copy)]
struct FilePlace<'n> {
    name: &'n str,
    at: usize,
}

/// Writes the plan of each component, in order. Those of a bundle are named by the bundle, and lie
/// where they stand in it.
pub(crate) fn write_plan<O: Write>(
    alloc: Global,
    loaded: &LoadedFiles<'_>,
    linked: &Linked<'_>,
    out: &mut O,
) -> Result<(), Fault> {
    let places = file_places(alloc, loaded)?;
    let files = loaded.files().iter().zip(&places);
    for ((file, place), checked) in files.zip(linked.components()) {
        write_planned(alloc, file, *place, checked, out)?;
    }
    Ok(())
}

/// Where the files of the components stand, in order.
fn file_places<'n>(
    alloc: Global,
    loaded: &'n LoadedFiles<'_>,
) -> Result<Vec<FilePlace<'n>>, AllocError> {
    let mut places = Vec::with_capacity(alloc, loaded.files().len())?;
    for file in loaded.files() {
        places.push(FilePlace {
            name: file.name,
            at: 0,
        })?;
    }
    if let Some((name, bytes)) = loaded.bundle() {
        place_parts(alloc, &mut places, 0, name, bytes)?;
    }
    for group in loaded.groups() {
        place_parts(alloc, &mut places, group.first, group.name, &group.bytes)?;
    }
    Ok(places)
}

/// Puts the parts of a bundle where they stand in it; the first of them has this number.
fn place_parts<'n>(
    alloc: Global,
    places: &mut Vec<FilePlace<'n>>,
    first: usize,
    name: &'n str,
    bytes: &[u8],
) -> Result<(), AllocError> {
    for (number, part) in component_places(alloc, bytes)?.iter().enumerate() {
        if let Some(place) = places.get_mut(first.saturating_add(number)) {
            *place = FilePlace { name, at: part.at };
        }
    }
    Ok(())
}

/// Writes the plan of a component, whose file stands there.
fn write_planned<O: Write>(
    alloc: Global,
    loaded: &Loaded<'_>,
    place: FilePlace<'_>,
    checked: &Checked<'_>,
    out: &mut O,
) -> Result<(), Fault> {
    let types = type_rows(alloc, loaded)?;
    let file = PlacedFile {
        name: place.name,
        at: place.at,
        bytes: &loaded.bytes,
    };
    let beside = Beside {
        file,
        types: types.as_str(),
        most: MAX_PAGES,
    };
    write_component(alloc, out, beside, checked)?;
    Ok(())
}

/// The types of what a component imports and exports, as `show --json` has them.
fn type_rows(alloc: Global, loaded: &Loaded<'_>) -> Result<String, Fault> {
    let signature = signature(alloc, loaded.check(alloc)?)?;
    match signature_rows(alloc, &signature, "type ", "func ") {
        Ok(rows) => Ok(rows),
        Err(fault) => Err(Fault::Tool(ToolFault::show(alloc, loaded.name, fault))),
    }
}
