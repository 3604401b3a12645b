//! What a world has by including others.

use crate::item::{Flat, Item, Thing};
use crate::noted::Noted;
use cm_types::Label;
use cm_wit_projects_names::{Entry, Spot, put};
use cm_wit_projects_reading::{Include, Renamed};
use cm_wit_reading::Path;
use cm_wit_tokens::WitReason;
use std::alloc::{AllocError, Global};
use std::collections::BTreeMap;

/// A new name, with its number, and which of an include's names it is, from 0.
#[derive(Clone, Copy)]
struct NewName<'a> {
    label: &'a Label,
    number: usize,
    index: usize,
}

/// The new names of an include, by the numbers of the old ones, and which of them were met.
#[derive(Drop)]
struct Renaming<'a> {
    names: BTreeMap<usize, NewName<'a>>,
    met: Vec<bool>,
}

/// Adds a new name of an include.
fn add_renamed<'a>(
    noted: &mut Noted,
    out: &mut Renaming<'a>,
    index: usize,
    renamed: &'a Renamed,
) -> Result<(), AllocError> {
    let old = noted.number(&renamed.name)?;
    let number = noted.number(&renamed.new_name)?;
    let label = &renamed.new_name;
    let new_name = NewName {
        label,
        number,
        index,
    };
    out.met.push(false)?;
    if out.names.insert(old, new_name).is_err() {
        return Err(AllocError);
    }
    Ok(())
}

/// The new names of an include.
fn renaming_of<'a>(
    alloc: Global,
    noted: &mut Noted,
    include: &'a Include,
) -> Result<Renaming<'a>, AllocError> {
    let mut out = Renaming {
        names: BTreeMap::new(alloc),
        met: Vec::new(alloc),
    };
    for (index, renamed) in include.renamed.iter().enumerate() {
        add_renamed(noted, &mut out, index, renamed)?;
    }
    Ok(out)
}

/// An item under its new name, if it gets one, which is met then.
fn renamed<'a>(renaming: &mut Renaming<'a>, item: Item<'a>) -> Item<'a> {
    if item.name.is_none() {
        return item;
    }
    let Some(found) = renaming.names.get(&item.number) else {
        return item;
    };
    let new_name = *found;
    if let Some(met) = renaming.met.get_mut(new_name.index) {
        *met = true;
    }
    Item {
        name: Some(new_name.label),
        number: new_name.number,
        thing: item.thing,
    }
}

/// Adds an item of an included world, and answers whether its name is new, as it has to be.
fn add_item<'a>(
    noted: &mut Noted,
    out: &mut Vec<Item<'a>>,
    exported: bool,
    stamp: usize,
    item: Item<'a>,
) -> Result<bool, AllocError> {
    match item.thing {
        Thing::Interface(number) => {
            if noted.note_interface(exported, number, stamp)? {
                put(out, item)?;
            }
            Ok(true)
        }
        Thing::Inner(_) | Thing::Func(..) | Thing::Type => {
            let is_new = noted.note_name(exported, item.number, stamp)?;
            put(out, item)?;
            Ok(is_new)
        }
    }
}

/// Items under their new names, where they get ones.
fn renamed_all<'a>(
    alloc: Global,
    renaming: &mut Renaming<'a>,
    items: &[Item<'a>],
) -> Result<Vec<Item<'a>>, AllocError> {
    let mut out = Vec::with_capacity(alloc, items.len())?;
    for item in items {
        put(&mut out, renamed(renaming, *item))?;
    }
    Ok(out)
}

/// Adds one side of an included world, and answers whether its names are new.
fn add_side<'a>(
    noted: &mut Noted,
    out: &mut Vec<Item<'a>>,
    exported: bool,
    stamp: usize,
    items: &[Item<'a>],
) -> Result<bool, AllocError> {
    for item in items {
        if !add_item(noted, out, exported, stamp, *item)? {
            return Ok(false);
        }
    }
    Ok(true)
}

/// How many names a path has.
fn path_names(path: &Path) -> usize {
    match path {
        Path::Local(_) => 1,
        Path::Foreign { .. } => 3,
    }
}

/// The first new name that was not met.
fn first_unmet(met: &[bool]) -> Option<usize> {
    for (index, met) in met.iter().enumerate() {
        if !*met {
            return Some(index);
        }
    }
    None
}

/// The fault at a name of an include.
fn fault(unit: usize, entry: &Entry<'_>, name: usize, reason: WitReason) -> Spot {
    Spot {
        unit,
        left: entry.left,
        name: Some(name),
        reason,
    }
}

/// What an included world has, under the new names that the include gives.
fn renamed_flat<'a>(
    alloc: Global,
    renaming: &mut Renaming<'a>,
    included: &Flat<'a>,
) -> Result<Flat<'a>, AllocError> {
    let imports = renamed_all(alloc, renaming, &included.imports)?;
    let exports = renamed_all(alloc, renaming, &included.exports)?;
    Ok(Flat { imports, exports })
}

/// Adds what an included world has, to a world that has this number among those that are made, and
/// answers whether all its names are new.
fn add_flat<'a>(
    noted: &mut Noted,
    out: &mut Flat<'a>,
    stamp: usize,
    included: &Flat<'a>,
) -> Result<bool, AllocError> {
    let imported = add_side(noted, &mut out.imports, false, stamp, &included.imports)?;
    let exported = add_side(noted, &mut out.exports, true, stamp, &included.exports)?;
    Ok(imported && exported)
}

/// Adds what an included world has, to a world of a unit that has this number among those that are
/// made.
///
/// `UnknownName` comes at the first name behind `with` that names nothing in the included world,
/// and `Duplicate` at the path where a name of it is there already.
pub fn add_included<'a>(
    alloc: Global,
    noted: &mut Noted,
    out: &mut Flat<'a>,
    stamp: usize,
    unit: usize,
    entry: &Entry<'a>,
    include: &'a Include,
    included: &Flat<'a>,
) -> Result<(), Spot> {
    let mut renaming = renaming_of(alloc, noted, include)?;
    let flat = renamed_flat(alloc, &mut renaming, included)?;
    if let Some(index) = first_unmet(&renaming.met) {
        let name = path_names(&include.path).saturating_add(index.saturating_mul(2));
        return Err(fault(unit, entry, name, WitReason::UnknownName));
    }
    if add_flat(noted, out, stamp, &flat)? {
        Ok(())
    } else {
        Err(fault(unit, entry, 0, WitReason::Duplicate))
    }
}
