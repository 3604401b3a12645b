//! What a component and a world have where one does not fit the other.

use crate::blocks::{Side, block_at, item_at};
use crate::lines::line_at;
use crate::spots::Spot;
use cm_tool_show::ShowFault;
use cm_types_arena::Signature;
use cm_wit_conforms::{ConformFault, ConformList, ConformReason};
use std::alloc::{AllocError, Global};
use std::fmt::Write;

/// What a fault of a component's signature against a world's is of: the name of the import or of
/// the export, that of its item, and what it is in the world and in the component. Only what is
/// said is written; its resources have the numbers that they have in the texts that show the whole
/// signatures.
///
/// `TooLong` comes only where such a text would be too long: where a line of it is, or more than
/// `MAX_SHOWN` items and types stand before the line; `Memory` where there is no memory. It costs
/// time linear in what is said, in the names of imports, of exports and of the items of two of
/// them, and in the items and the nodes of types before the lines.
pub fn conform_help(
    alloc: Global,
    have: &Signature,
    world: &Signature,
    fault: ConformFault,
) -> Result<String, ShowFault> {
    if fault.reason == ConformReason::Memory {
        return Ok(String::new(alloc));
    }
    let (own, other, side) = match fault.item.list {
        ConformList::WorldExports => (world, have, Side::Exports),
        ConformList::HaveImports => (have, world, Side::Imports),
    };
    let spot = Spot {
        side,
        place: fault.item.place,
        item: fault.item.item,
    };
    let front = line_at(alloc, own, spot.whole())?;
    let in_other = match spot.facing(own, other) {
        None => String::new(alloc),
        Some(facing) => line_at(alloc, other, facing)?,
    };
    let in_own = line_at(alloc, own, spot)?;
    let found = found_in(front.as_str(), in_own.as_str(), in_other.as_str(), spot);
    Ok(found.tail(alloc)?)
}

/// What has a fault, and what stands for it on the other side.
#[derive(Clone, Copy)]
struct Found<'a> {
    name: &'a str,
    item: Option<&'a str>,
    in_world: Option<&'a str>,
    in_component: Option<&'a str>,
}

/// What lines say: that of an import or an export, and those of what has the fault, here and on the
/// other side.
fn found_in<'a>(front: &'a str, own: &'a str, other: &'a str, spot: Spot) -> Found<'a> {
    let name = block_at(front, spot.side).map_or("", |block| block.name);
    let (item, own, other) = match spot.item {
        None => (None, what_of(own, spot.side), what_of(other, spot.side)),
        Some(_) => {
            let line = item_at(own);
            (
                line.map(|line| line.name),
                line.map(|line| line.what),
                item_at(other).map(|line| line.what),
            )
        }
    };
    let (in_world, in_component) = match spot.side {
        Side::Exports => (own, other),
        Side::Imports => (other, own),
    };
    Found {
        name,
        item,
        in_world,
        in_component,
    }
}

/// What an import or an export is, as its line says.
fn what_of(line: &str, side: Side) -> Option<&str> {
    Some(block_at(line, side)?.what)
}

impl Found<'_> {
    fn tail(self, alloc: Global) -> Result<String, AllocError> {
        let mut out = String::new(alloc);
        let name = self.name;
        if name.is_empty() {
            return Ok(out);
        }
        match self.item {
            None => write!(out, ": \"{name}\"")?,
            Some(item) => write!(out, ": \"{item}\" of \"{name}\"")?,
        }
        if let Some(what) = self.in_world {
            write!(out, ", in the world {}", with_article(what))?;
        }
        if let Some(what) = self.in_component {
            write!(out, ", in the component {}", with_article(what))?;
        }
        Ok(out)
    }
}

/// What something is, in words.
fn with_article(what: &str) -> &str {
    if what == "instance" {
        "an instance"
    } else {
        what
    }
}
