//! What worlds need besides what they name.

use crate::flat::{FlatWorld, flat_world};
use crate::item::{Item, Thing};
use cm_wit_graph::place_all;
use cm_wit_projects_names::{
    Directory, Entry, Names, Scope, Spot, What, is_marked, leading_to, put,
};
use cm_wit_tokens::WitReason;
use indexmap::IndexSet;
use std::alloc::{AllocError, Global};

/// The interface of which an item that is there uses types.
fn used_by(entry: &Entry<'_>) -> Option<usize> {
    match entry.what {
        What::Use(used) if entry.there && !used.names.is_empty() => entry.target,
        _ => None,
    }
}

/// The interfaces of which a scope uses types.
fn needs_of(alloc: Global, scope: &Scope<'_>) -> Result<Vec<usize>, AllocError> {
    let mut row = Vec::new(alloc);
    for entry in &scope.entries {
        if let Some(target) = used_by(entry) {
            put(&mut row, target)?;
        }
    }
    Ok(row)
}

/// For each scope the interfaces of which it uses types.
fn need_rows(alloc: Global, scopes: &[Scope<'_>]) -> Result<Vec<Vec<usize>>, AllocError> {
    let mut rows = Vec::new(alloc);
    for scope in scopes {
        put(&mut rows, needs_of(alloc, scope)?)?;
    }
    Ok(rows)
}

/// The scope of an instance, if it is one.
fn instance_of(item: &Item<'_>) -> Option<usize> {
    match item.thing {
        Thing::Interface(number) => Some(number),
        Thing::Inner(scope) => Some(scope),
        Thing::Func(..) | Thing::Type => None,
    }
}

/// Adds the node of an import, by its place: that of an interface is its number, and behind all
/// scopes there is one for each place. What an interface in place uses stands before it.
fn add_node(
    out: &mut Vec<usize>,
    rows: &[Vec<usize>],
    place: usize,
    item: &Item<'_>,
) -> Result<(), AllocError> {
    let own = rows.len().saturating_add(place);
    match item.thing {
        Thing::Interface(number) => put(out, number),
        Thing::Inner(scope) => {
            if let Some(row) = rows.get(scope) {
                add_row(out, &[], row)?;
            }
            put(out, own)
        }
        Thing::Func(..) | Thing::Type => put(out, own),
    }
}

/// The nodes of imports, in order.
fn nodes_of(
    alloc: Global,
    rows: &[Vec<usize>],
    items: &[Item<'_>],
) -> Result<Vec<usize>, AllocError> {
    let mut nodes = Vec::new(alloc);
    for (place, item) in items.iter().enumerate() {
        add_node(&mut nodes, rows, place, item)?;
    }
    Ok(nodes)
}

/// Marks of so many scopes: those that are exported.
fn exported_marks(
    alloc: Global,
    scopes: usize,
    exports: &[Item<'_>],
) -> Result<Vec<bool>, AllocError> {
    let mut marks = Vec::from_elem(alloc, false, scopes)?;
    for item in exports {
        if let Some(scope) = instance_of(item) {
            if let Some(mark) = marks.get_mut(scope) {
                *mark = true;
            }
        }
    }
    Ok(marks)
}

/// Adds the interfaces of a row that are not exported.
fn add_row(out: &mut Vec<usize>, marks: &[bool], row: &[usize]) -> Result<(), AllocError> {
    for need in row {
        if !is_marked(marks, *need) {
            put(out, *need)?;
        }
    }
    Ok(())
}

/// The interfaces that exports use, and that are not exported.
fn export_needs(
    alloc: Global,
    rows: &[Vec<usize>],
    marks: &[bool],
    exports: &[Item<'_>],
) -> Result<Vec<usize>, AllocError> {
    let mut out = Vec::new(alloc);
    for item in exports {
        if let Some(scope) = instance_of(item) {
            if let Some(row) = rows.get(scope) {
                add_row(&mut out, marks, row)?;
            }
        }
    }
    Ok(out)
}

/// Adds an edge to a node from each of a row.
fn add_edges(out: &mut Vec<(usize, usize)>, node: usize, row: &[usize]) -> Result<(), AllocError> {
    for need in row {
        put(out, (*need, node))?;
    }
    Ok(())
}

/// The edges from what is used to what uses it.
fn back_edges(alloc: Global, rows: &[Vec<usize>]) -> Result<Vec<(usize, usize)>, AllocError> {
    let mut out = Vec::new(alloc);
    for (node, row) in rows.iter().enumerate() {
        add_edges(&mut out, node, row)?;
    }
    Ok(out)
}

/// Whether something that is marked is exported too.
fn any_both(a: &[bool], b: &[bool]) -> bool {
    for (a, b) in a.iter().zip(b) {
        if *a && *b {
            return true;
        }
    }
    false
}

/// Whether something that these need is exported.
fn reach_exports(
    alloc: Global,
    rows: &[Vec<usize>],
    marks: &[bool],
    needs: &[usize],
) -> Result<bool, AllocError> {
    let edges = back_edges(alloc, rows)?;
    let reached = leading_to(alloc, rows.len(), &edges, needs)?;
    Ok(any_both(&reached, marks))
}

/// An import by its node: one of these items, or an interface that others need.
fn item_at<'a>(items: &[Item<'a>], node: usize, scopes: usize) -> Option<Item<'a>> {
    if node >= scopes {
        return items.get(node - scopes).copied();
    }
    Some(Item {
        name: None,
        number: 0,
        thing: Thing::Interface(node),
    })
}

/// The imports of nodes in an order.
fn imports_of<'a>(
    alloc: Global,
    items: &[Item<'a>],
    scopes: usize,
    order: &IndexSet<usize>,
) -> Result<Vec<Item<'a>>, AllocError> {
    let mut out = Vec::new(alloc);
    for node in order.iter() {
        if let Some(item) = item_at(items, *node, scopes) {
            put(&mut out, item)?;
        }
    }
    Ok(out)
}

/// All that a world imports and exports, with the worlds that it includes, itself last.
#[derive(Drop)]
pub struct World<'a> {
    pub imports: Vec<Item<'a>>,
    pub exports: Vec<Item<'a>>,
    pub worlds: Vec<usize>,
}

/// The fault of a world at its name.
fn world_fault(directory: &Directory<'_>, number: usize) -> Spot {
    match directory.declared.get(number) {
        Some(declared) => Spot {
            unit: declared.unit,
            left: declared.left,
            name: Some(0),
            reason: WitReason::Unexpected,
        },
        None => Spot::MEMORY,
    }
}

/// What a world imports, where it exports these: `None` where an export needs another one by way of
/// an interface that is not exported.
fn ordered<'a>(
    alloc: Global,
    rows: &[Vec<usize>],
    flat: &FlatWorld<'a>,
) -> Result<Option<Vec<Item<'a>>>, AllocError> {
    let imports = &flat.flat.imports;
    let exports = &flat.flat.exports;
    let marks = exported_marks(alloc, rows.len(), exports)?;
    let needs = export_needs(alloc, rows, &marks, exports)?;
    if reach_exports(alloc, rows, &marks, &needs)? {
        return Ok(None);
    }
    let mut order = IndexSet::new(alloc);
    let nodes = nodes_of(alloc, rows, imports)?;
    let _own = place_all(alloc, rows, &nodes, &mut order)?;
    let _needed = place_all(alloc, rows, &needs, &mut order)?;
    Ok(Some(imports_of(alloc, imports, rows.len(), &order)?))
}

/// All that a world imports and exports, by the world's number (WIT.md, "Worlds").
///
/// Its imports are those of its text, in order, with the includes written out, each behind the
/// interfaces of which it uses types and that are not there yet, and then what its exports use that
/// the world does not export. Faults are those of `flat_world`, and `Unexpected` at the name of a
/// world an export of which needs another one by way of an interface that is not exported. It takes
/// time linear in the project, but for includes of includes: each world that is included gets the
/// items of those that it includes anew, so a chain of them takes its length times their items.
pub fn world_at<'a>(alloc: Global, names: &Names<'a>, number: usize) -> Result<World<'a>, Spot> {
    let flat = flat_world(alloc, &names.scopes, number)?;
    let rows = need_rows(alloc, &names.scopes)?;
    let Some(imports) = ordered(alloc, &rows, &flat)? else {
        return Err(world_fault(&names.directory, number));
    };
    let FlatWorld { flat, worlds } = flat;
    let exports = flat.exports;
    Ok(World {
        imports,
        exports,
        worlds,
    })
}
