//! Worlds with their includes written out.

use crate::including::add_included;
use crate::item::{Flat, Item, Thing};
use crate::noted::Noted;
use cm_types::Label;
use cm_wit_graph::place;
use cm_wit_projects_names::{Entry, Scope, Spot, What, put};
use cm_wit_projects_reading::TypeItem;
use cm_wit_reading::UsedName;
use cm_wit_tokens::WitReason;
use indexmap::IndexSet;
use std::alloc::{AllocError, Global};

/// Adds a name of a world.
fn add_named<'a>(
    noted: &mut Noted,
    out: &mut Vec<Item<'a>>,
    exported: bool,
    stamp: usize,
    name: &'a Label,
    thing: Thing,
) -> Result<(), AllocError> {
    let number = noted.number(name)?;
    let _is_new = noted.note_name(exported, number, stamp)?;
    let name = Some(name);
    put(
        out,
        Item {
            name,
            number,
            thing,
        },
    )
}

/// Adds an interface by its number, unless it is there.
fn add_interface<'a>(
    noted: &mut Noted,
    out: &mut Vec<Item<'a>>,
    exported: bool,
    stamp: usize,
    number: usize,
) -> Result<(), AllocError> {
    if noted.note_interface(exported, number, stamp)? {
        let thing = Thing::Interface(number);
        put(
            out,
            Item {
                name: None,
                number: 0,
                thing,
            },
        )?;
    }
    Ok(())
}

/// Adds the types that a world uses by name.
fn add_used<'a>(
    noted: &mut Noted,
    out: &mut Vec<Item<'a>>,
    stamp: usize,
    names: &'a [UsedName],
) -> Result<(), AllocError> {
    for used in names {
        let name = match &used.new_name {
            Some(new_name) => new_name,
            None => &used.name,
        };
        add_named(noted, out, false, stamp, name, Thing::Type)?;
    }
    Ok(())
}

/// Adds types of an interface that a world uses, behind the interface.
fn add_use<'a>(
    noted: &mut Noted,
    out: &mut Vec<Item<'a>>,
    stamp: usize,
    target: Option<usize>,
    names: &'a [UsedName],
) -> Result<(), AllocError> {
    match target {
        Some(number) if !names.is_empty() => {
            add_interface(noted, out, false, stamp, number)?;
            add_used(noted, out, stamp, names)
        }
        _ => Ok(()),
    }
}

/// Adds what a world imports or exports by an item of its own.
fn add_extern<'a>(
    noted: &mut Noted,
    out: &mut Vec<Item<'a>>,
    stamp: usize,
    world: usize,
    place: usize,
    entry: &Entry<'a>,
) -> Result<(), AllocError> {
    let exported = entry.exported;
    match (entry.what, entry.target) {
        (What::Func(name, _), _) => {
            add_named(noted, out, exported, stamp, name, Thing::Func(world, place))
        }
        (What::Inner(name, scope), _) => {
            add_named(noted, out, exported, stamp, name, Thing::Inner(scope))
        }
        (What::Path(_), Some(number)) => add_interface(noted, out, exported, stamp, number),
        (What::Use(used), target) => add_use(noted, out, stamp, target, &used.names),
        (What::Type(name, _), _) => add_named(noted, out, false, stamp, name, Thing::Type),
        _ => Ok(()),
    }
}

/// The fault of a resource that a world has of its own, which no profile of components has.
fn resource_fault(unit: usize, entry: &Entry<'_>) -> Option<Spot> {
    match entry.what {
        What::Type(_, TypeItem::Resource(_)) => Some(Spot {
            unit,
            left: entry.left,
            name: Some(0),
            reason: WitReason::Unsupported,
        }),
        _ => None,
    }
}

/// Adds what a world has by items of its own.
fn add_own<'a>(
    noted: &mut Noted,
    out: &mut Flat<'a>,
    stamp: usize,
    world: usize,
    scope: &Scope<'a>,
) -> Result<(), Spot> {
    for (place, entry) in scope.entries.iter().enumerate() {
        if !entry.there {
            continue;
        }
        if let Some(fault) = resource_fault(scope.unit, entry) {
            return Err(fault);
        }
        if entry.exported {
            add_extern(noted, &mut out.exports, stamp, world, place, entry)?;
        } else {
            add_extern(noted, &mut out.imports, stamp, world, place, entry)?;
        }
    }
    Ok(())
}

/// Worlds that are made, in an order in which each stands behind those that it includes.
#[derive(Drop)]
struct Made<'a> {
    order: IndexSet<usize>,
    /// How often each is still to be included.
    uses: Vec<usize>,
    flats: Vec<Flat<'a>>,
}

/// The place of a world that an item includes.
fn included_place(made: &Made<'_>, entry: &Entry<'_>) -> Option<usize> {
    match (entry.what, entry.target) {
        (What::Include(_), Some(target)) if entry.there => made.order.get_index_of(&target),
        _ => None,
    }
}

/// Lets go what a world has once nothing includes it any more.
fn let_go(alloc: Global, made: &mut Made<'_>, place: usize) {
    let mut left: usize = 0;
    if let Some(uses) = made.uses.get_mut(place) {
        *uses = uses.saturating_sub(1);
        left = *uses;
    }
    if left == 0 {
        if let Some(flat) = made.flats.get_mut(place) {
            *flat = Flat {
                imports: Vec::new(alloc),
                exports: Vec::new(alloc),
            };
        }
    }
}

/// Adds what a world has by an include.
fn add_include<'a>(
    alloc: Global,
    noted: &mut Noted,
    out: &mut Flat<'a>,
    made: &Made<'a>,
    stamp: usize,
    unit: usize,
    entry: &Entry<'a>,
    place: usize,
) -> Result<(), Spot> {
    match (entry.what, made.flats.get(place)) {
        (What::Include(include), Some(included)) => {
            add_included(alloc, noted, out, stamp, unit, entry, include, included)
        }
        _ => Ok(()),
    }
}

/// Adds what a world has by its includes.
fn add_includes<'a>(
    alloc: Global,
    noted: &mut Noted,
    out: &mut Flat<'a>,
    made: &mut Made<'a>,
    stamp: usize,
    scope: &Scope<'a>,
) -> Result<(), Spot> {
    for entry in &scope.entries {
        if let Some(place) = included_place(made, entry) {
            add_include(alloc, noted, out, made, stamp, scope.unit, entry, place)?;
            let_go(alloc, made, place);
        }
    }
    Ok(())
}

/// What a world has, where those that it includes are made.
fn flat_of<'a>(
    alloc: Global,
    noted: &mut Noted,
    made: &mut Made<'a>,
    stamp: usize,
    world: usize,
    scope: &Scope<'a>,
) -> Result<Flat<'a>, Spot> {
    let mut out = Flat {
        imports: Vec::new(alloc),
        exports: Vec::new(alloc),
    };
    add_own(noted, &mut out, stamp, world, scope)?;
    add_includes(alloc, noted, &mut out, made, stamp, scope)?;
    Ok(out)
}

/// The worlds that a scope includes.
fn included_by(alloc: Global, scope: &Scope<'_>) -> Result<Vec<usize>, AllocError> {
    let mut row = Vec::new(alloc);
    for entry in &scope.entries {
        match (entry.what, entry.target) {
            (What::Include(_), Some(target)) if entry.there => put(&mut row, target)?,
            _ => {}
        }
    }
    Ok(row)
}

/// For each scope the worlds that it includes.
fn include_rows(alloc: Global, scopes: &[Scope<'_>]) -> Result<Vec<Vec<usize>>, AllocError> {
    let mut rows = Vec::new(alloc);
    for scope in scopes {
        put(&mut rows, included_by(alloc, scope)?)?;
    }
    Ok(rows)
}

/// Counts the includes of a world.
fn count_row(uses: &mut Vec<usize>, order: &IndexSet<usize>, row: &[usize]) {
    for world in row {
        if let Some(place) = order.get_index_of(world) {
            if let Some(count) = uses.get_mut(place) {
                *count = count.saturating_add(1);
            }
        }
    }
}

/// How often each of the worlds in an order is included by one of them.
fn count_uses(
    alloc: Global,
    order: &IndexSet<usize>,
    rows: &[Vec<usize>],
) -> Result<Vec<usize>, AllocError> {
    let mut uses = Vec::from_elem(alloc, 0, order.len())?;
    for world in order.iter() {
        if let Some(row) = rows.get(*world) {
            count_row(&mut uses, order, row);
        }
    }
    Ok(uses)
}

/// The worlds that a world includes, by way of others or not, and itself behind them.
fn order_of(
    alloc: Global,
    rows: &[Vec<usize>],
    world: usize,
) -> Result<IndexSet<usize>, AllocError> {
    let mut order = IndexSet::new(alloc);
    let _could = place(alloc, rows, world, &mut order)?;
    Ok(order)
}

/// The numbers of an order, in a list.
fn list_of(alloc: Global, order: &IndexSet<usize>) -> Result<Vec<usize>, AllocError> {
    let mut list = Vec::new(alloc);
    for world in order.iter() {
        put(&mut list, *world)?;
    }
    Ok(list)
}

/// A world with its includes written out, and the worlds whose items it has: itself last.
#[derive(Drop)]
pub struct FlatWorld<'a> {
    pub flat: Flat<'a>,
    pub worlds: Vec<usize>,
}

/// Makes worlds in an order.
fn make_all<'a>(
    alloc: Global,
    made: &mut Made<'a>,
    scopes: &[Scope<'a>],
    worlds: &[usize],
) -> Result<(), Spot> {
    let mut noted = Noted::new(alloc);
    for (place, world) in worlds.iter().enumerate() {
        if let Some(scope) = scopes.get(*world) {
            let stamp = place.saturating_add(1);
            let flat = flat_of(alloc, &mut noted, made, stamp, *world, scope)?;
            put(&mut made.flats, flat)?;
        }
    }
    Ok(())
}

/// A world by its number, with its includes written out: what it imports and exports, in the order
/// of its text, and behind that what it includes (WIT.md, "Worlds"). An interface that comes twice
/// stands once. What a world names by `use` is an import of its own, a type, behind the interface.
///
/// `UnknownName` comes at a name behind `with` that names nothing; `Duplicate` at the path of an
/// include that brings a name that is there already; `Unsupported` at the name of a
/// resource that a world has of its own; and `Memory`. Each included world is written out once.
pub fn flat_world<'a>(
    alloc: Global,
    scopes: &[Scope<'a>],
    world: usize,
) -> Result<FlatWorld<'a>, Spot> {
    let rows = include_rows(alloc, scopes)?;
    let order = order_of(alloc, &rows, world)?;
    let worlds = list_of(alloc, &order)?;
    let uses = count_uses(alloc, &order, &rows)?;
    let mut made = Made {
        order,
        uses,
        flats: Vec::new(alloc),
    };
    make_all(alloc, &mut made, scopes, &worlds)?;
    match made.flats.pop() {
        Some(flat) => Ok(FlatWorld { flat, worlds }),
        None => Err(Spot::MEMORY),
    }
}
