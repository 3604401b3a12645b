//! The interfaces and worlds of a project, with to what their paths lead.

use crate::adding::put;
use crate::directory::{Directory, Kind};
use crate::entry::{Entry, Scope, What};
use crate::fault::Spot;
use crate::places::PathPlace;
use cm_types::Label;
use cm_wit_projects::{Body, Declared, is_there};
use cm_wit_projects_reading::{
    Gated, InterfaceItem, PlacedGate, ResourceItem, TypeItem, WorldExtern, WorldItem,
};
use std::alloc::{AllocError, Global};

/// What is needed to make scopes: the directory, and the features that are wanted.
#[derive(Clone, Copy)]
struct Making<'m, 'a> {
    directory: &'m Directory<'a>,
    features: &'m [&'m str],
}

/// An interface in place that waits to be made: its items, and the scope around it.
#[derive(Clone, Copy)]
struct Waiting<'a> {
    unit: usize,
    declared: usize,
    there: bool,
    items: &'a [Gated<InterfaceItem>],
}

/// What stands before an item: its gates, and where it is.
#[derive(Clone, Copy)]
struct Head<'a> {
    gates: &'a [PlacedGate],
    unit: usize,
    left: usize,
    there: bool,
    exported: bool,
}

impl<'a> Head<'a> {
    fn with(self, what: What<'a>, target: Option<usize>) -> Entry<'a> {
        Entry {
            gates: self.gates,
            left: self.left,
            there: self.there,
            exported: self.exported,
            what,
            target,
        }
    }

    fn place(self) -> PathPlace {
        PathPlace {
            unit: self.unit,
            left: self.left,
        }
    }
}

/// What stands before a thing in a unit.
fn head_of<'a, T: Drop>(making: Making<'_, '_>, unit: usize, gated: &'a Gated<T>) -> Head<'a> {
    Head {
        gates: &gated.gates,
        unit,
        left: gated.left,
        there: is_there(&gated.gates, making.features),
        exported: false,
    }
}

/// Adds the functions of a resource, which is there or not.
fn add_methods<'a>(
    out: &mut Vec<Entry<'a>>,
    making: Making<'_, '_>,
    around: Head<'a>,
    resource: &'a Label,
    methods: &'a [Gated<ResourceItem>],
) -> Result<(), AllocError> {
    for method in methods {
        let own = head_of(making, around.unit, method);
        let there = around.there && own.there;
        let head = Head { there, ..own };
        put(out, head.with(What::Method(resource, &method.item), None))?;
    }
    Ok(())
}

/// Adds a type with the functions that it has.
fn add_type<'a>(
    out: &mut Vec<Entry<'a>>,
    making: Making<'_, '_>,
    head: Head<'a>,
    name: &'a Label,
    item: &'a TypeItem,
) -> Result<(), AllocError> {
    put(out, head.with(What::Type(name, item), None))?;
    match item {
        TypeItem::Def(_) => Ok(()),
        TypeItem::Resource(methods) => add_methods(out, making, head, name, methods),
    }
}

/// Adds an item of an interface of a unit.
fn add_interface_item<'a>(
    alloc: Global,
    out: &mut Vec<Entry<'a>>,
    making: Making<'_, 'a>,
    unit: usize,
    gated: &'a Gated<InterfaceItem>,
) -> Result<(), Spot> {
    let head = head_of(making, unit, gated);
    match &gated.item {
        InterfaceItem::Use(used) => {
            let directory = making.directory;
            let target = directory.target(alloc, head.place(), &used.path, Kind::Interface)?;
            put(out, head.with(What::Use(used), Some(target)))?;
        }
        InterfaceItem::Type(name, item) => add_type(out, making, head, name, item)?,
        InterfaceItem::Func(name, func) => put(out, head.with(What::Func(name, func), None))?,
    }
    Ok(())
}

/// The items of an interface of a unit.
fn interface_entries<'a>(
    alloc: Global,
    making: Making<'_, 'a>,
    unit: usize,
    items: &'a [Gated<InterfaceItem>],
) -> Result<Vec<Entry<'a>>, Spot> {
    let mut out = Vec::new(alloc);
    for gated in items {
        add_interface_item(alloc, &mut out, making, unit, gated)?;
    }
    Ok(out)
}

/// Adds an import or an export of a world; an interface in place, whose scope will have the number
/// `next`, waits.
fn add_extern<'a>(
    alloc: Global,
    out: &mut Vec<Entry<'a>>,
    making: Making<'_, 'a>,
    head: Head<'a>,
    what: &'a WorldExtern,
    next: usize,
) -> Result<(), Spot> {
    match what {
        WorldExtern::Path(path) => {
            let directory = making.directory;
            let target = directory.target(alloc, head.place(), path, Kind::Interface)?;
            put(out, head.with(What::Path(path), Some(target)))?;
        }
        WorldExtern::Func(name, func) => put(out, head.with(What::Func(name, func), None))?,
        WorldExtern::Interface(name, _) => put(out, head.with(What::Inner(name, next), None))?,
    }
    Ok(())
}

/// Adds an item of a world of a unit; an interface in place will have the number `next`.
fn add_world_item<'a>(
    alloc: Global,
    out: &mut Vec<Entry<'a>>,
    making: Making<'_, 'a>,
    head: Head<'a>,
    item: &'a WorldItem,
    next: usize,
) -> Result<(), Spot> {
    let directory = making.directory;
    match item {
        WorldItem::Import(what) => add_extern(alloc, out, making, head, what, next),
        WorldItem::Export(what) => {
            let exported = true;
            add_extern(alloc, out, making, Head { exported, ..head }, what, next)
        }
        WorldItem::Use(used) => {
            let target = directory.target(alloc, head.place(), &used.path, Kind::Interface)?;
            put(out, head.with(What::Use(used), Some(target)))?;
            Ok(())
        }
        WorldItem::Type(name, item) => {
            add_type(out, making, head, name, item)?;
            Ok(())
        }
        WorldItem::Include(include) => {
            let target = directory.target(alloc, head.place(), &include.path, Kind::World)?;
            put(out, head.with(What::Include(include), Some(target)))?;
            Ok(())
        }
    }
}

/// The items of the interface in place that an item of a world is.
fn inner_of(item: &WorldItem) -> Option<&[Gated<InterfaceItem>]> {
    match item {
        WorldItem::Import(WorldExtern::Interface(_, items)) => Some(items),
        WorldItem::Export(WorldExtern::Interface(_, items)) => Some(items),
        _ => None,
    }
}

/// The items of a world; what it has in place waits, behind what waits already, and gets numbers
/// from `first` on with them.
fn world_entries<'a>(
    alloc: Global,
    making: Making<'_, 'a>,
    around: Waiting<'a>,
    items: &'a [Gated<WorldItem>],
    first: usize,
    waiting: &mut Vec<Waiting<'a>>,
) -> Result<Vec<Entry<'a>>, Spot> {
    let mut out = Vec::new(alloc);
    for gated in items {
        let next = first.saturating_add(waiting.len());
        let head = head_of(making, around.unit, gated);
        add_world_item(alloc, &mut out, making, head, &gated.item, next)?;
        if let Some(items) = inner_of(&gated.item) {
            let there = around.there && head.there;
            put(
                waiting,
                Waiting {
                    items,
                    there,
                    ..around
                },
            )?;
        }
    }
    Ok(out)
}

/// The items of an interface or a world.
fn entries_of<'a>(
    alloc: Global,
    making: Making<'_, 'a>,
    around: Waiting<'a>,
    body: Body<'a>,
    first: usize,
    waiting: &mut Vec<Waiting<'a>>,
) -> Result<Vec<Entry<'a>>, Spot> {
    match body {
        Body::Interface(interface) => {
            interface_entries(alloc, making, around.unit, &interface.items)
        }
        Body::World(world) => world_entries(alloc, making, around, &world.items, first, waiting),
    }
}

/// The scope of an interface or a world.
fn scope_of<'a>(
    alloc: Global,
    making: Making<'_, 'a>,
    number: usize,
    declared: &Declared<'a>,
    first: usize,
    waiting: &mut Vec<Waiting<'a>>,
) -> Result<Scope<'a>, Spot> {
    let around = Waiting {
        unit: declared.unit,
        declared: number,
        there: is_there(declared.gates, making.features),
        items: &[],
    };
    let entries = entries_of(alloc, making, around, declared.body, first, waiting)?;
    Ok(Scope {
        unit: declared.unit,
        declared: number,
        is_world: matches!(declared.body, Body::World(_)),
        there: around.there,
        entries,
    })
}

/// Adds the scopes of interfaces in place.
fn add_waiting<'a>(
    alloc: Global,
    out: &mut Vec<Scope<'a>>,
    making: Making<'_, 'a>,
    waiting: &[Waiting<'a>],
) -> Result<(), Spot> {
    for inner in waiting {
        let entries = interface_entries(alloc, making, inner.unit, inner.items)?;
        let scope = Scope {
            unit: inner.unit,
            declared: inner.declared,
            is_world: false,
            there: inner.there,
            entries,
        };
        put(out, scope)?;
    }
    Ok(())
}

/// The interfaces and worlds of a directory, each with its number, and behind them the interfaces
/// in place; with to what their paths lead, and whether gates let things be there, where these
/// features are wanted. Faults are those of `Directory::target`, at the first such path.
pub fn scopes_of<'a>(
    alloc: Global,
    directory: &Directory<'a>,
    features: &[&str],
) -> Result<Vec<Scope<'a>>, Spot> {
    let making = Making {
        directory,
        features,
    };
    let first = directory.declared.len();
    let mut waiting = Vec::new(alloc);
    let mut out = Vec::new(alloc);
    for (number, declared) in directory.declared.iter().enumerate() {
        let scope = scope_of(alloc, making, number, declared, first, &mut waiting)?;
        put(&mut out, scope)?;
    }
    add_waiting(alloc, &mut out, making, &waiting)?;
    Ok(out)
}
