//! The interfaces and worlds of a project, and the names of its files.

ghost use Rattle.std.specs.Prelude.{◌≡◌, ◌++◌, IfOk, OnOk, map};
ghost use Rattle.std.specs.List.{filter_map};
ghost use Rattle.std.specs.Option.{option_map};
ghost use Rattle.cm_wit_projects_reading.specs.Views.{top_use_tree};
ghost use Rattle.cm_wit_projects.specs.Listed.{body_of, declared, declared_as};
ghost use Rattle.cm_wit_projects.specs.Listed.{named_as, named_from, named_path, path_name};
ghost use Rattle.cm_wit_projects.specs.Listed.{used_at_top};
ghost use Rattle.cm_wit_projects.specs.ListedViews.{body_view, declared_view, named_path_view};
ghost use Rattle.cm_wit_projects.specs.Views.{item_view, unit_view};
ghost use Rattle.cm_wit_projects_reading.specs.Views.{package_item_tree};
ghost use Rattle.cm_wit_reading.specs.SignatureViews.{path_tree};

use crate::units::{ItemRef, Unit};
use cm_types::Label;
use cm_wit_projects_reading::{Interface, PackageItem, PlacedGate, TopUse, World};
use cm_wit_reading::Path;
use std::alloc::{AllocError, Global};

/// An interface or a world.
#[derive(Clone, Copy)]
pub enum Body<'a> {
    Interface(&'a Interface),
    World(&'a World),
}

/// An interface or a world, with the number of its unit, its gates, and how many bytes of the text
/// are left from it on.
#[derive(Clone, Copy)]
pub struct Declared<'a> {
    pub unit: usize,
    pub gates: &'a [PlacedGate],
    pub left: usize,
    pub body: Body<'a>,
}

/// The name that a use at the top gives in its unit, and its path.
#[derive(Clone, Copy)]
pub struct NamedPath<'a> {
    pub unit: usize,
    pub name: &'a Label,
    pub path: &'a Path,
}

impl<'a> Body<'a> {
    ghost use Rattle.std.specs.Prelude.{◌≡◌};
    ghost use Rattle.cm_wit_projects.specs.Listed.{body_name};
    ghost use Rattle.cm_wit_projects.specs.ListedViews.{body_view};

    /// The name of the interface or the world.
    pub fn name(self) -> &'a Label
        ensures { result.now ≡ body_name (body_view self.entry) }
    {
        match self {
            Body::Interface(interface) => &interface.name,
            Body::World(world) => &world.name,
        }
    }
}

/// The interface or the world that an item is.
fn body_of(item: &PackageItem) -> Option<Body<'_>>
    ensures { option_map body_view result ≡ body_of (package_item_tree item.now) }
{
    match item {
        PackageItem::Use(_) => None,
        PackageItem::Interface(interface) => Some(Body::Interface(interface)),
        PackageItem::World(world) => Some(Body::World(world)),
    }
}

/// The interface or the world that an item of a unit is.
fn declared_as<'a>(unit: usize, item: ItemRef<'a>) -> Option<Declared<'a>>
    ensures { option_map declared_view result ≡ declared_as unit (item_view item.entry) }
{
    match body_of(item.item) {
        Some(body) => Some(Declared {
            unit,
            gates: item.gates,
            left: item.left,
            body,
        }),
        None => None,
    }
}

/// Adds the interfaces and worlds of a unit.
#[tactic(auto, using(crate::proofs::PackageLaws::find_laws))]
fn add_declared<'a>(
    out: &mut Vec<Declared<'a>>,
    unit: usize,
    items: &[ItemRef<'a>],
) -> Result<(), AllocError>
    ensures { OnOk result (map declared_view out.new.items ≡ map declared_view out.old.items
        ++ filter_map (declared_as unit) (map item_view items.now)) }
{
    for item in items {
        if let Some(declared) = declared_as(unit, *item) {
            out.push(declared)?;
        }
    }
    Ok(())
}

/// The interfaces and worlds of units, in order. Refused only where there is no memory.
#[tactic(auto, using(crate::proofs::PackageLaws::list_laws))]
pub fn declared_in<'a>(alloc: Global, units: &[Unit<'a>]) -> Result<Vec<Declared<'a>>, AllocError>
    ensures { IfOk result (λ v.
        map declared_view v.items ≡ declared (map unit_view units.now)) }
{
    let mut out = Vec::new(alloc);
    for (number, unit) in units.iter().enumerate() {
        add_declared(&mut out, number, &unit.items)?;
    }
    Ok(out)
}

/// The last name of a path.
fn path_name(path: &Path) -> &Label
    ensures { result.now ≡ path_name (path_tree path.now) }
{
    match path {
        Path::Local(name) => name,
        Path::Foreign { interface, .. } => interface,
    }
}

/// The name that a use at the top of a unit gives, and its path.
fn named_path(unit: usize, used: &TopUse) -> NamedPath<'_>
    ensures { named_path_view result ≡ named_path unit (top_use_tree used.now) }
{
    let name = match &used.new_name {
        Some(name) => name,
        None => path_name(&used.path),
    };
    NamedPath {
        unit,
        name,
        path: &used.path,
    }
}

/// The use at the top that an item is.
fn used_at_top(item: &PackageItem) -> Option<&TopUse>
    ensures { option_map (λ u. top_use_tree u.now) result
        ≡ used_at_top (package_item_tree item.now) }
{
    match item {
        PackageItem::Use(used) => Some(used),
        PackageItem::Interface(_) | PackageItem::World(_) => None,
    }
}

/// The name that an item of a unit gives, where it is a use at the top.
fn named_as<'a>(unit: usize, item: ItemRef<'a>) -> Option<NamedPath<'a>>
    ensures { option_map named_path_view result ≡ named_as unit (item_view item.entry) }
{
    match used_at_top(item.item) {
        Some(used) => Some(named_path(unit, used)),
        None => None,
    }
}

/// Adds the names that uses at the top of a unit give.
#[tactic(auto, using(crate::proofs::PackageLaws::find_laws))]
fn add_named<'a>(
    out: &mut Vec<NamedPath<'a>>,
    unit: usize,
    items: &[ItemRef<'a>],
) -> Result<(), AllocError>
    ensures { OnOk result (map named_path_view out.new.items ≡ map named_path_view out.old.items
        ++ filter_map (named_as unit) (map item_view items.now)) }
{
    for item in items {
        if let Some(named) = named_as(unit, *item) {
            out.push(named)?;
        }
    }
    Ok(())
}

/// The names that uses at the top of units give, in order. Refused only where there is no memory.
#[tactic(auto, using(crate::proofs::PackageLaws::list_laws))]
pub fn named_in<'a>(alloc: Global, units: &[Unit<'a>]) -> Result<Vec<NamedPath<'a>>, AllocError>
    ensures { IfOk result (λ v.
        map named_path_view v.items ≡ named_from 0 (map unit_view units.now)) }
{
    let mut out = Vec::new(alloc);
    for (number, unit) in units.iter().enumerate() {
        add_named(&mut out, number, &unit.items)?;
    }
    Ok(out)
}
