//! What the names of a project lead to.

use crate::cycles::{check_needs, check_packages};
use crate::directory::{Directory, directory_of};
use crate::distinct::{check_declared, check_distinct};
use crate::entry::Scope;
use crate::fault::Spot;
use crate::gates::{check_all_gates, check_reached};
use crate::scopes::scopes_of;
use crate::types::KnownTypes;
use cm_wit_projects::Unit;
use std::alloc::Global;

/// The interfaces and worlds of a project, with what their names lead to.
#[derive(Drop)]
pub struct Names<'a> {
    pub directory: Directory<'a>,
    /// The interfaces and worlds, by their numbers in the directory, and behind them the interfaces
    /// in place.
    pub scopes: Vec<Scope<'a>>,
}

/// Checks the names of scopes.
fn check_scopes<'a>(
    alloc: Global,
    units: &[Unit<'a>],
    directory: &Directory<'a>,
    scopes: &[Scope<'a>],
) -> Result<(), Spot> {
    check_packages(alloc, directory, scopes)?;
    check_needs(alloc, directory, scopes)?;
    let types = KnownTypes::new(alloc, scopes)?;
    crate::typing::check_types(alloc, &types, scopes)?;
    check_all_gates(alloc, units, directory, scopes)?;
    check_reached(alloc, &types, scopes)
}

/// The interfaces and worlds of units that passed `names_of` with these features.
///
/// Faults are those of paths alone, as by `names_of`. It takes time linear in the texts, with a
/// look-up for each path.
pub fn read_names<'a>(
    alloc: Global,
    units: &[Unit<'a>],
    features: &[&str],
) -> Result<Names<'a>, Spot> {
    let directory = directory_of(alloc, units)?;
    let scopes = scopes_of(alloc, &directory, features)?;
    Ok(Names { directory, scopes })
}

/// What the names of units lead to, where these features are wanted, or what is wrong first.
///
/// In this order: an interface or a world whose name stands twice (`Duplicate`); a path that leads
/// nowhere (`UnknownName`, or `Cycle` where one with a package leads into its own); another name
/// that stands twice (`Duplicate`); packages that lead to themselves, then interfaces and worlds
/// that do (`Cycle`); a name of a type that leads to none, or a borrow to no resource
/// (`UnknownName`), or a borrow in a result (`Unexpected`), and types that lead to themselves
/// (`Cycle`); a gate that may not stand (`Unexpected`); and what is there and names what gates take
/// away (`UnknownName`) or has a form that is left out (`Unsupported`). `Memory` comes where memory
/// is refused. It takes time linear in the texts, with a look-up for each name.
pub fn names_of<'a>(
    alloc: Global,
    units: &[Unit<'a>],
    features: &[&str],
) -> Result<Names<'a>, Spot> {
    check_declared(alloc, units)?;
    let names = read_names(alloc, units, features)?;
    check_distinct(alloc, units, &names.directory, &names.scopes)?;
    check_scopes(alloc, units, &names.directory, &names.scopes)?;
    Ok(names)
}
