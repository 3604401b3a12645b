//! Interfaces, worlds and packages that lead to themselves.

use crate::adding::put;
use crate::directory::Directory;
use crate::entry::{Entry, Scope, What};
use crate::fault::Spot;
use crate::graphs::{first_on_cycle, is_marked, leading_to};
use cm_wit_tokens::WitReason;
use std::alloc::{AllocError, Global};

/// To what an interface or a world leads by an item without which it cannot be: a use or an
/// include.
fn needed(entry: &Entry<'_>) -> Option<usize> {
    match entry.what {
        What::Use(_) | What::Include(_) => entry.target,
        _ => None,
    }
}

/// Adds the edges of the items of a scope.
fn add_needs(out: &mut Vec<(usize, usize)>, scope: &Scope<'_>) -> Result<(), AllocError> {
    for entry in &scope.entries {
        if let Some(target) = needed(entry) {
            put(out, (scope.declared, target))?;
        }
    }
    Ok(())
}

/// The edges from interfaces and worlds to those which they cannot be without.
fn need_edges(alloc: Global, scopes: &[Scope<'_>]) -> Result<Vec<(usize, usize)>, AllocError> {
    let mut edges = Vec::new(alloc);
    for scope in scopes {
        add_needs(&mut edges, scope)?;
    }
    Ok(edges)
}

/// The first of the edges of a node that leads to a marked one.
fn first_marked(edges: &[(usize, usize)], node: usize, marks: &[bool]) -> Option<usize> {
    for (from, to) in edges {
        if *from == node && is_marked(marks, *to) {
            return Some(*to);
        }
    }
    None
}

/// The fault at the name of an interface or a world.
fn name_spot(directory: &Directory<'_>, number: usize) -> Option<Spot> {
    let declared = directory.declared.get(number)?;
    Some(Spot {
        unit: declared.unit,
        left: declared.left,
        name: Some(0),
        reason: WitReason::Cycle,
    })
}

/// Checks that no interface uses itself and no world includes itself, by way of others or not. Of
/// the first that does, `Cycle` comes at the name of the first that it leads to and that leads
/// back.
pub fn check_needs(
    alloc: Global,
    directory: &Directory<'_>,
    scopes: &[Scope<'_>],
) -> Result<(), Spot> {
    let edges = need_edges(alloc, scopes)?;
    let Some(node) = first_on_cycle(alloc, scopes.len(), &edges)? else {
        return Ok(());
    };
    let marks = leading_to(alloc, scopes.len(), &edges, &[node])?;
    let named = first_marked(&edges, node, &marks).unwrap_or(node);
    match name_spot(directory, named) {
        Some(spot) => Err(spot),
        None => Ok(()),
    }
}

/// The package of an interface or a world.
fn package_of(directory: &Directory<'_>, number: usize) -> Option<usize> {
    let declared = directory.declared.get(number)?;
    Some(directory.packages.of_unit(declared.unit))
}

/// Adds the edge from the package of a unit to that of an interface or a world, where it is another
/// one.
fn add_edge(
    out: &mut Vec<(usize, usize)>,
    directory: &Directory<'_>,
    unit: usize,
    target: Option<usize>,
) -> Result<(), AllocError> {
    let Some(number) = target else {
        return Ok(());
    };
    let from = directory.packages.of_unit(unit);
    match package_of(directory, number) {
        Some(to) if to != from => put(out, (from, to)),
        _ => Ok(()),
    }
}

/// Adds the edges of the paths of a scope.
fn add_paths(
    out: &mut Vec<(usize, usize)>,
    directory: &Directory<'_>,
    scope: &Scope<'_>,
) -> Result<(), AllocError> {
    for entry in &scope.entries {
        add_edge(out, directory, scope.unit, entry.target)?;
    }
    Ok(())
}

/// Adds the edges of the uses at the top.
fn add_tops(out: &mut Vec<(usize, usize)>, directory: &Directory<'_>) -> Result<(), AllocError> {
    for (place, target) in directory.places.iter().zip(&directory.targets) {
        add_edge(out, directory, place.unit, Some(*target))?;
    }
    Ok(())
}

/// The edges from packages to those into which their paths lead.
fn package_edges(
    alloc: Global,
    directory: &Directory<'_>,
    scopes: &[Scope<'_>],
) -> Result<Vec<(usize, usize)>, AllocError> {
    let mut edges = Vec::new(alloc);
    for scope in scopes {
        add_paths(&mut edges, directory, scope)?;
    }
    add_tops(&mut edges, directory)?;
    Ok(edges)
}

/// Whether a target is in another package than a node, and in a marked one.
fn leads_back(directory: &Directory<'_>, node: usize, marks: &[bool], target: usize) -> bool {
    match package_of(directory, target) {
        Some(package) => package != node && is_marked(marks, package),
        None => false,
    }
}

/// The first path of a scope that leads into a marked package.
fn path_in(
    directory: &Directory<'_>,
    scope: &Scope<'_>,
    node: usize,
    marks: &[bool],
) -> Option<Spot> {
    for entry in &scope.entries {
        if let Some(target) = entry.target {
            if leads_back(directory, node, marks, target) {
                return Some(Spot {
                    unit: scope.unit,
                    left: entry.left,
                    name: Some(0),
                    reason: WitReason::Cycle,
                });
            }
        }
    }
    None
}

/// The first use at the top of a package that leads into a marked one.
fn top_in(directory: &Directory<'_>, node: usize, marks: &[bool]) -> Option<Spot> {
    for (place, target) in directory.places.iter().zip(&directory.targets) {
        let own = directory.packages.of_unit(place.unit) == node;
        if own && leads_back(directory, node, marks, *target) {
            return Some(place.fault(0, WitReason::Cycle));
        }
    }
    None
}

/// The first path of a package that leads into a marked one.
fn path_back(
    directory: &Directory<'_>,
    scopes: &[Scope<'_>],
    node: usize,
    marks: &[bool],
) -> Option<Spot> {
    for scope in scopes {
        if directory.packages.of_unit(scope.unit) == node {
            if let Some(spot) = path_in(directory, scope, node, marks) {
                return Some(spot);
            }
        }
    }
    top_in(directory, node, marks)
}

/// Checks that no package leads to itself by way of others: of the first that does, `Cycle` comes
/// at the first path that leads back, of an item or else of a use at the top.
pub fn check_packages(
    alloc: Global,
    directory: &Directory<'_>,
    scopes: &[Scope<'_>],
) -> Result<(), Spot> {
    let count = directory.packages.count();
    let edges = package_edges(alloc, directory, scopes)?;
    let Some(node) = first_on_cycle(alloc, count, &edges)? else {
        return Ok(());
    };
    let marks = leading_to(alloc, count, &edges, &[node])?;
    match path_back(directory, scopes, node, &marks) {
        Some(spot) => Err(spot),
        None => Ok(()),
    }
}
