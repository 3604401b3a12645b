//! Whether gates may stand, and whether what is there names what is there.

use crate::adding::put;
use crate::directory::Directory;
use crate::entry::{Entry, Scope, What};
use crate::fault::Spot;
use crate::mention::{Mention, Role};
use crate::mentions::mentions_of;
use crate::types::KnownTypes;
use cm_wit_projects::{Unit, first_bad_gate};
use cm_wit_projects_reading::{Kept, PackageName, PlacedGate, ResourceItem, TypeItem};
use cm_wit_tokens::WitReason;
use semver::Version;
use std::alloc::{AllocError, Global};

/// The version of a package, if it has one.
fn version_of(alloc: Global, name: &PackageName) -> Result<Option<Version>, AllocError> {
    match &name.version {
        None => Ok(None),
        Some(text) => match Version::parse(alloc, text.as_str()) {
            Ok(version) => Ok(Some(version)),
            Err(_) => Err(AllocError),
        },
    }
}

/// The versions of the packages of units.
fn versions_of(alloc: Global, units: &[Unit<'_>]) -> Result<Vec<Option<Version>>, AllocError> {
    let mut out = Vec::new(alloc);
    for unit in units {
        put(&mut out, version_of(alloc, unit.name)?)?;
    }
    Ok(out)
}

/// The fault at a token.
fn token_spot(unit: usize, left: usize, reason: WitReason) -> Spot {
    Spot {
        unit,
        left,
        name: None,
        reason,
    }
}

/// Checks the gates of a thing in a unit.
fn check_gates(
    alloc: Global,
    versions: &[Option<Version>],
    unit: usize,
    gates: &[PlacedGate],
) -> Result<(), Spot> {
    let Some(version) = versions.get(unit) else {
        return Ok(());
    };
    match first_bad_gate(alloc, version, gates)? {
        Some(left) => Err(token_spot(unit, left, WitReason::Unexpected)),
        None => Ok(()),
    }
}

/// Checks the gates of the items of a scope.
fn check_entries(
    alloc: Global,
    versions: &[Option<Version>],
    scope: &Scope<'_>,
) -> Result<(), Spot> {
    for entry in &scope.entries {
        check_gates(alloc, versions, scope.unit, entry.gates)?;
    }
    Ok(())
}

/// Checks the gates of interfaces and worlds.
fn check_declared(
    alloc: Global,
    versions: &[Option<Version>],
    directory: &Directory<'_>,
) -> Result<(), Spot> {
    for declared in &directory.declared {
        check_gates(alloc, versions, declared.unit, declared.gates)?;
    }
    Ok(())
}

/// Checks that gates may stand where they do: `Unexpected` comes at the first that may not.
/// (WIT.md, "Feature Gates")
pub fn check_all_gates(
    alloc: Global,
    units: &[Unit<'_>],
    directory: &Directory<'_>,
    scopes: &[Scope<'_>],
) -> Result<(), Spot> {
    let versions = versions_of(alloc, units)?;
    check_declared(alloc, &versions, directory)?;
    for scope in scopes {
        check_entries(alloc, &versions, scope)?;
    }
    Ok(())
}

/// How many bytes of the text are left from the form on that an item has and that is left out, if
/// it has one.
fn left_out(entry: &Entry<'_>) -> Option<usize> {
    match entry.what {
        What::Type(_, TypeItem::Def(Kept::LeftOut(left))) => Some(*left),
        What::Func(_, Kept::LeftOut(left)) => Some(*left),
        What::Method(_, ResourceItem::LeftOut { left, .. }) => Some(*left),
        _ => None,
    }
}

/// The last name of the path of an item.
fn path_end(mentions: &[Mention<'_>]) -> usize {
    let mut last: usize = 0;
    for (number, mention) in mentions.iter().enumerate() {
        if mention.role == Role::Path {
            last = number;
        }
    }
    last
}

/// Whether a name of an item stands for a type that is not there.
fn is_gone<'a>(
    types: &KnownTypes<'a>,
    number: usize,
    entry: &Entry<'a>,
    mention: Mention<'a>,
) -> bool {
    let place = match (mention.role, entry.target) {
        (Role::Used, Some(target)) => types.rows.find(target, mention.name),
        (Role::Named | Role::Answered | Role::Borrowed, _) => {
            types.rows.find(number, mention.name)
        }
        _ => None,
    };
    match place {
        Some(place) => !types.is_there(place),
        None => false,
    }
}

/// The first name of an item that stands for a type that is not there.
fn first_gone<'a>(
    types: &KnownTypes<'a>,
    number: usize,
    entry: &Entry<'a>,
    mentions: &[Mention<'a>],
) -> Option<usize> {
    for (name, mention) in mentions.iter().enumerate() {
        if is_gone(types, number, entry, *mention) {
            return Some(name);
        }
    }
    None
}

/// Whether the interface or world to which the path of an item leads is there.
fn has_target(scopes: &[Scope<'_>], entry: &Entry<'_>) -> bool {
    match entry.target {
        Some(target) => match scopes.get(target) {
            Some(scope) => scope.there,
            None => false,
        },
        None => true,
    }
}

/// Checks an item that is there, of the scope of this number.
fn check_there<'a>(
    alloc: Global,
    types: &KnownTypes<'a>,
    scopes: &[Scope<'a>],
    number: usize,
    unit: usize,
    entry: &Entry<'a>,
) -> Result<(), Spot> {
    if let Some(left) = left_out(entry) {
        return Err(token_spot(unit, left, WitReason::Unsupported));
    }
    let mentions = mentions_of(alloc, entry)?;
    let name = if has_target(scopes, entry) {
        first_gone(types, number, entry, &mentions)
    } else {
        Some(path_end(&mentions))
    };
    match name {
        Some(_) => Err(Spot {
            unit,
            left: entry.left,
            name,
            reason: WitReason::UnknownName,
        }),
        None => Ok(()),
    }
}

/// Checks the items of a scope that are there.
fn check_scope<'a>(
    alloc: Global,
    types: &KnownTypes<'a>,
    scopes: &[Scope<'a>],
    number: usize,
    scope: &Scope<'a>,
) -> Result<(), Spot> {
    for entry in &scope.entries {
        if entry.there {
            check_there(alloc, types, scopes, number, scope.unit, entry)?;
        }
    }
    Ok(())
}

/// Checks that what gates let be there names nothing that they take away (`UnknownName`, at the
/// name), and has no form that is left out (`Unsupported`, at its word).
pub fn check_reached<'a>(
    alloc: Global,
    types: &KnownTypes<'a>,
    scopes: &[Scope<'a>],
) -> Result<(), Spot> {
    for (number, scope) in scopes.iter().enumerate() {
        if scope.there {
            check_scope(alloc, types, scopes, number, scope)?;
        }
    }
    Ok(())
}
