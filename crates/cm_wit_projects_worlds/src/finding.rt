//! Worlds by their names.

use cm_types::Version;
use cm_wit_projects::{Body, Declared, Unit};
use cm_wit_projects_names::Names;
use std::alloc::{AllocError, Global};

/// The full name of a declaration of a unit: `namespace:package/name@version`. Refused only where
/// there is no memory.
pub fn full_name(
    alloc: Global,
    unit: &Unit<'_>,
    declared: &Declared<'_>,
) -> Result<String, AllocError> {
    let mut out = String::from_str(alloc, unit.name.namespace.as_str())?;
    out.push_str(":")?;
    out.push_str(unit.name.name.as_str())?;
    out.push_str("/")?;
    out.push_str(declared.body.name().as_str())?;
    add_version(&mut out, &unit.name.version)?;
    Ok(out)
}

fn add_version(out: &mut String, version: &Option<Version>) -> Result<(), AllocError> {
    if let Some(version) = version {
        out.push_str("@")?;
        out.push_str(version.as_str())?;
    }
    Ok(())
}

/// Whether a world of a unit has a name: its full name, or, in the project's own package, its name
/// alone.
fn has_name(
    alloc: Global,
    unit: &Unit<'_>,
    is_own: bool,
    declared: &Declared<'_>,
    name: &str,
) -> Result<bool, AllocError> {
    if is_own && declared.body.name().as_str() == name {
        return Ok(true);
    }
    let full = full_name(alloc, unit, declared)?;
    Ok(full.as_str() == name)
}

/// Whether a declaration is a world.
fn is_world(declared: &Declared<'_>) -> bool {
    matches!(declared.body, Body::World(_))
}

/// The number of the world of a full name, or of a name alone in the project's own package, that of
/// the first unit; none where there is no such world, or gates take it away. It takes time linear
/// in the names. Refused only where there is no memory.
pub fn find_world(
    alloc: Global,
    units: &[Unit<'_>],
    names: &Names<'_>,
    name: &str,
) -> Result<Option<usize>, AllocError> {
    let packages = &names.directory.packages;
    for (number, declared) in names.directory.declared.iter().enumerate() {
        let there = names.scopes.get(number).is_some_and(|scope| scope.there);
        if !is_world(declared) || !there {
            continue;
        }
        if let Some(unit) = units.get(declared.unit) {
            let is_own = packages.of_unit(declared.unit) == packages.of_unit(0);
            if has_name(alloc, unit, is_own, declared, name)? {
                return Ok(Some(number));
            }
        }
    }
    Ok(None)
}

/// The full names of the worlds of the project's own package, in order, but for those that gates
/// take away. Refused only where there is no memory.
pub fn world_names(
    alloc: Global,
    units: &[Unit<'_>],
    names: &Names<'_>,
) -> Result<Vec<String>, AllocError> {
    let packages = &names.directory.packages;
    let mut found = Vec::new(alloc);
    for (number, declared) in names.directory.declared.iter().enumerate() {
        let there = names.scopes.get(number).is_some_and(|scope| scope.there);
        let is_own = packages.of_unit(declared.unit) == packages.of_unit(0);
        if !is_world(declared) || !there || !is_own {
            continue;
        }
        if let Some(unit) = units.get(declared.unit) {
            found.push(full_name(alloc, unit, declared)?)?;
        }
    }
    Ok(found)
}
