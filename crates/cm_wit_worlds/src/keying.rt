//! The keys by which packages and interfaces are found.

ghost use Rattle.std.specs.Prelude.{◌≡◌, IfOk, map};
ghost use Rattle.std.specs.String.{string_bytes};
ghost use Rattle.cm_names.specs.Keys.{key_view};
ghost use Rattle.cm_wit_worlds.specs.Interfaces.{interface_key, package_name};
ghost use Rattle.cm_wit_worlds.specs.InterfaceViews.{files_of, placed_interface};

use crate::placed::PlacedInterface;
use crate::texts::package_name;
use cm_wit_reading::WitFile;
use std::alloc::{AllocError, Global};

/// The names of packages, with their versions. Refused only where there is no memory.
#[tactic(auto, using(crate::proofs::KeyingLaws::map_laws))]
pub fn package_names(alloc: Global, files: &[&WitFile]) -> Result<Vec<String>, AllocError>
    ensures { IfOk result (λ v.
        map string_bytes v.items ≡ map package_name (files_of files.now)) }
{
    let mut names = Vec::new(alloc);
    for file in files {
        names.push(package_name(alloc, *file)?)?;
    }
    Ok(names)
}

/// The keys of packages with these names.
#[tactic(auto, using(crate::proofs::KeyingLaws::map_laws))]
pub fn package_keys<'a>(
    alloc: Global,
    names: &'a [String],
) -> Result<Vec<(usize, &'a str)>, AllocError>
    ensures { IfOk result (λ v.
        map key_view v.items ≡ map (λ text. (0, string_bytes text)) names.now) }
{
    let mut keys = Vec::new(alloc);
    for name in names {
        keys.push((0, name.as_str()))?;
    }
    Ok(keys)
}

/// The keys of interfaces.
#[tactic(auto, using(crate::proofs::KeyingLaws::map_laws))]
pub fn interface_keys<'a>(
    alloc: Global,
    interfaces: &[PlacedInterface<'a>],
) -> Result<Vec<(usize, &'a str)>, AllocError>
    ensures { IfOk result (λ v.
        map key_view v.items ≡ map interface_key (map placed_interface interfaces.now)) }
{
    let mut keys = Vec::new(alloc);
    for placed in interfaces {
        keys.push((placed.place, placed.interface.name.as_str()))?;
    }
    Ok(keys)
}
