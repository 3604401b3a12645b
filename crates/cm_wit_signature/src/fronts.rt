//! The fronts of the names of what worlds import and export.

ghost use Rattle.std.specs.Prelude.{◌≡◌, IfOk};
ghost use Rattle.cm_wit_reading.specs.Views.{file_tree};
ghost use Rattle.cm_wit_worlds.specs.InterfaceViews.{files_of};
ghost use Rattle.cm_wit_signature.specs.PackageFronts.{package_front, package_fronts};

use cm_types_arena::{Front, PackageName};
use cm_wit_reading::WitFile;
use std::alloc::{AllocError, Global};

/// The front of the names of a package's interfaces.
fn package_front(alloc: Global, file: &WitFile) -> Result<Front, AllocError>
    ensures { IfOk result (λ front. front ≡ package_front (file_tree file.now)) }
{
    let version = match &file.version {
        Some(version) => Some(version.as_str()),
        None => None,
    };
    let name = PackageName::new(alloc, &file.namespace, &file.package, version)?;
    Ok(Front::Interface(name))
}

/// The front of names that are labels alone, and behind it those of the names of each package's
/// interfaces. Refused only where there is no memory. It takes time and memory linear in the
/// number of packages and in the texts of their versions.
pub fn package_fronts(alloc: Global, files: &[&WitFile]) -> Result<Vec<Front>, AllocError>
    ensures { IfOk result (λ fronts. fronts.items ≡ package_fronts (files_of files.now)) }
{
    let mut fronts = Vec::new(alloc);
    fronts.push(Front::Plain)?;
    for file in files {
        fronts.push(package_front(alloc, file)?)?;
    }
    Ok(fronts)
}
