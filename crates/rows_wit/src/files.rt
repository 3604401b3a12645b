//! What packages spell.

ghost use Rattle.std.specs.Prelude.{◌≡◌, IfOk, map};
ghost use Rattle.cm_wit_package.specs.PackageViews.{package_tree};
ghost use Rattle.cm_wit_worlds.specs.InterfaceViews.{files_of};

use cm_wit_package::Package;
use cm_wit_reading::WitFile;
use std::alloc::{AllocError, Global};

/// The file of each package.
#[tactic(auto, using(crate::proofs::FileLaws::file_laws))]
pub fn package_files<'a>(
    alloc: Global,
    packages: &'a [Package],
) -> Result<Vec<&'a WitFile>, AllocError>
    ensures { IfOk result (λ v. files_of v.items ≡ map package_tree packages.now) }
{
    let mut files = Vec::new(alloc);
    for package in packages {
        files.push(package.file())?;
    }
    Ok(files)
}
