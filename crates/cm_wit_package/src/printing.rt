//! Printing packages.

ghost use Rattle.std.specs.Prelude.{◌≡◌, IfOk};
ghost use Rattle.std.specs.String.{string_bytes};
ghost use Rattle.cm_wit_package.specs.Printed.{file_text};
ghost use Rattle.cm_wit_package.specs.PackageViews.{package_tree};
ghost use Rattle.cm_wit_package.specs.Texts.{IsPackage};

use crate::laws::printed_and_parsed;
use crate::package::Package;
use crate::print_file;
use std::alloc::{AllocError, Global};

/// The text that prints a package: a declaration a line, two blanks a level, no comments, and `%`
/// before a name that is a keyword. `parse` reads it as the package again. Refused only where there
/// is no memory.
pub fn print(alloc: Global, wit: &Package) -> Result<String, AllocError>
    ensures text { IfOk result (λ text. string_bytes text ≡ file_text (package_tree wit.now)) }
    ensures package { IfOk result (λ text.
        ∥ IsPackage (string_bytes text) (package_tree wit.now) ∥₁) }
{
    printed_and_parsed();
    print_file(alloc, wit.file())
}
