//! What packages write, as a law: the function here does nothing, and its contract is the law.

ghost use Rattle.cm_wit_signature.specs.Files.{IsWrittenFile};
ghost use Rattle.cm_wit_package.specs.PackageViews.{package_tree};

use crate::spellable_laws::what_texts_write;
use cm_wit_package::Package;

/// In a package no tuple, record, variant, enum or flags type is empty, each list of fixed length
/// has an element or more, and each flags type has 32 labels at most (WIT.md, "Item: `ty`" and
/// "Item: `type`"): so `what_it_stands_for` holds of all that it declares.
pub fn packages_are_written(wit: &Package)
    ensures { ∥ IsWrittenFile (package_tree wit.now) ∥₁ }
{
    what_texts_write();
}
