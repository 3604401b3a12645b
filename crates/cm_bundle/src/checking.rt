//! Whether exports are of earlier parts.

ghost use Rattle.std.specs.Prelude.{◌↔◌, IsTrue, map};
ghost use Rattle.std.specs.List.{AllByRecursion};
ghost use Rattle.cm_bundle.specs.Spelled.{IsSupply};
ghost use Rattle.cm_bundle.specs.Trees.{supply_tree};

use crate::form::Supply;

/// Whether this is of one of the first `parts` parts.
fn is_earlier(supply: &Supply<'_>, parts: usize) -> bool
    ensures { IsTrue result ↔ IsSupply parts (supply_tree supply.now) }
{
    // A text is UTF-8, which is known of it once its bytes are read.
    let _name = supply.name.as_bytes();
    let _export = supply.export.name.as_bytes();
    supply.export.part < parts
}

/// Whether each is of one of the first `parts` parts.
pub fn are_earlier(supplies: &[Supply<'_>], parts: usize) -> bool
    ensures { IsTrue result ↔ AllByRecursion (IsSupply parts) (map supply_tree supplies.now) }
{
    for supply in supplies {
        if !is_earlier(supply, parts) {
            return false;
        }
    }
    true
}
