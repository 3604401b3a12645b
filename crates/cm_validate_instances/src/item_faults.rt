//! Why the names of items are refused.

ghost use Rattle.std.specs.Prelude.{◌≡◌, IfOk, map};
ghost use Rattle.cm_validate_model.specs.Reasons.{least};
ghost use Rattle.cm_validate_instances.specs.Names.{item_name_faults};
ghost use Rattle.cm_validate_instances.specs.ItemSketches.{sketch_named};

use crate::item_sketches::NamedSketch;
use crate::names::are_all_well_named;
use cm_validate_model::ValidReason;
use cm_validate_model::laws::least_of_both;
use cm_validate_types::{broken_unless, lesser, names_are_distinct};
use std::alloc::{AllocError, Global};

/// The names of items, in order.
fn names<'a>(alloc: Global, items: &'a [NamedSketch]) -> Result<Vec<&'a str>, AllocError>
    ensures { IfOk result (λ names.
        map (λ n. n.now) names.items ≡ map (λ i. i.name) items.now) }
{
    let mut names = Vec::new(alloc);
    for item in items {
        names.push(item.name.as_str())?;
    }
    Ok(names)
}

/// Why the names of an instance's items are refused, by sketches of the items: `DuplicateName`
/// where two are the same without ASCII case, else `BadAnnotatedName` where one is none that its
/// item may have, else nothing (Explainer.md, "Import and Export Definitions").
///
/// Each name is folded once, and found by a map. `AllocError` comes where there is no memory.
pub fn item_names_fault(
    alloc: Global,
    items: &[NamedSketch],
) -> Result<Option<ValidReason>, AllocError>
    ensures { IfOk result (λ r. r ≡ least (item_name_faults (map sketch_named items.now))) }
{
    least_of_both();
    let names = names(alloc, items)?;
    let distinct = names_are_distinct(alloc, &names)?;
    let named = are_all_well_named(alloc, items)?;
    let twice = broken_unless(distinct, ValidReason::DuplicateName);
    Ok(lesser(twice, broken_unless(named, ValidReason::BadAnnotatedName)))
}
