//! The resources of an instance by name.

ghost use Rattle.std.specs.Prelude.{◌≡◌, ℕ, List, IfOk, OnOk, Some, cond, map};
ghost use Rattle.std.specs.BTreeMap.{get_by_text};
ghost use Rattle.std.specs.Str.{bytes_eq};
ghost use Rattle.cm_validate_instances.specs.Names.{AreResources};
ghost use Rattle.cm_validate_instances.specs.ItemSketches.{resource_sketched, sketch_named};

use crate::item_sketches::NamedSketch;
use cm_types::ResourceId;
use std::alloc::{AllocError, Global};
use std::collections::BTreeMap;

/// Puts an item under its name, in place of what stood there.
fn put(
    alloc: Global,
    resources: &mut BTreeMap<String, Option<ResourceId>>,
    item: &NamedSketch,
) -> Result<(), AllocError>
    ensures { OnOk result ((q : List ℕ) → get_by_text resources.new q
        ≡ cond (bytes_eq item.now.name q) (Some (resource_sketched item.now.item))
        (get_by_text resources.old q)) }
{
    let key = String::from_str(alloc, item.name.as_str())?;
    resources.insert(key, item.item.resource())?;
    Ok(())
}

/// What stands under each name, the first of several under one: a resource, or none where it is no
/// resource. `AllocError` comes where there is no memory for them.
pub(crate) fn resources(
    alloc: Global,
    items: &[NamedSketch],
) -> Result<BTreeMap<String, Option<ResourceId>>, AllocError>
    ensures { IfOk result (λ resources.
        AreResources resources (map sketch_named items.now)) }
{
    let mut resources = BTreeMap::new(alloc);
    for index in (0..items.len()).rev() {
        put(alloc, &mut resources, &items[index])?;
    }
    Ok(resources)
}
