//! The names of items.

ghost use Rattle.std.specs.Prelude.{◌≡◌, IfOk, List, map};
ghost use Rattle.cm_types.specs.ExternNameForms.{form_tree};
ghost use Rattle.cm_validate_instances.specs.Names.{AreResources, are_all_well_named};
ghost use Rattle.cm_validate_instances.specs.Names.{may_name_func};
ghost use Rattle.cm_validate_instances.specs.Names.{is_named_well, is_of, resource_found};
ghost use Rattle.cm_validate_instances.specs.ItemSketches.{SketchedItem, sketch_named};

use crate::item_sketches::{ItemSketch, NamedSketch};
use crate::resources::resources;
use crate::sketches::FuncSketch;
use cm_types::{ExternNameForm, ResourceId, same_resource};
use cm_validate_core::is_label;
use std::alloc::{AllocError, Global};
use std::collections::BTreeMap;

/// Whether it is this resource.
fn is_of(resource: ResourceId, found: Option<ResourceId>) -> bool
    ensures { result ≡ is_of resource found }
{
    match found {
        Some(other) => same_resource(resource, other),
        None => false,
    }
}

/// The resource under a name, if one stands there.
fn find(resources: &BTreeMap<String, Option<ResourceId>>, name: &str) -> Option<ResourceId>
    ensures { result ≡ resource_found resources.now name.now }
{
    match resources.get(name) {
        Some(resource) => *resource,
        None => None,
    }
}

/// Whether a function may have a name of this form, in an instance with these resources.
fn may_name_func(
    resources: &BTreeMap<String, Option<ResourceId>>,
    func: FuncSketch,
    form: ExternNameForm<'_>,
) -> bool
    ensures { (items : List SketchedItem) → AreResources resources.now items
        → result ≡ may_name_func items func (form_tree form.entry) }
{
    match form {
        ExternNameForm::Label(_) => true,
        ExternNameForm::Interface { .. } => false,
        ExternNameForm::Static { resource, .. } => find(resources, resource).is_some(),
        ExternNameForm::Method { resource, .. } => match find(resources, resource) {
            Some(found) => is_of(found, func.self_borrow),
            None => false,
        },
        ExternNameForm::Constructor { resource } => match find(resources, resource) {
            Some(found) => is_of(found, func.own_result),
            None => false,
        },
    }
}

/// Whether an item may have its name, in an instance with these resources.
fn is_named_well(resources: &BTreeMap<String, Option<ResourceId>>, item: &NamedSketch) -> bool
    ensures { (items : List SketchedItem) → AreResources resources.now items
        → result ≡ is_named_well items (sketch_named item.now) }
{
    match item.item {
        ItemSketch::Func(func) => may_name_func(resources, func, item.name.form()),
        ItemSketch::Type | ItemSketch::Resource(_) => is_label(item.name.form()),
    }
}

/// Whether each item of an instance has a name that it may have (Explainer.md, "Import and Export
/// Definitions"): a label; or, a function, one of a resource of the same instance, by the exact
/// text: of a method, whose first parameter is `self`, a borrow of it; of a constructor, which
/// answers it owned; of a static function. Each item is looked at once, and names are found by a
/// map. `AllocError` comes where there is no memory for it.
pub(crate) fn are_all_well_named(alloc: Global, items: &[NamedSketch]) -> Result<bool, AllocError>
    ensures { IfOk result (λ b. b ≡ are_all_well_named (map sketch_named items.now)) }
{
    let resources = resources(alloc, items)?;
    for item in items {
        if !is_named_well(&resources, item) {
            return Ok(false);
        }
    }
    Ok(true)
}
