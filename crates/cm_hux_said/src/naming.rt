//! The names of functions and resources, as an importing component has them.

use crate::words::front_of_name;
use cm_hux_values::Resource;
use cm_match::{Checked, Linked};
use cm_types_arena::{Extern, ExternDesc, Item};
use cm_validate_items::Resource as Known;
use std::alloc::{AllocError, Global};

/// What the handle of a resource is called of which nothing else is known.
const UNNAMED: &str = "resource";

/// The item of a number of what is imported, if it is an instance that has one.
fn item_of(import: &Extern, item: usize) -> Option<&Item> {
    match &import.desc {
        ExternDesc::Func(_) => None,
        ExternDesc::Instance { ty, .. } => ty.items.get(item),
    }
}

/// The name of an import, or of an item of one.
#[derive(Clone, Copy)]
pub(crate) struct ImportName<'b> {
    pub(crate) import: &'b str,
    pub(crate) item: Option<&'b str>,
}

/// The name of an import of a component, or of an item of one.
pub(crate) fn import_name<'b>(
    checked: &'b Checked<'_>,
    import: usize,
    item: Option<usize>,
) -> Option<ImportName<'b>> {
    let import = checked.imports().get(import)?;
    let item = match item {
        None => None,
        Some(item) => Some(item_of(import, item)?.name.as_str()),
    };
    Some(ImportName {
        import: import.name.as_str(),
        item,
    })
}

/// The name under which a component imports the resource that it counts as this one; none where it
/// defines it.
pub(crate) fn resource_name<'b>(checked: &'b Checked<'_>, number: u64) -> Option<ImportName<'b>> {
    match checked.resource(number)? {
        Known::Brought { import, item } => import_name(checked, import, Some(item)),
        Known::Defined { .. } => None,
    }
}

/// The resources of a component, as it counts them: the names under which it imports them, and what
/// they are in the set.
fn resources_of(
    alloc: Global,
    linked: &Linked<'_>,
    component: u32,
    checked: &Checked<'_>,
) -> Result<Vec<Resource>, AllocError> {
    let mut resources = Vec::new(alloc);
    for number in 0..u64::MAX {
        if checked.resource(number).is_none() {
            return Ok(resources);
        }
        let name = match resource_name(checked, number) {
            Some(name) => name.item.unwrap_or(UNNAMED),
            None => UNNAMED,
        };
        let name = String::from_str(alloc, front_of_name(name))?;
        let origin = linked.resource(component, number);
        resources.push(Resource { name, origin })?;
    }
    Ok(resources)
}

/// The resources of each component of a linked set.
pub(crate) fn all_resources(
    alloc: Global,
    linked: &Linked<'_>,
) -> Result<Vec<Vec<Resource>>, AllocError> {
    let mut all = Vec::with_capacity(alloc, linked.components().len())?;
    let mut component: u32 = 0;
    for checked in linked.components() {
        all.push(resources_of(alloc, linked, component, checked)?)?;
        component = component.saturating_add(1);
    }
    Ok(all)
}
