//! Names of functions that a component imports and exports: `interface#function`, or `function`
//! where it is of no interface.

use cm_types_arena::{Extern, ExternDesc};
use cm_validate_functions::Lift;
use cm_validate_spaces::Checked;
use std::alloc::{AllocError, Global};

fn joined(alloc: Global, interface: &str, item: Option<&str>) -> Result<String, AllocError> {
    match item {
        Some(item) => format!(in alloc; "{interface}#{item}"),
        None => String::from_str(alloc, interface),
    }
}

/// The name of an item of an import, where that is an instance that has one of the number.
fn item_of(import: &Extern, item: usize) -> Option<&str> {
    match &import.desc {
        ExternDesc::Func(_) => None,
        ExternDesc::Instance { ty, .. } => Some(ty.items.get(item)?.name.as_str()),
    }
}

/// The name of a function that is imported: an import of the number, or an item of one.
pub(crate) fn import_name(
    alloc: Global,
    checked: &Checked<'_>,
    import: usize,
    item: Option<usize>,
) -> Result<String, AllocError> {
    let Some(import) = checked.imports().get(import) else {
        return Ok(String::new(alloc));
    };
    let item = match item {
        Some(item) => item_of(import, item),
        None => None,
    };
    joined(alloc, import.name.as_str(), item)
}

/// The name under which a lift is exported.
pub(crate) fn export_name(
    alloc: Global,
    checked: &Checked<'_>,
    lift: &Lift<'_>,
) -> Result<String, AllocError> {
    match checked.exports().get(lift.export) {
        Some(export) => joined(alloc, export.name.as_str(), lift.item),
        None => Ok(String::new(alloc)),
    }
}
