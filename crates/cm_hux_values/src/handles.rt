//! Handles by the names of their resources.

ghost use Rattle.std.specs.Prelude.{◌≡◌, IfOk};
ghost use Rattle.std.specs.Option.{option_map};
ghost use Rattle.std.specs.String.{string_bytes};
ghost use Rattle.cm_hux_values.specs.Naming.{handle_text, serial_at};

use cm_handles::Table;
use cm_types::ResourceId;
use std::alloc::{AllocError, Global};
use std::fmt::Write;

/// A resource of a component: its name, and what it is in the set, where it is something.
#[derive(Drop)]
pub struct Resource {
    pub name: String,
    pub origin: Option<ResourceId>,
}

/// The serial number of the handle at an index, where it is one of this resource.
fn serial_at(table: &Table, origin: Option<ResourceId>, index: u64) -> Option<u64>
    ensures { result ≡ serial_at table.now.handles origin index }
{
    let Some(origin) = origin else {
        return None;
    };
    let Ok(index) = u32::try_from(index) else {
        return None;
    };
    match table.get(index, origin) {
        Ok(handle) => Some(handle.serial),
        Err(_) => None,
    }
}

/// The text of the handle at an index, of a resource, as `file#3`: `file#?` where there is none.
pub(crate) fn handle_text(
    alloc: Global,
    resource: Option<&Resource>,
    table: &Table,
    index: u64,
) -> Result<String, AllocError>
    ensures { IfOk result (λ text. string_bytes text
        ≡ handle_text (option_map (λ r. r.now) resource.entry) table.now.handles index) }
{
    let Some(resource) = resource else {
        return String::from_str(alloc, "resource#?");
    };
    let mut text = String::from_str(alloc, resource.name.as_str())?;
    match serial_at(table, resource.origin, index) {
        Some(serial) => write!(text, "#{serial}")?,
        None => text.push_str("#?")?,
    }
    Ok(text)
}
