//! A resource is made.

ghost use Rattle.cm_machine_resources.specs.Adding.{AddsResource};

use cm_handles::{Handle, HandleFault, HandleKind, Table};
use cm_machine_model::Trap;
use cm_machine_model::state::Place;
use cm_types::ResourceId;

/// Makes a resource with this representation, owned by the instance whose table this is: its handle
/// stands at the next index, which is the answer.
///
/// `TableFull` where no serial number or no index is left, else `EngineMemory` where there is no
/// memory; handles and owners are then unchanged.
pub(crate) fn add_resource(
    table: &mut Table,
    owners: &mut Vec<Place>,
    instance: u32,
    resource: ResourceId,
    rep: u32,
) -> Result<u32, Trap>
    ensures { AddsResource table.old.handles owners.old.items instance resource rep result
        table.new.handles owners.new.items }
{
    let serial = owners.len() as u64;
    if serial == u64::MAX {
        return Err(Trap::TableFull);
    }
    match table.reserve(1) {
        Ok(()) => {}
        Err(HandleFault::Full) => return Err(Trap::TableFull),
        Err(_) => return Err(Trap::EngineMemory),
    }
    let Ok(()) = owners.reserve(1) else {
        return Err(Trap::EngineMemory);
    };
    let handle = Handle {
        resource,
        serial,
        lends: 0,
        rep,
        kind: HandleKind::Owned,
    };
    let Ok(index) = table.add(handle) else {
        unreachable!()
    };
    owners.push_reserved(Place::InTable { instance, index });
    Ok(index)
}
