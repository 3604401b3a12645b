//! Handles as values.

ghost use Rattle.std.specs.Prelude.{◌≡◌};
ghost use Rattle.cm_types.specs.ValueTrees.{value_of};
ghost use Rattle.cm_abi_load.specs.Outcomes.{Reads, state_of};
ghost use Rattle.cm_abi_load.specs.Leaves.{read_handle, resource_of};

use crate::progress::{MetHandle, Progress};
use crate::stop::Stop;
use cm_abi_model::AbiFault;
use cm_handles::{HandleFault, HandleKind, Table};
use cm_layout::HandleType;
use cm_types::{ResourceId, Value};

/// The resource of a handle, by its type.
pub fn resource_of(wanted: HandleType) -> ResourceId
    ensures { result ≡ resource_of wanted }
{
    match wanted {
        HandleType::Own(resource) | HandleType::Borrow(resource) => resource,
    }
}

/// The handle that stands at an index, as a value; it is met, also where it is refused.
///
/// It stops with `NoHandle` where none stands there, else with `WrongResource` where it is of
/// another resource, else with `NotOwned` where it is a borrow and an owned one is wanted.
#[tactic(auto, unfolding(crate::specs::Leaves::read_handle))]
pub fn load_handle(
    table: &Table,
    wanted: HandleType,
    index: u32,
    progress: &mut Progress,
) -> Result<Value, Stop>
    ensures { Reads value_of result (state_of progress.new)
        (read_handle table.now.handles wanted index (state_of progress.old)) }
{
    progress.handles.push(MetHandle { index, wanted })?;
    let handle = match table.get(index, resource_of(wanted)) {
        Ok(handle) => handle,
        Err(HandleFault::WrongResource) => return Err(Stop::Fault(AbiFault::WrongResource)),
        Err(_) => return Err(Stop::Fault(AbiFault::NoHandle)),
    };
    match (wanted, handle.kind) {
        (HandleType::Own(_), HandleKind::Borrowed { .. }) => Err(Stop::Fault(AbiFault::NotOwned)),
        _ => Ok(Value::Handle {
            serial: handle.serial,
            rep: handle.rep,
            resource: handle.resource,
        }),
    }
}
