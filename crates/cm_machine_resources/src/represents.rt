//! Tells what a handle represents (CanonicalABI.md, `canon resource.rep`).

ghost use Rattle.std.specs.Prelude.{◌≡◌, OnOk, Some};
ghost use Rattle.cm_machine_model.specs.Plan.{Plan};
ghost use Rattle.cm_machine_model.specs.Stack.{top_of};
ghost use Rattle.cm_machine_model.specs.Step.{Represents};
ghost use Rattle.cm_machine_parts.specs.Kept.{Runs};
ghost use Rattle.cm_machine_parts.specs.Rows.{MeetsRow};
ghost use Rattle.cm_machine_parts.specs.States.{state_of};

use crate::faults::trap_of_handle;
use cm_machine_model::state::Frame;
use cm_machine_model::{Flat, Trap};
use cm_machine_parts::laws::{frames_have_instances, tables_are_handles};
use cm_machine_parts::{Outcome, State, actor, one_i32};
use cm_types::{CoreValue, ResourceId};

/// Tells the acting instance the representation of the handle at the index that is the one core
/// value. The state is as it was.
///
/// `CoreShape` where the core values are not one `i32`, else what is wrong with the handle.
pub fn represent(
    state: &State,
    top: &Frame,
    resource: ResourceId,
    args: &[CoreValue],
    values: &mut Flat,
) -> Result<Outcome, Trap>
    requires runs { (plan : Plan) × Runs plan state.now }
    requires top { top_of state.now.stack.frames ≡ Some top.now }
    ensures { MeetsRow (Represents (state_of state.now) top.now resource args.now) result values.new
        (state_of state.now) }
{
    frames_have_instances();
    tables_are_handles();
    let Some(index) = one_i32(args) else {
        return Err(Trap::CoreShape);
    };
    let instance = actor(top);
    let table = &state.tables[instance as usize];
    match table.get(index, resource) {
        Ok(handle) => {
            values.set(&[CoreValue::I32(handle.rep)]);
            Ok(Outcome::Resume { instance })
        }
        Err(fault) => Err(trap_of_handle(fault)),
    }
}
