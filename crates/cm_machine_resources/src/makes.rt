//! Makes a resource (CanonicalABI.md, `canon resource.new`).

ghost use Rattle.std.specs.Prelude.{◌≡◌, ◌<◌, OnOk, Some};
ghost use Rattle.cm_machine_model.specs.Plan.{Plan};
ghost use Rattle.cm_machine_model.specs.Stack.{top_of};
ghost use Rattle.cm_machine_model.specs.Step.{Makes};
ghost use Rattle.cm_machine_parts.specs.Kept.{IsKept, Runs};
ghost use Rattle.cm_machine_parts.specs.Rows.{MeetsRow};
ghost use Rattle.cm_machine_parts.specs.States.{state_of};

use crate::adding::add_resource;
use cm_handles::laws::borrows_are_counted;
use cm_machine_model::state::Frame;
use cm_machine_model::{Flat, Trap};
use cm_machine_parts::laws::{frames_have_instances, tables_are_handles, what_is_kept_stays};
use cm_machine_parts::{Outcome, State, actor, may_leave, one_i32};
use cm_types::{CoreValue, ResourceId};

/// Makes a resource whose representation is the one core value, owned by the acting instance, which
/// goes on with the index of its handle.
///
/// `CoreShape` where the core values are not one `i32`, else `MayNotLeave` where the instance may
/// not call out, else `TableFull` where no serial number or no index is left, else `EngineMemory`
/// where there is no memory. The state is then as it was.
pub fn make_resource(
    state: &mut State,
    top: &Frame,
    resource: ResourceId,
    args: &[CoreValue],
    values: &mut Flat,
) -> Result<Outcome, Trap>
    requires runs { (plan : Plan) × Runs plan state.old }
    requires top { top_of state.old.stack.frames ≡ Some top.now }
    ensures row { MeetsRow (Makes (state_of state.old) top.now resource args.now) result values.new
        (state_of state.new) }
    ensures kept { (plan : Plan) → Runs plan state.old → OnOk result (IsKept plan state.new) }
{
    borrows_are_counted();
    frames_have_instances();
    tables_are_handles();
    what_is_kept_stays();
    let Some(rep) = one_i32(args) else {
        return Err(Trap::CoreShape);
    };
    if !may_leave(top) {
        return Err(Trap::MayNotLeave);
    }
    let instance = actor(top);
    let table = &mut state.tables[instance as usize];
    let index = match add_resource(table, &mut state.owners, instance, resource, rep) {
        Ok(index) => index,
        Err(trap) => return Err(trap),
    };
    values.set(&[CoreValue::I32(index)]);
    Ok(Outcome::Resume { instance })
}
