//! Returns that end a frame: of a root and of a destructor.

ghost use Rattle.std.specs.Prelude.{◌≡◌, List, OnOk};
ghost use Rattle.cm_types.specs.declared.core_value.CoreValue.{CoreValue};
ghost use Rattle.cm_machine_model.specs.declared.frame.Purpose.TheVariants as purpose;
ghost use Rattle.cm_machine_model.specs.Plan.{Plan};
ghost use Rattle.cm_machine_model.specs.Step.{Returns, popped};
ghost use Rattle.cm_machine_parts.specs.Kept.{IsKept, Runs};
ghost use Rattle.cm_machine_parts.specs.Rows.{MeetsRow};
ghost use Rattle.cm_machine_parts.specs.States.{state_of};

use cm_machine_model::{Flat, Trap};
use cm_machine_parts::laws::what_is_kept_stays;
use cm_machine_parts::{Outcome, State};
use cm_types::CoreValue;

/// Takes the top frame off the stack.
fn pop_frame(state: &mut State)
    ensures popped { state_of state.new ≡ popped (state_of state.old) }
    ensures kept { (plan : Plan) → Runs plan state.old → IsKept plan state.new }
{
    what_is_kept_stays();
    // The frame is not needed any more.
    let _ = state.stack.pop();
}

/// Returns from a root: its frame goes.
///
/// `CoreShape` where core values are returned; the state is then as it was.
pub fn return_root(state: &mut State, given: &[CoreValue]) -> Result<Outcome, Trap>
    ensures row { (plan : Plan) (values : List CoreValue)
        → MeetsRow (Returns plan (state_of state.old) purpose.Root given.now) result values
        (state_of state.new) }
    ensures kept { (plan : Plan) → Runs plan state.old → OnOk result (IsKept plan state.new) }
{
    if !given.is_empty() {
        return Err(Trap::CoreShape);
    }
    pop_frame(state);
    Ok(Outcome::Ended)
}

/// Returns from a destructor: its frame goes, and who dropped the resource goes on.
///
/// `CoreShape` where core values are returned; the state is then as it was.
pub fn return_destructor(
    state: &mut State,
    dropper: u32,
    given: &[CoreValue],
    values: &mut Flat,
) -> Result<Outcome, Trap>
    ensures row { (plan : Plan) → MeetsRow (Returns plan (state_of state.old)
        (purpose.Destructor dropper) given.now) result values.new (state_of state.new) }
    ensures kept { (plan : Plan) → Runs plan state.old → OnOk result (IsKept plan state.new) }
{
    if !given.is_empty() {
        return Err(Trap::CoreShape);
    }
    pop_frame(state);
    values.clear();
    Ok(Outcome::Resume { instance: dropper })
}
