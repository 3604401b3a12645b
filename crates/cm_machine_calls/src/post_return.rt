//! The callee's function that tidies up once its result was read has returned (CanonicalABI.md,
//! `post-return`).

ghost use Rattle.std.specs.Prelude.{◌≡◌, ◌<◌, OnOk, Option, length};
ghost use Rattle.cm_types.specs.declared.core_value.CoreValue.{CoreValue};
ghost use Rattle.cm_machine_model.specs.declared.frame.Call.{Call};
ghost use Rattle.cm_machine_model.specs.declared.frame.Phase.TheVariants as phase;
ghost use Rattle.cm_machine_model.specs.Plan.{Link, Plan};
ghost use Rattle.cm_machine_model.specs.Step.{ReturnsIn};
ghost use Rattle.cm_machine_parts.specs.Kept.{IsKept, Runs};
ghost use Rattle.cm_machine_parts.specs.Rows.{MeetsRow};
ghost use Rattle.cm_machine_parts.specs.States.{state_of};

use cm_machine_model::state::Call;
use cm_machine_model::{Flat, Trap};
use cm_machine_parts::laws::{calls_can_end, what_is_kept_stays};
use cm_machine_parts::{Outcome, State, end_call};
use cm_types::CoreValue;

/// Returns from what tidies up behind a call: the call ends, and the caller goes on with its flat
/// result.
///
/// `CoreShape` where core values are returned; the state is then as it was.
pub(crate) fn return_post_return(
    state: &mut State,
    call: &Call,
    answer: Option<CoreValue>,
    given: &[CoreValue],
    values: &mut Flat,
) -> Result<Outcome, Trap>
    requires runs { (plan : Plan) × Runs plan state.old }
    requires some { 0 < length state.old.stack.frames }
    requires call { call.now.phase ≡ phase.PostReturn answer }
    ensures row { (l : Link) → MeetsRow (ReturnsIn call.now.phase (state_of state.old) l call.now
        given.now) result values.new (state_of state.new) }
    ensures kept { (plan : Plan) → Runs plan state.old → OnOk result (IsKept plan state.new) }
{
    calls_can_end();
    what_is_kept_stays();
    if !given.is_empty() {
        return Err(Trap::CoreShape);
    }
    end_call(state);
    values.clear();
    if let Some(value) = answer {
        values.push(value);
    }
    Ok(Outcome::Resume {
        instance: call.caller,
    })
}
