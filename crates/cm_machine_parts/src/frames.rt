//! What a frame says of its instance.

ghost use Rattle.std.specs.Prelude.{◌≡◌, ◌↔◌, IsTrue};
ghost use Rattle.cm_machine_model.specs.Stack.{actor};
ghost use Rattle.cm_machine_model.specs.State.{is_closed};
ghost use Rattle.cm_machine_model.specs.Step.{HasRoom, MayLeave};
ghost use Rattle.cm_machine_parts.specs.States.{state_of};

use crate::state::State;
use cm_machine_model::MAX_FRAMES;
use cm_machine_model::state::{Frame, Phase, Purpose};

/// The instance that acts while this frame is on top: the caller while the results are placed, else
/// the frame's own.
pub fn actor(frame: &Frame) -> u32
    ensures { result ≡ actor frame.now }
{
    match frame.purpose {
        Purpose::Call(call) => match call.phase {
            Phase::Results => call.caller,
            Phase::Arguments | Phase::Body | Phase::PostReturn { .. } => frame.instance,
        },
        Purpose::Root | Purpose::Destructor { .. } => frame.instance,
    }
}

/// Whether the instance may call out while this frame is on top: while a body of its own runs.
pub fn may_leave(frame: &Frame) -> bool
    ensures { IsTrue result ↔ MayLeave frame.now.purpose }
{
    match frame.purpose {
        Purpose::Call(call) => matches!(call.phase, Phase::Body),
        Purpose::Root | Purpose::Destructor { .. } => true,
    }
}

/// Whether a trap has closed an instance.
pub fn is_closed(state: &State, instance: u32) -> bool
    ensures { result ≡ is_closed (state_of state.now) instance }
{
    state
        .closed
        .get(instance as usize)
        .copied()
        .unwrap_or(false)
}

/// Whether there is room for one more frame.
pub fn has_room(state: &State) -> bool
    ensures { IsTrue result ↔ HasRoom (state_of state.now) }
{
    state.stack.len() < MAX_FRAMES
}
