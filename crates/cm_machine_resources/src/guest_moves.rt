//! What a guest does to its own memory.

ghost use Rattle.std.specs.Prelude.{◌≡◌, List, OnOk, Some};
ghost use Rattle.cm_types.specs.declared.core_value.CoreValue.{CoreValue};
ghost use Rattle.cm_machine_model.specs.Plan.{Plan};
ghost use Rattle.cm_machine_model.specs.Stack.{actor, top_of};
ghost use Rattle.cm_machine_model.specs.Step.{Grows, Writes};
ghost use Rattle.cm_machine_parts.specs.Kept.{IsKept, Runs};
ghost use Rattle.cm_machine_parts.specs.Rows.{MeetsRow};
ghost use Rattle.cm_machine_parts.specs.States.{state_of};

use cm_machine_model::state::Frame;
use cm_machine_model::{MAX_MEMORY_SIZE, PAGE_SIZE, Trap};
use cm_machine_parts::laws::frames_have_instances;
use cm_machine_parts::{Outcome, State, actor};
use std::alloc::AllocError;

/// Writes bytes into the acting instance's memory, the first one at this address.
///
/// `GuestBounds` where they pass its end; the state is then as it was. It takes no memory.
pub fn write(state: &mut State, top: &Frame, at: u32, bytes: &[u8]) -> Result<Outcome, Trap>
    requires runs { (plan : Plan) × Runs plan state.old }
    requires top { top_of state.old.stack.frames ≡ Some top.now }
    ensures row { (values : List CoreValue) → MeetsRow (Writes (state_of state.old) (actor top.now)
        at bytes.now) result values (state_of state.new) }
    ensures kept { (plan : Plan) → Runs plan state.old → OnOk result (IsKept plan state.new) }
{
    frames_have_instances();
    let instance = actor(top) as usize;
    if at as usize + bytes.len() > state.memories.len_of(instance) {
        return Err(Trap::GuestBounds);
    }
    state.memories.write(instance, at as usize, bytes);
    Ok(Outcome::Done)
}

/// Grows the acting instance's memory by so many pages, where at most `MAX_PAGES` pages result:
/// else nothing changes.
///
/// `EngineMemory` where there is no memory for them; the state is then as it was.
pub fn grow(state: &mut State, top: &Frame, pages: u32) -> Result<Outcome, Trap>
    requires runs { (plan : Plan) × Runs plan state.old }
    requires top { top_of state.old.stack.frames ≡ Some top.now }
    ensures row { (values : List CoreValue) → MeetsRow (Grows (state_of state.old) (actor top.now)
        pages) result values (state_of state.new) }
    ensures kept { (plan : Plan) → Runs plan state.old → OnOk result (IsKept plan state.new) }
{
    frames_have_instances();
    let instance = actor(top) as usize;
    let len = state.memories.len_of(instance);
    if len + pages as usize * PAGE_SIZE > MAX_MEMORY_SIZE {
        return Ok(Outcome::Grown(None));
    }
    match state.memories.grow(instance, pages) {
        Ok(()) => Ok(Outcome::Grown(Some((len / PAGE_SIZE) as u32))),
        Err(AllocError) => Err(Trap::EngineMemory),
    }
}
