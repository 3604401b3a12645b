//! What a move leads to.

ghost use Rattle.std.specs.Prelude.{◌≡◌, OnOk, Some};
ghost use Rattle.cm_machine_model.specs.Plan.{Plan, core_func_at};
ghost use Rattle.cm_machine_model.specs.Stack.{actor, top_of};
ghost use Rattle.cm_machine_model.specs.Step.{Calls, Moves, Returns};
ghost use Rattle.cm_machine_links.specs.Planned.{ArePlanned};
ghost use Rattle.cm_machine_parts.specs.Kept.{IsKept, Runs};
ghost use Rattle.cm_machine_parts.specs.Rows.{MeetsRow};
ghost use Rattle.cm_machine_parts.specs.States.{state_of};

use cm_machine_calls::{call_lowered, return_in_call};
use cm_machine_links::{CoreFunc, Links};
use cm_machine_model::state::{Call, Frame, Purpose};
use cm_machine_model::{Flat, Move, Trap};
use cm_machine_parts::{Outcome, State, actor};
use cm_machine_resources::{
    drop_resource, grow, make_resource, represent, return_destructor, return_root, write,
};
use cm_types::CoreValue;
use std::alloc::Global;

/// Calls a core function of the acting instance: one that it lowers, or that makes, drops or tells
/// handles.
///
/// `UnknownFunction` where it has none of this index, or one of its own core module.
fn call(
    alloc: Global,
    links: &Links,
    state: &mut State,
    top: &Frame,
    func: u32,
    args: &[CoreValue],
    values: &mut Flat,
) -> Result<Outcome, Trap>
    requires runs { (plan : Plan) × ArePlanned plan links.now × Runs plan state.old }
    requires top { top_of state.old.stack.frames ≡ Some top.now }
    ensures row { (plan : Plan) → ArePlanned plan links.now → Runs plan state.old
        → MeetsRow (Calls (state_of state.old) top.now func
        (core_func_at plan (actor top.now) func) args.now) result values.new (state_of state.new) }
    ensures kept { (plan : Plan) → ArePlanned plan links.now → Runs plan state.old
        → OnOk result (IsKept plan state.new) }
{
    match links.get(actor(top), func) {
        None | Some(CoreFunc::Guest) => Err(Trap::UnknownFunction),
        Some(CoreFunc::Lowered(link)) => {
            call_lowered(alloc, state, top, func, link, args, values)
        }
        Some(CoreFunc::Makes(resource)) => make_resource(state, top, *resource, args, values),
        Some(
            CoreFunc::Drops {
                resource,
                destructor,
            },
        ) => drop_resource(state, top, *resource, *destructor, args, values),
        Some(CoreFunc::Represents(resource)) => represent(state, top, *resource, args, values),
    }
}

/// Returns from the call on top.
fn return_call(
    alloc: Global,
    links: &Links,
    state: &mut State,
    top: &Frame,
    call: &Call,
    given: &[CoreValue],
    values: &mut Flat,
) -> Result<Outcome, Trap>
    requires runs { (plan : Plan) × ArePlanned plan links.now × Runs plan state.old }
    requires top { top_of state.old.stack.frames ≡ Some top.now }
    requires call { top.now.purpose ≡ Purpose.Call call.now }
    ensures row { (plan : Plan) → ArePlanned plan links.now → Runs plan state.old
        → MeetsRow (Returns plan (state_of state.old) (Purpose.Call call.now) given.now) result
        values.new (state_of state.new) }
    ensures kept { (plan : Plan) → ArePlanned plan links.now → Runs plan state.old
        → OnOk result (IsKept plan state.new) }
{
    let Some(CoreFunc::Lowered(link)) = links.get(call.caller, call.func) else {
        unreachable!()
    };
    return_in_call(alloc, state, call, link, given, values)
}

/// Returns from what the frame on top stands for.
fn return_from(
    alloc: Global,
    links: &Links,
    state: &mut State,
    top: &Frame,
    given: &[CoreValue],
    values: &mut Flat,
) -> Result<Outcome, Trap>
    requires runs { (plan : Plan) × ArePlanned plan links.now × Runs plan state.old }
    requires top { top_of state.old.stack.frames ≡ Some top.now }
    ensures row { (plan : Plan) → ArePlanned plan links.now → Runs plan state.old
        → MeetsRow (Returns plan (state_of state.old) top.now.purpose given.now) result values.new
        (state_of state.new) }
    ensures kept { (plan : Plan) → ArePlanned plan links.now → Runs plan state.old
        → OnOk result (IsKept plan state.new) }
{
    match &top.purpose {
        Purpose::Root => return_root(state, given),
        Purpose::Call(call) => return_call(alloc, links, state, top, call, given, values),
        Purpose::Destructor { dropper } => return_destructor(state, *dropper, given, values),
    }
}

/// What a move of the instance that acts while this frame is on top leads to, or its trap, which
/// then still has to empty the stack.
pub(crate) fn advance(
    alloc: Global,
    links: &Links,
    state: &mut State,
    top: &Frame,
    made: &Move,
    values: &mut Flat,
) -> Result<Outcome, Trap>
    requires runs { (plan : Plan) × ArePlanned plan links.now × Runs plan state.old }
    requires top { top_of state.old.stack.frames ≡ Some top.now }
    ensures row { (plan : Plan) → ArePlanned plan links.now → Runs plan state.old
        → MeetsRow (Moves plan (state_of state.old) top.now made.now) result values.new
        (state_of state.new) }
    ensures kept { (plan : Plan) → ArePlanned plan links.now → Runs plan state.old
        → OnOk result (IsKept plan state.new) }
{
    match made {
        Move::Write { at, bytes } => write(state, top, *at, bytes),
        Move::Grow { pages } => grow(state, top, *pages),
        Move::Call { func, args } => call(alloc, links, state, top, *func, args, values),
        Move::Return { values: given } => return_from(alloc, links, state, top, given, values),
        Move::Unreachable => Err(Trap::Unreachable),
    }
}
