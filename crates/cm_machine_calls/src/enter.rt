//! A call begins: a lowered function is called, its arguments are lifted, and its body is entered
//! (CanonicalABI.md, `canon_lower`, and `canon_lift` up to the call of the core function).

ghost use Rattle.std.specs.Prelude.{◌≡◌, ◌<◌, List, MatchResult, OnOk, length};
ghost use Rattle.cm_types.specs.declared.core_value.CoreValue.{CoreValue};
ghost use Rattle.cm_machine_model.specs.declared.event.Event.TheVariants as event;
ghost use Rattle.cm_machine_model.specs.Plan.{Link as RulesLink, Plan};
ghost use Rattle.cm_machine_model.specs.Stack.{actor};
ghost use Rattle.cm_machine_model.specs.State.{after_trap};
ghost use Rattle.cm_machine_model.specs.Step.{CallsLowered, PassesArguments, in_phase};
ghost use Rattle.cm_machine_parts.specs.Kept.{IsKept};
ghost use Rattle.cm_machine_parts.specs.Rows.{MeetsRow};
ghost use Rattle.cm_machine_parts.specs.States.{state_of};
ghost use Rattle.cm_machine_calls.specs.Calling.{HasArguments, IsCalled, MayCall};
ghost use Rattle.cm_machine_model.specs.declared.frame.Phase.TheVariants as phases;
ghost use Rattle.cm_machine_parts.specs.Links.{IsLinkOf};
ghost use Rattle.cm_machine_calls.specs.Staying.{StaysKept};

use crate::arguments::{Arguments, split_arguments};
use crate::laws::lifts_keep_borrows;
use crate::lift::{few_lends, lend, lift_flat_values};
use crate::link::{put_phase, steps_of};
use crate::numbers::enter_with_numbers;
use crate::requests::go_on;
use cm_abi::Way;
use cm_machine_laws::valid_laws::what_a_value_owns_is_taken;
use cm_machine_model::state::{Call, Frame, Phase, Purpose};
use cm_machine_model::{Flat, Trap};
use cm_machine_parts::laws::{calls_can_end, frames_have_instances, what_is_kept_stays};
use cm_machine_parts::{Link, Outcome, State, actor, has_room, is_closed, may_leave};
use cm_types::CoreValue;
use std::alloc::Global;

/// Lifts the arguments of a call by the acting instance of its core function, and puts the call's
/// frame on the stack.
///
/// Else the answer is the trap: what is wrong with the arguments, with the state as it was, or
/// `EngineMemory`, with the state as it was or as the lift left it.
fn lift_arguments(
    alloc: Global,
    state: &mut State,
    top: &Frame,
    func: u32,
    link: &Link,
    arguments: &Arguments<'_>,
) -> Result<Call, Trap>
    requires may { (plan : Plan) × (l : RulesLink) × (args : List CoreValue)
        × MayCall plan state.old top.now func l link.now args arguments.now }
    ensures lifts { (plan : Plan) (l : RulesLink) (args : List CoreValue)
        → MayCall plan state.old top.now func l link.now args arguments.now → MatchResult result
        (λ call. HasArguments plan state.old state.new (actor top.now) func l args call)
        (λ t. PassesArguments (state_of state.old) (actor top.now) func l args (event.Trapped t)
        (after_trap (state_of state.new))) }
{
    calls_can_end();
    frames_have_instances();
    what_is_kept_stays();
    what_a_value_owns_is_taken();
    lifts_keep_borrows();
    few_lends(state.lends.as_slice());
    let caller = actor(top);
    let place = state.stack.len() as u32;
    match lift_flat_values(
        alloc,
        state,
        link,
        Way::Params,
        caller,
        place,
        arguments.slots,
    ) {
        Ok(()) => {}
        Err(trap) => return Err(trap),
    }
    let call = Call {
        caller,
        func,
        result_at: arguments.result_at,
        phase: Phase::Arguments,
    };
    state.stack.push(Frame {
        instance: link.instance,
        purpose: Purpose::Call(call),
    });
    match lend(state, place, caller) {
        Ok(()) => Ok(call),
        Err(trap) => Err(trap),
    }
}

/// Passes the arguments of a call: lifts them, puts the call's frame on the stack, and goes on with
/// the first request, or with the body.
fn pass_arguments(
    alloc: Global,
    state: &mut State,
    top: &Frame,
    func: u32,
    link: &Link,
    arguments: &Arguments<'_>,
    values: &mut Flat,
) -> Result<Outcome, Trap>
    requires may { (plan : Plan) × (l : RulesLink) × (args : List CoreValue)
        × MayCall plan state.old top.now func l link.now args arguments.now }
    ensures row { (plan : Plan) (l : RulesLink) (args : List CoreValue)
        → MayCall plan state.old top.now func l link.now args arguments.now
        → MeetsRow (PassesArguments (state_of state.old) (actor top.now) func l args) result
        values.new (state_of state.new) }
    ensures kept { (plan : Plan) (l : RulesLink) (args : List CoreValue)
        → MayCall plan state.old top.now func l link.now args arguments.now
        → OnOk result (IsKept plan state.new) }
{
    let call = match lift_arguments(alloc, state, top, func, link, arguments) {
        Ok(call) => call,
        Err(trap) => return Err(trap),
    };
    go_on(alloc, state, link, Way::Params, &call, values)
}

/// Calls a core function of the acting instance that is lowered, which comes to this link: its
/// arguments are lifted, and the callee's allocator is asked for the first part of them; where they
/// need none, the body begins (CanonicalABI.md, `canon lower`). The core values of the outcome are
/// in `values`.
///
/// `CoreShape` where the core values are not of the function's kinds, else `MayNotLeave` where the
/// instance may not call out (CanonicalABI.md, `may_leave`), else `CalleeClosed` where the callee
/// may not be entered (`may_enter`), else `StackFull`, else what is wrong with the arguments; the
/// state is then as it was. Behind the lift `TableFull` where the callee's table has no room for
/// the handles, the state then that after the lift. `EngineMemory` may come where the arguments
/// have a part or a handle: from the state as it was, or from that after the lift.
pub fn call_lowered(
    alloc: Global,
    state: &mut State,
    top: &Frame,
    func: u32,
    link: &Link,
    args: &[CoreValue],
    values: &mut Flat,
) -> Result<Outcome, Trap>
    requires called { (plan : Plan) × (l : RulesLink)
        × IsCalled plan state.old top.now func l link.now }
    ensures row { (plan : Plan) (l : RulesLink) → IsCalled plan state.old top.now func l link.now
        → MeetsRow (CallsLowered (state_of state.old) top.now func l args.now) result values.new
        (state_of state.new) }
    ensures kept { (plan : Plan) (l : RulesLink) → IsCalled plan state.old top.now func l link.now
        → OnOk result (IsKept plan state.new) }
{
    let Some(arguments) = split_arguments(link, args) else {
        return Err(Trap::CoreShape);
    };
    if !may_leave(top) {
        return Err(Trap::MayNotLeave);
    }
    if is_closed(state, link.instance) {
        return Err(Trap::CalleeClosed);
    }
    if !has_room(state) {
        return Err(Trap::StackFull);
    }
    match steps_of(link, Way::Params) {
        Some(steps) => enter_with_numbers(state, top, func, link, steps, &arguments, values),
        None => pass_arguments(alloc, state, top, func, link, &arguments, values),
    }
}

/// The body of the call on top begins: its core function is called (CanonicalABI.md, `enter_call`).
pub(crate) fn enter_call(state: &mut State, link: &Link, call: &Call) -> Outcome
    requires { 0 < length state.old.stack.frames }
    ensures entered { (l : RulesLink) → IsLinkOf l link.now
        → result ≡ Outcome.Enter l.instance l.func }
    ensures phase { (l : RulesLink) → IsLinkOf l link.now
        → state_of state.new ≡ in_phase phases.Body l.instance call.now (state_of state.old) }
    ensures stays { (l : RulesLink) → IsLinkOf l link.now → StaysKept l state.old state.new }
{
    put_phase(state, link, call, Phase::Body);
    Outcome::Enter {
        instance: link.instance,
        func: link.func,
    }
}
