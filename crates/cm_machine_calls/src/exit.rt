//! A call ends: its body returns, and its result is lifted and handed over (CanonicalABI.md,
//! `canon_lift` behind the call of the core function).

ghost use Rattle.std.specs.Prelude.{◌≡◌, ◌↔◌, ◌<◌, ◌≤◌, MatchResult, OnErr, OnOk, Some};
ghost use Rattle.std.specs.Prelude.{false, length};
ghost use Rattle.cm_types.specs.declared.limits.TheConstants.{MAX_FLAT_PARAMS};
ghost use Rattle.cm_abi_model.specs.Views.{results};
ghost use Rattle.cm_abi_model.specs.Ways.{way_of};
ghost use Rattle.cm_machine_model.specs.declared.frame.Frame.{Frame as RulesFrame};
ghost use Rattle.cm_machine_model.specs.declared.frame.Phase.TheVariants as phases;
ghost use Rattle.cm_machine_model.specs.Plan.{Link as RulesLink, Plan};
ghost use Rattle.cm_machine_model.specs.Stack.{top_of};
ghost use Rattle.cm_machine_model.specs.State.{table_at, Passage};
ghost use Rattle.cm_machine_model.specs.Step.{Finishes, HasNoBorrows, IsReceived, ReturnsIn};
ghost use Rattle.cm_machine_model.specs.Step.{ReturnsResult, first_value, flat_result, result_view};
ghost use Rattle.cm_machine_model.specs.Step.{top_place};
ghost use Rattle.cm_machine_parts.specs.Kept.{AreBorrowsCounted, IsKept, CanEnd};
ghost use Rattle.cm_machine_parts.specs.Rows.{MeetsRow, event_of};
ghost use Rattle.cm_machine_parts.specs.States.{state_of};
ghost use Rattle.cm_machine_calls.specs.Calling.{HasResult, IsReturned, in_results};
ghost use Rattle.cm_machine_calls.specs.Lifting.{StopsLift};
ghost use Rattle.cm_machine_parts.specs.Links.{IsLinkOf};
ghost use Rattle.cm_machine_calls.specs.Staying.{StaysKept};

use crate::enter::enter_call;
use crate::laws::lifts_keep_borrows;
use crate::lift::{few_lends, lift_flat_values};
use crate::link::{kinds_of, put_phase, steps_of};
use crate::numbers::exit_with_numbers;
use crate::post_return::return_post_return;
use crate::requests::{answer, go_on, return_answer};
use cm_abi::Way;
use cm_abi_model::laws::{
    each_part_is_asked_for, what_is_handed_over_is_counted, what_is_met_stands,
};
use cm_handles::laws::borrows_are_counted;
use cm_machine_laws::valid_laws::{what_a_value_owns_is_taken, what_is_met_is_the_values_handles};
use cm_machine_model::state::{Call, Phase};
use cm_machine_model::{Flat, Trap};
use cm_machine_parts::laws::{calls_can_end, frames_have_instances, what_is_kept_stays};
use cm_machine_parts::{Link, Outcome, State, are_of, end_call};
use cm_types::CoreValue;
use std::alloc::Global;

/// Whether a handle is left whose borrow scope is the call on top (CanonicalABI.md, `num_borrows`).
fn has_borrows(state: &State) -> bool
    requires { 0 < length state.now.stack.frames }
    ensures { (top : RulesFrame) → top_of state.now.stack.frames ≡ Some top
        → AreBorrowsCounted state.now.stack.borrows state.now.stack.frames
        (state_of state.now).tables → (result ≡ false)
        ↔ HasNoBorrows (table_at (state_of state.now).tables top.instance)
        (top_place (state_of state.now)) }
{
    borrows_are_counted();
    state.stack.borrows(state.stack.len() - 1) > 0
}

/// Lifts the result of the body of the call on top, which is then on its way.
///
/// Else the answer is the trap, and the state is as it was.
fn lift_result(
    alloc: Global,
    state: &mut State,
    call: &Call,
    link: &Link,
    given: &[CoreValue],
) -> Result<(), Trap>
    requires returned { (plan : Plan) × (l : RulesLink)
        × IsReturned plan state.old call.now l link.now }
    requires body { call.now.phase ≡ phases.Body }
    requires few { length given.now ≤ MAX_FLAT_PARAMS }
    ensures lifts { (plan : Plan) (l : RulesLink)
        → IsReturned plan state.old call.now l link.now → MatchResult result
        (λ _. HasResult plan state.old state.new l call.now given.now)
        (λ t. StopsLift (result_view (state_of state.old) l) l results given.now t) }
    ensures unchanged { OnErr result (state_of state.new ≡ state_of state.old) }
{
    calls_can_end();
    frames_have_instances();
    what_is_kept_stays();
    what_a_value_owns_is_taken();
    what_is_met_is_the_values_handles();
    what_is_met_stands();
    what_is_handed_over_is_counted();
    lifts_keep_borrows();
    few_lends(state.lends.as_slice());
    let place = state.stack.len() as u32 - 1;
    match lift_flat_values(
        alloc,
        state,
        link,
        Way::Results,
        link.instance,
        place,
        given,
    ) {
        Ok(()) => {}
        Err(trap) => return Err(trap),
    }
    put_phase(state, link, call, Phase::Results);
    Ok(())
}

/// The call again, with the phase that it is known to be in, so that nothing else is copied.
#[inline(always)]
fn call_in(call: &Call, phase: Phase) -> Call
    requires { call.now.phase ≡ phase }
    ensures { result ≡ call.now }
{
    Call {
        caller: call.caller,
        func: call.func,
        result_at: call.result_at,
        phase,
    }
}

/// The call, while its result is placed.
fn in_results(call: &Call) -> Call
    ensures { result ≡ in_results call.now }
{
    Call {
        caller: call.caller,
        func: call.func,
        result_at: call.result_at,
        phase: Phase::Results,
    }
}

/// Passes the result of the body of the call on top: lifts it, keeps the place that the caller gave
/// for it, if it goes by memory, and goes on with the next request, or with the end of the call.
fn pass_result(
    alloc: Global,
    state: &mut State,
    call: &Call,
    link: &Link,
    given: &[CoreValue],
    values: &mut Flat,
) -> Result<Outcome, Trap>
    requires returned { (plan : Plan) × (l : RulesLink)
        × IsReturned plan state.old call.now l link.now }
    requires body { call.now.phase ≡ phases.Body }
    requires few { length given.now ≤ MAX_FLAT_PARAMS }
    ensures row { (plan : Plan) (l : RulesLink)
        → IsReturned plan state.old call.now l link.now
        → MeetsRow (ReturnsResult (state_of state.old) l call.now given.now) result values.new
        (state_of state.new) }
    ensures kept { (plan : Plan) (l : RulesLink)
        → IsReturned plan state.old call.now l link.now
        → OnOk result (IsKept plan state.new) }
{
    each_part_is_asked_for();
    match lift_result(alloc, state, call, link, given) {
        Ok(()) => {}
        Err(trap) => return Err(trap),
    }
    let placing = in_results(call);
    if link.types.has_pointer {
        answer(
            alloc,
            state,
            link,
            Way::Results,
            &placing,
            call.result_at,
            values,
        )
    } else {
        go_on(alloc, state, link, Way::Results, &placing, values)
    }
}

/// The return of the body of the call on top.
fn return_body(
    alloc: Global,
    state: &mut State,
    call: &Call,
    link: &Link,
    given: &[CoreValue],
    values: &mut Flat,
) -> Result<Outcome, Trap>
    requires returned { (plan : Plan) × (l : RulesLink)
        × IsReturned plan state.old call.now l link.now }
    requires body { call.now.phase ≡ phases.Body }
    ensures row { (plan : Plan) (l : RulesLink)
        → IsReturned plan state.old call.now l link.now
        → MeetsRow (ReturnsIn phases.Body (state_of state.old) l call.now given.now) result
        values.new (state_of state.new) }
    ensures kept { (plan : Plan) (l : RulesLink)
        → IsReturned plan state.old call.now l link.now
        → OnOk result (IsKept plan state.new) }
{
    if !are_of(kinds_of(link, Way::Results), given) {
        return Err(Trap::CoreShape);
    }
    if has_borrows(state) {
        return Err(Trap::BorrowsLeft);
    }
    match steps_of(link, Way::Results) {
        Some(steps) => exit_with_numbers(state, call, link, steps, given, values),
        None => pass_result(alloc, state, call, link, given, values),
    }
}

/// The flat result that a caller gets, of the core values that pass it.
fn flat_result(link: &Link, values: &Flat) -> Option<CoreValue>
    ensures { (l : RulesLink) → IsLinkOf l link.now
        → result ≡ first_value (flat_result l values.now) }
{
    if link.types.has_pointer {
        return None;
    }
    values.as_slice().first().copied()
}

/// Goes on once the result of the call on top was lowered, whose core values `values` has: the
/// callee tidies up, if it has a function for that, and gets what its body returned; else the call
/// ends, its lends too, and the caller goes on (CanonicalABI.md, `exit_call`, `post_return`).
#[inline(always)]
pub(crate) fn exit_call(state: &mut State, link: &Link, call: &Call, values: &mut Flat) -> Outcome
    requires { CanEnd state.old }
    ensures finishes { (l : RulesLink) (p : Passage) → IsLinkOf l link.now
        → p.slots ≡ state.old.passing.slots
        → Finishes l.post_return (top_place (state_of state.old)) l call.now p values.old
        (state_of state.old) (event_of result values.new) (state_of state.new) }
    ensures stays { (l : RulesLink) → IsLinkOf l link.now → StaysKept l state.old state.new }
{
    what_is_kept_stays();
    match link.post_return {
        Some(func) => {
            let result = flat_result(link, values);
            put_phase(state, link, call, Phase::PostReturn { result });
            *values = state.passing.slots.copied();
            Outcome::PostReturn {
                instance: link.instance,
                func,
            }
        }
        None => {
            if link.types.has_pointer {
                values.clear();
            }
            end_call(state);
            Outcome::Resume {
                instance: call.caller,
            }
        }
    }
}

/// Goes on once the value of the call on top was lowered, whose core values `values` has: the
/// body begins with them, or the call finishes.
#[inline(always)]
pub(crate) fn enter_or_exit(
    state: &mut State,
    link: &Link,
    way: Way,
    call: &Call,
    values: &mut Flat,
) -> Outcome
    requires some { 0 < length state.old.stack.frames }
    requires ends { way_of way ≡ results → CanEnd state.old }
    ensures arrives { (l : RulesLink) (p : Passage) → IsLinkOf l link.now
        → p.slots ≡ state.old.passing.slots
        → IsReceived (way_of way) (top_place (state_of state.old)) l call.now p values.old
        (state_of state.old) (event_of result values.new) (state_of state.new) }
    ensures stays { (l : RulesLink) → IsLinkOf l link.now → StaysKept l state.old state.new }
{
    match way {
        Way::Params => enter_call(state, link, call),
        Way::Results => exit_call(state, link, call, values),
    }
}

/// Returns in the call on top, which comes to this link: an allocator answers, whose answer is
/// kept; or the body returns, whose result is lifted; or the callee has tidied up, and the call
/// ends (CanonicalABI.md, `canon lift`). Where a value is on its way, the next request for it
/// comes; behind the last it is handed over. The core values of the outcome are in `values`.
///
/// `CoreShape` where the core values are not those that the phase of the call wants; for an answer
/// what is wrong with it, and behind the last one `Overlap`, else `TableFull`; for a body
/// `BorrowsLeft`, else what is wrong with the result, else, from the state after the lift, what is
/// wrong with its place, and where no more is asked for `TableFull`. `EngineMemory` may come at a
/// body's return where the result has a part or a handle, and behind a last answer where the value
/// has a handle.
pub fn return_in_call(
    alloc: Global,
    state: &mut State,
    call: &Call,
    link: &Link,
    given: &[CoreValue],
    values: &mut Flat,
) -> Result<Outcome, Trap>
    requires returned { (plan : Plan) × (l : RulesLink)
        × IsReturned plan state.old call.now l link.now }
    ensures row { (plan : Plan) (l : RulesLink)
        → IsReturned plan state.old call.now l link.now
        → MeetsRow (ReturnsIn call.now.phase (state_of state.old) l call.now given.now) result
        values.new (state_of state.new) }
    ensures kept { (plan : Plan) (l : RulesLink)
        → IsReturned plan state.old call.now l link.now
        → OnOk result (IsKept plan state.new) }
{
    match call.phase {
        Phase::Arguments => {
            let call = call_in(call, Phase::Arguments);
            return_answer(alloc, state, &call, link, Way::Params, given, values)
        }
        Phase::Body => return_body(alloc, state, call, link, given, values),
        Phase::Results => {
            let call = call_in(call, Phase::Results);
            return_answer(alloc, state, &call, link, Way::Results, given, values)
        }
        Phase::PostReturn { result } => { return_post_return(state, call, result, given, values) }
    }
}
