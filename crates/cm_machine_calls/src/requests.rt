//! Requests for the value on its way: its receiver's allocator is asked for each of its parts
//! (CanonicalABI.md, "Storing", `cx.opts.realloc`), and the answer is kept.

ghost use Rattle.std.specs.Prelude.{◌≡◌, ◌<◌, ◌∷◌, [], IfSome, IsSome, List, MatchResult, Ok};
ghost use Rattle.std.specs.Prelude.{OnErr, OnOk, Some, ℕ, length, slice_get};
ghost use Rattle.cm_types.specs.declared.core_value.CoreValue.TheVariants as core_value;
ghost use Rattle.cm_abi_model.specs.Ways.{way_of};
ghost use Rattle.cm_machine_model.specs.Plan.{Link as RulesLink, Plan};
ghost use Rattle.cm_machine_model.specs.Step.{GoesOn, ReturnsIn, giver_of, receiver_of, top_place};
ghost use Rattle.cm_machine_model.specs.Step.{trap_of};
ghost use Rattle.cm_machine_parts.specs.Kept.{IsKept};
ghost use Rattle.cm_machine_parts.specs.Rows.{MeetsRow};
ghost use Rattle.cm_machine_parts.specs.States.{state_of};
ghost use Rattle.cm_machine_parts.specs.Links.{IsLinkOf};
ghost use Rattle.cm_abi_model.specs.declared.request.Request.{Request};
ghost use Rattle.cm_machine_model.specs.Memories.{memory_at};
ghost use Rattle.cm_machine_calls.specs.Answering.{CanAnswer, KeepsAnswer, StopsAnswer};
ghost use Rattle.cm_types.specs.Values.{Val};
ghost use Rattle.cm_machine_calls.specs.Going.{CanGoOn, passage_now, IsUnderWay, phase_of};
ghost use Rattle.cm_machine_model.specs.Passages.{asked_for};
ghost use Rattle.cm_machine_calls.specs.Calling.{AnswersAt, IsReturned};

use crate::exit::enter_or_exit;
use crate::link::{giver_of, realloc_of, receiver_of};
use crate::lower::lower_flat_values;
use crate::traps::trap_of;
use cm_abi::{Request, Way};
use cm_abi_model::laws::each_part_is_asked_for;
use cm_abi_requests::laws::what_is_denoted_can_be_lowered;
use cm_abi_requests::requesting_laws::{answers_stay_fine, records_ask_for_parts};
use cm_machine_model::state::Call;
use cm_machine_model::{Flat, Trap};
use cm_machine_parts::laws::calls_can_end;
use cm_machine_parts::{Link, Outcome, State, one_i32};
use cm_types::CoreValue;
use std::alloc::Global;

/// A request, as an allocator gets it: the old pointer, the old size, the alignment, the size.
pub(crate) fn ask(
    realloc: Option<u32>,
    instance: u32,
    old: u32,
    request: Request,
    values: &mut Flat,
) -> Outcome
    requires { IsSome realloc }
    ensures asked { IfSome realloc (λ f. result ≡ Outcome.Realloc instance f) }
    ensures values { values.new ≡ core_value.I32 old ∷ core_value.I32 request.old_size
        ∷ core_value.I32 request.align ∷ core_value.I32 request.size ∷ [] }
{
    let Some(func) = realloc else { unreachable!() };
    values.set(&[
        CoreValue::I32(old),
        CoreValue::I32(request.old_size),
        CoreValue::I32(request.align),
        CoreValue::I32(request.size),
    ]);
    Outcome::Realloc { instance, func }
}

/// Keeps an answer to the next request for the value on its way: an address in the memory of its
/// receiver (CanonicalABI.md, "Storing", `trap_if` behind `realloc`). An answer that is not
/// aligned, or passes the end of the memory, traps, and the state is as it was. No memory is taken.
pub(crate) fn keep_answer(state: &mut State, receiver: u32, at: u32) -> Result<(), Trap>
    requires answered { (rs : List Request) × (answers : List ℕ) × (r : Request)
        × CanAnswer state.old rs answers r }
    ensures keeps { (rs : List Request) (answers : List ℕ) (r : Request)
        → CanAnswer state.old rs answers r → MatchResult result
        (λ _. KeepsAnswer state.old state.new rs answers r receiver at)
        (λ t. StopsAnswer (length (memory_at state.old.memories receiver)) r at t) }
    ensures unchanged { OnErr result (state_of state.new ≡ state_of state.old) }
    ensures stack { state.new.stack ≡ state.old.stack }
{
    let length = state.memories.len_of(receiver as usize);
    match state.passing.scan.answer(at, length) {
        Ok(()) => Ok(()),
        Err(fault) => Err(trap_of(fault)),
    }
}

/// Goes on with the value on its way in the call on top, over a link, that way: its receiver's
/// allocator is asked for the next request; behind the last the value is handed over, and the body
/// begins, or the call finishes.
#[inline(always)]
pub(crate) fn go_on(
    alloc: Global,
    state: &mut State,
    link: &Link,
    way: Way,
    call: &Call,
    values: &mut Flat,
) -> Result<Outcome, Trap>
    requires on { (plan : Plan) × (l : RulesLink) × (v : Val) × (answers : List ℕ)
        × IsLinkOf l link.now × CanGoOn plan state.old l (way_of way) call.now v answers }
    ensures row { (plan : Plan) (l : RulesLink) (v : Val) (answers : List ℕ) → IsLinkOf l link.now
        → CanGoOn plan state.old l (way_of way) call.now v answers
        → MeetsRow (GoesOn (state_of state.old) (top_place (state_of state.old)) l (way_of way)
        call.now (passage_now state.old) v answers) result values.new (state_of state.new) }
    ensures kept { (plan : Plan) (l : RulesLink) (v : Val) (answers : List ℕ)
        → IsLinkOf l link.now → CanGoOn plan state.old l (way_of way) call.now v answers
        → OnOk result (IsKept plan state.new) }
{
    records_ask_for_parts();
    each_part_is_asked_for();
    what_is_denoted_can_be_lowered();
    let place = state.stack.len() as u32 - 1;
    let to = receiver_of(link, call, way, place);
    match state.passing.scan.next_request() {
        Some(next) => Ok(ask(realloc_of(link, way), to.instance, next.1, next.0, values)),
        None => match lower_flat_values(
            alloc,
            state,
            link,
            way,
            giver_of(link, call, way),
            to,
            values,
        ) {
            Ok(()) => Ok(enter_or_exit(state, link, way, call, values)),
            Err(trap) => Err(trap),
        },
    }
}

/// Keeps an answer to the next request for the value on its way, and goes on with the next request
/// behind it; behind the last the value is handed over.
///
/// An answer that is not aligned, or passes the end of the receiver's memory, traps, with the state
/// as it was.
#[inline(always)]
pub(crate) fn answer(
    alloc: Global,
    state: &mut State,
    link: &Link,
    way: Way,
    call: &Call,
    at: u32,
    values: &mut Flat,
) -> Result<Outcome, Trap>
    requires under { (plan : Plan) × (l : RulesLink) × (v : Val) × (answers : List ℕ)
        × (r : Request) × IsLinkOf l link.now
        × IsUnderWay plan state.old l (way_of way) call.now v answers
        × (slice_get (asked_for l (way_of way) (passage_now state.old) v) (length answers)
        ≡ Some r) }
    ensures row { (plan : Plan) (l : RulesLink) (v : Val) (answers : List ℕ) (r : Request)
        → IsLinkOf l link.now → IsUnderWay plan state.old l (way_of way) call.now v answers
        → slice_get (asked_for l (way_of way) (passage_now state.old) v) (length answers) ≡ Some r
        → MeetsRow (AnswersAt (state_of state.old) l (way_of way) call.now
        (passage_now state.old) v answers r at) result values.new (state_of state.new) }
    ensures kept { (plan : Plan) (l : RulesLink) (v : Val) (answers : List ℕ) (r : Request)
        → IsLinkOf l link.now → IsUnderWay plan state.old l (way_of way) call.now v answers
        → slice_get (asked_for l (way_of way) (passage_now state.old) v) (length answers) ≡ Some r
        → OnOk result (IsKept plan state.new) }
{
    records_ask_for_parts();
    answers_stay_fine();
    let place = state.stack.len() as u32 - 1;
    let to = receiver_of(link, call, way, place);
    match keep_answer(state, to.instance, at) {
        Ok(()) => {}
        Err(trap) => return Err(trap),
    }
    go_on(alloc, state, link, way, call, values)
}

/// The return of an allocator: its answer, an `i32`, is kept, and the call goes on.
#[inline(always)]
pub(crate) fn return_answer(
    alloc: Global,
    state: &mut State,
    call: &Call,
    link: &Link,
    way: Way,
    given: &[CoreValue],
    values: &mut Flat,
) -> Result<Outcome, Trap>
    requires returned { (plan : Plan) × (l : RulesLink)
        × IsReturned plan state.old call.now l link.now }
    requires phase { call.now.phase ≡ phase_of (way_of way) }
    ensures row { (plan : Plan) (l : RulesLink)
        → IsReturned plan state.old call.now l link.now
        → MeetsRow (ReturnsIn (phase_of (way_of way)) (state_of state.old) l call.now given.now)
        result values.new (state_of state.new) }
    ensures kept { (plan : Plan) (l : RulesLink)
        → IsReturned plan state.old call.now l link.now
        → OnOk result (IsKept plan state.new) }
{
    calls_can_end();
    // Read first, so that the check knows how many numbers of borrows there are.
    let _ = state.stack.len();
    let Some(at) = one_i32(given) else {
        return Err(Trap::CoreShape);
    };
    answer(alloc, state, link, way, call, at, values)
}
