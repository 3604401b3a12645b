//! Values that are numbers alone: they pass at once, nothing is kept of them, and nothing is asked
//! for (CanonicalABI.md, "Lifting and Lowering Values"; that each passes by a step that is listed
//! beforehand is this project's own choice).

ghost use Rattle.std.specs.Prelude.{◌≡◌, ◌≤◌, IsSome, List, MatchResult, OnOk, length, map};
ghost use Rattle.cm_types.specs.CoreValues.{kind_of};
ghost use Rattle.cm_types.specs.Types.{Fields};
ghost use Rattle.cm_types.specs.Values.{Val};
ghost use Rattle.cm_types.specs.declared.core_value.CoreValue.{CoreValue};
ghost use Rattle.cm_types.specs.declared.limits.TheConstants.{MAX_FLAT_PARAMS};
ghost use Rattle.cm_layout.specs.Flattening.{flat_of_fields};
ghost use Rattle.cm_abi_model.specs.LiftStops.{LiftStops};
ghost use Rattle.cm_abi_model.specs.Views.{View, Way, params, results};
ghost use Rattle.cm_abi_model.specs.declared.fault.AbiFault.{AbiFault};
ghost use Rattle.cm_abi_slots.specs.Passing.{PassesNumbers};
ghost use Rattle.cm_abi_slots.specs.Steps.{AreStepsOf};
ghost use Rattle.cm_machine_model.specs.declared.frame.Phase.TheVariants as phases;
ghost use Rattle.cm_machine_model.specs.Plan.{Link as RulesLink, Plan, returned_kinds, types_of};
ghost use Rattle.cm_machine_model.specs.Stack.{actor};
ghost use Rattle.cm_machine_model.specs.Step.{AreOf, PassesArguments, ReturnsResult, trap_of};
ghost use Rattle.cm_machine_parts.specs.Kept.{IsKept};
ghost use Rattle.cm_machine_parts.specs.Links.{IsLinkOf};
ghost use Rattle.cm_machine_parts.specs.Rows.{MeetsRow};
ghost use Rattle.cm_machine_parts.specs.States.{state_of};
ghost use Rattle.cm_machine_calls.specs.Calling.{IsReturned, MayCall};

use crate::arguments::Arguments;
use crate::exit::exit_call;
use crate::traps::trap_of;
use cm_abi_slots::laws::each_core_value_has_a_step;
use cm_abi_slots::{SlotStep, pass_slots};
use cm_machine_laws::valid_laws::what_is_met_is_the_values_handles;
use cm_machine_model::state::{Call, Frame, Phase, Purpose};
use cm_machine_model::{Flat, Trap};
use cm_machine_parts::laws::{calls_can_end, frames_have_instances, what_is_kept_stays};
use cm_machine_parts::{Link, Outcome, State, actor};
use cm_types::CoreValue;

/// Passes core values that are numbers alone by their steps, into `values`: what they denote is
/// lifted and lowered.
///
/// Else the answer is the trap of the first thing that is wrong. No memory is taken.
#[inline(always)]
fn pass_numbers(steps: &[SlotStep], slots: &[CoreValue], values: &mut Flat) -> Result<(), Trap>
    requires few { length slots.now ≤ MAX_FLAT_PARAMS }
    requires each { length slots.now ≡ length steps.now }
    ensures passes { (w : View) (way : Way) (types : Fields) → AreStepsOf way types steps.now
        → map kind_of slots.now ≡ flat_of_fields types → MatchResult result
        (λ _. (v : Val) × PassesNumbers w way types slots.now values.new v)
        (λ t. (f : AbiFault) × LiftStops w way types slots.now f × (t ≡ trap_of f)) }
{
    values.set(slots);
    match pass_slots(steps, values.as_mut_slice()) {
        Ok(()) => Ok(()),
        Err(fault) => Err(trap_of(fault)),
    }
}

/// Passes the arguments of a call, which are numbers alone: its frame is put on the stack, and its
/// body begins (CanonicalABI.md, `enter_call`).
///
/// Else the answer is the trap of the first argument that is wrong, and the state is as it was.
pub(crate) fn enter_with_numbers(
    state: &mut State,
    top: &Frame,
    func: u32,
    link: &Link,
    steps: &[SlotStep],
    arguments: &Arguments<'_>,
    values: &mut Flat,
) -> Result<Outcome, Trap>
    requires may { (plan : Plan) × (l : RulesLink) × (args : List CoreValue)
        × MayCall plan state.old top.now func l link.now args arguments.now }
    requires steps { (l : RulesLink) → IsLinkOf l link.now
        → AreStepsOf params (types_of l params) steps.now }
    ensures row { (plan : Plan) (l : RulesLink) (args : List CoreValue)
        → MayCall plan state.old top.now func l link.now args arguments.now
        → MeetsRow (PassesArguments (state_of state.old) (actor top.now) func l args) result
        values.new (state_of state.new) }
    ensures kept { (plan : Plan) (l : RulesLink) (args : List CoreValue)
        → MayCall plan state.old top.now func l link.now args arguments.now
        → OnOk result (IsKept plan state.new) }
{
    each_core_value_has_a_step();
    frames_have_instances();
    what_is_kept_stays();
    what_is_met_is_the_values_handles();
    // Read first, so that the check knows how many numbers of borrows there are.
    let _ = state.stack.len();
    match pass_numbers(steps, arguments.slots, values) {
        Ok(()) => {}
        Err(trap) => return Err(trap),
    }
    state.stack.push(Frame {
        instance: link.instance,
        purpose: Purpose::Call(Call {
            caller: actor(top),
            func,
            result_at: arguments.result_at,
            phase: Phase::Body,
        }),
    });
    Ok(Outcome::Enter {
        instance: link.instance,
        func: link.func,
    })
}

/// Keeps the core values that a body returned for what tidies up behind it, if it has a function
/// for that.
fn keep_for_post_return(link: &Link, given: &[CoreValue], slots: &mut Flat)
    requires { length given.now ≤ MAX_FLAT_PARAMS }
    ensures { IsSome link.now.post_return → slots.new ≡ given.now }
{
    if link.post_return.is_some() {
        slots.set(given);
    }
}

/// Passes the result of the body of the call on top, which is a number or none, and finishes the
/// call (CanonicalABI.md, `exit_call`).
///
/// Else the answer is the trap of what is wrong with it, and the state is as it was.
pub(crate) fn exit_with_numbers(
    state: &mut State,
    call: &Call,
    link: &Link,
    steps: &[SlotStep],
    given: &[CoreValue],
    values: &mut Flat,
) -> Result<Outcome, Trap>
    requires returned { (plan : Plan) × (l : RulesLink)
        × IsReturned plan state.old call.now l link.now }
    requires body { call.now.phase ≡ phases.Body }
    requires kinds { (l : RulesLink) → IsLinkOf l link.now → AreOf (returned_kinds l) given.now }
    requires steps { (l : RulesLink) → IsLinkOf l link.now
        → AreStepsOf results (types_of l results) steps.now }
    ensures row { (plan : Plan) (l : RulesLink)
        → IsReturned plan state.old call.now l link.now
        → MeetsRow (ReturnsResult (state_of state.old) l call.now given.now) result values.new
        (state_of state.new) }
    ensures kept { (plan : Plan) (l : RulesLink)
        → IsReturned plan state.old call.now l link.now
        → OnOk result (IsKept plan state.new) }
{
    each_core_value_has_a_step();
    calls_can_end();
    what_is_met_is_the_values_handles();
    match pass_numbers(steps, given, values) {
        Ok(()) => {}
        Err(trap) => return Err(trap),
    }
    keep_for_post_return(link, given, &mut state.passing.slots);
    Ok(exit_call(state, link, call, values))
}
