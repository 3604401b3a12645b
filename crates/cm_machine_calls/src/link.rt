//! What a link says of a value that is passed one way.

ghost use Rattle.std.specs.Prelude.{◌≡◌, ◌<◌, IfSome, length};
ghost use Rattle.cm_layout.specs.Layouts.{layout_of};
ghost use Rattle.cm_layout.specs.Shapes.{layout_of_fields_at};
ghost use Rattle.cm_abi_model.specs.Receives.{call_kinds};
ghost use Rattle.cm_abi_model.specs.Views.{flat_limit};
ghost use Rattle.cm_abi_model.specs.Ways.{way_of};
ghost use Rattle.cm_abi_programs.specs.CallPuts.{call_puts_in, call_puts_of};
ghost use Rattle.cm_abi_programs.specs.Checks.{passed_checks_of};
ghost use Rattle.cm_abi_programs.specs.Coded.{checks_in};
ghost use Rattle.cm_abi_slots.specs.Steps.{AreStepsOf};
ghost use Rattle.cm_machine_model.specs.Plan.{Link as RulesLink, giver_side, receiver_side};
ghost use Rattle.cm_machine_model.specs.Plan.{types_of};
ghost use Rattle.cm_machine_model.specs.Step.{giver_of, in_phase, receiver_of};
ghost use Rattle.cm_machine_parts.specs.States.{state_of};
ghost use Rattle.cm_machine_parts.specs.Links.{IsLinkOf, ArePassed};

use cm_abi::{Receiver, Way};
use cm_abi_model::Encodings;
use cm_abi_programs::{CallPuts, Check};
use cm_abi_slots::SlotStep;
use cm_layout::Layout;
use cm_machine_model::state::{Call, Frame, Phase, Purpose};
use cm_machine_parts::{Link, PassedTypes, State};
use cm_types::CoreKind;

/// The types of what a link passes that way.
fn types_of(link: &Link, way: Way) -> &PassedTypes
    ensures { (l : RulesLink) → IsLinkOf l link.now
        → ArePassed (way_of way) (types_of l (way_of way)) result.now }
{
    let types = &*link.types;
    match way {
        Way::Params => &types.params,
        Way::Results => &types.results,
    }
}

/// The layout of the tuple of what a link passes that way.
pub(crate) fn layout_of(link: &Link, way: Way) -> &Layout
    ensures { (l : RulesLink) → IsLinkOf l link.now
        → layout_of result.now ≡ layout_of_fields_at (types_of l (way_of way)) }
{
    let types = types_of(link, way);
    &types.layout
}

/// The kinds of the core values that pass it, where a lifted function takes or gives them.
pub(crate) fn kinds_of(link: &Link, way: Way) -> &[CoreKind]
    ensures { (l : RulesLink) → IsLinkOf l link.now
        → result.now ≡ call_kinds (way_of way) (types_of l (way_of way)) }
{
    let types = types_of(link, way);
    types.kinds.as_slice()
}

/// What each core value becomes that passes it, where they are numbers alone, which pass at once.
pub(crate) fn steps_of(link: &Link, way: Way) -> Option<&[SlotStep]>
    ensures { (l : RulesLink) → IsLinkOf l link.now
        → IfSome result (λ steps. AreStepsOf (way_of way) (types_of l (way_of way)) steps.now) }
{
    let types = types_of(link, way);
    match &types.steps {
        Some(steps) => Some(steps.as_slice()),
        None => None,
    }
}

/// What has to be looked at in it, where it is given.
pub(crate) fn checks_of(link: &Link, way: Way) -> &[Check]
    ensures { (l : RulesLink) → IsLinkOf l link.now
        → checks_in result.now ≡ passed_checks_of (flat_limit (way_of way))
        (layout_of_fields_at (types_of l (way_of way))) }
{
    let types = types_of(link, way);
    types.checks.as_slice()
}

/// What has to be written of it, where it is received.
pub(crate) fn puts_of(link: &Link, way: Way) -> &CallPuts
    ensures { (l : RulesLink) → IsLinkOf l link.now
        → call_puts_in result.now ≡ call_puts_of (flat_limit (way_of way))
        (layout_of_fields_at (types_of l (way_of way))) }
{
    let types = types_of(link, way);
    &types.puts
}

/// How strings are encoded by who gives what is passed that way, and by who receives it.
pub(crate) fn encodings_of(link: &Link, way: Way) -> Encodings
    ensures source { (l : RulesLink) → IsLinkOf l link.now
        → result.source ≡ (giver_side l (way_of way)).encoding }
    ensures target { (l : RulesLink) → IsLinkOf l link.now
        → result.target ≡ (receiver_side l (way_of way)).encoding }
{
    match way {
        Way::Params => Encodings {
            source: link.caller.encoding,
            target: link.callee.encoding,
        },
        Way::Results => Encodings {
            source: link.callee.encoding,
            target: link.caller.encoding,
        },
    }
}

/// The allocator of who receives what is passed that way.
pub(crate) fn realloc_of(link: &Link, way: Way) -> Option<u32>
    ensures { (l : RulesLink) → IsLinkOf l link.now
        → result ≡ (receiver_side l (way_of way)).realloc }
{
    match way {
        Way::Params => link.callee.realloc,
        Way::Results => link.caller.realloc,
    }
}

/// Who gives what is passed that way.
pub(crate) fn giver_of(link: &Link, call: &Call, way: Way) -> u32
    ensures { (l : RulesLink) → IsLinkOf l link.now → result ≡ giver_of (way_of way) l call.now }
{
    match way {
        Way::Params => call.caller,
        Way::Results => link.instance,
    }
}

/// Who receives it, in the call whose frame has this place.
pub(crate) fn receiver_of(link: &Link, call: &Call, way: Way, place: u32) -> Receiver
    ensures { (l : RulesLink) → IsLinkOf l link.now
        → result ≡ receiver_of (way_of way) place l call.now }
{
    match way {
        Way::Params => Receiver {
            instance: link.instance,
            call: place,
        },
        Way::Results => Receiver {
            instance: call.caller,
            call: place,
        },
    }
}

/// The call on top is in another phase.
pub(crate) fn put_phase(state: &mut State, link: &Link, call: &Call, phase: Phase)
    requires { 0 < length state.old.stack.frames }
    ensures phase { (l : RulesLink) → IsLinkOf l link.now
        → state_of state.new ≡ in_phase phase l.instance call.now (state_of state.old) }
    ensures borrows { state.new.stack.borrows ≡ state.old.stack.borrows }
    ensures passing { state.new.passing ≡ state.old.passing }
{
    state.stack.turn(Frame {
        instance: link.instance,
        purpose: Purpose::Call(Call {
            caller: call.caller,
            func: call.func,
            result_at: call.result_at,
            phase,
        }),
    });
}
