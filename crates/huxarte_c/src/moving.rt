//! A set that is played move by move.

ghost use Rattle.std.specs.Prelude.{◌≡◌, IfErr, IfOk, OnErr, OnOk, Some, map};
ghost use Rattle.cm_live.specs.Statements.{IsNoStep};
ghost use Rattle.cm_machine_model.specs.Moves.{CallsWith, ReturnsWith, WritesAt};
ghost use Rattle.cm_machine_model.specs.declared.moves.Move.{Move as Made};
ghost use Rattle.cm_machine_model.specs.declared.moves.Move.TheVariants as moves;
ghost use Rattle.huxarte_c.specs.Cores.{value_of};
ghost use Rattle.huxarte_c.specs.Kept.{Begins, IsDone, IsDoneVerdict, IsNoBegin, IsNoCoreMove};
ghost use Rattle.huxarte_c.specs.Kept.{IsNoListMove, IsNoMove, IsNoMoveBy, KeptBegins};
ghost use Rattle.huxarte_c.specs.Kept.{KeptSteps, Moves};
ghost use Rattle.huxarte_c.specs.PlayedSets.{PlayedSet};

use crate::cores::{HuxCore, values_of};
use crate::event::HuxEvent;
use crate::hux_set::HuxSet;
use crate::refusal::{SetRefusal, verdict};
use cm_machine_model::{Event, Misuse, Move};
use huxarte_c_calls::HuxVerdict;
use std::alloc::Global;

/// Begins a root call of an instance of the set that is kept.
fn begin_root(alloc: Global, set: &mut HuxSet, instance: u32) -> Result<(), SetRefusal>
    ensures begins { OnOk result (KeptBegins set.old.kept instance set.new.kept) }
    ensures refused { IfErr result (IsNoBegin set.old.kept instance) }
    ensures stays { OnErr result (set.new.kept ≡ set.old.kept) }
{
    let Some(mut kept) = set.take(alloc) else {
        return Err(SetRefusal::Empty);
    };
    let begun = kept.begin(instance);
    set.put(alloc, kept);
    match begun {
        Ok(()) => Ok(()),
        Err(misuse) => Err(SetRefusal::Misuse(misuse)),
    }
}

/// Begins a root call, and tells its event.
fn begin_told(
    alloc: Global,
    set: &mut HuxSet,
    instance: u32,
    event: &mut HuxEvent,
) -> Result<(), SetRefusal>
    ensures { IsDone (Begins set.old.kept instance) (IsNoBegin set.old.kept instance)
        set.old.kept set.new.kept event.old event.new result }
{
    match begin_root(alloc, set, instance) {
        Ok(()) => {
            *event = HuxEvent::resumed(instance);
            Ok(())
        }
        Err(refusal) => Err(refusal),
    }
}

/// Why a move is not made.
fn refusal_of(misuse: Misuse) -> SetRefusal
    ensures { (s : PlayedSet) (m : Made) → IsNoStep s.set m misuse → IsNoMoveBy m (Some s) result }
{
    match misuse {
        Misuse::Memory => SetRefusal::Memory,
        Misuse::Idle => SetRefusal::Misuse(Misuse::Idle),
        Misuse::Busy | Misuse::Closed | Misuse::NoInstance | Misuse::BadPages => {
            SetRefusal::Misuse(misuse)
        }
    }
}

/// One move of the set that is kept: its event.
fn step(alloc: Global, set: &mut HuxSet, made: &Move) -> Result<Event, SetRefusal>
    ensures step { IfOk result (λ e. KeptSteps set.old.kept made.now e set.new.kept) }
    ensures refused { IfErr result (IsNoMoveBy made.now set.old.kept) }
    ensures stays { OnErr result (set.new.kept ≡ set.old.kept) }
{
    let Some(mut kept) = set.take(alloc) else {
        return Err(SetRefusal::Empty);
    };
    let stepped = kept.step(made);
    set.put(alloc, kept);
    match stepped {
        Ok(event) => Ok(event),
        Err(misuse) => Err(refusal_of(misuse)),
    }
}

/// One move of the set that is kept, whose event is told.
fn make_move(
    alloc: Global,
    set: &mut HuxSet,
    made: &Move,
    event: &mut HuxEvent,
) -> Result<(), SetRefusal>
    ensures { IsDone (Moves (λ m. m ≡ made.now) set.old.kept) (IsNoMoveBy made.now set.old.kept)
        set.old.kept set.new.kept event.old event.new result }
{
    match step(alloc, set, made) {
        Ok(led_to) => {
            *event = HuxEvent::of(&led_to);
            Ok(())
        }
        Err(refusal) => Err(refusal),
    }
}

/// Writes bytes into the memory of the instance that acts.
fn write_bytes(
    alloc: Global,
    set: &mut HuxSet,
    at: u32,
    bytes: &[u8],
    event: &mut HuxEvent,
) -> Result<(), SetRefusal>
    ensures { IsDone (Moves (WritesAt at bytes.now) set.old.kept) (IsNoListMove set.old.kept)
        set.old.kept set.new.kept event.old event.new result }
{
    match Move::write(alloc, at, bytes) {
        Ok(made) => make_move(alloc, set, &made, event),
        Err(_) => Err(SetRefusal::Memory),
    }
}

/// Calls a core function of the component of the instance that acts.
fn call_func(
    alloc: Global,
    set: &mut HuxSet,
    func: u32,
    args: &[HuxCore],
    event: &mut HuxEvent,
) -> Result<(), SetRefusal>
    ensures { IsDone (Moves (CallsWith func (map value_of args.now)) set.old.kept)
        (IsNoCoreMove args.now set.old.kept)
        set.old.kept set.new.kept event.old event.new result }
{
    match values_of(alloc, args) {
        Ok(args) => make_move(alloc, set, &Move::Call { func, args }, event),
        Err(refusal) => Err(refusal),
    }
}

/// Returns from the function that the instance that acts is in.
fn give_values(
    alloc: Global,
    set: &mut HuxSet,
    values: &[HuxCore],
    event: &mut HuxEvent,
) -> Result<(), SetRefusal>
    ensures { IsDone (Moves (ReturnsWith (map value_of values.now)) set.old.kept)
        (IsNoCoreMove values.now set.old.kept)
        set.old.kept set.new.kept event.old event.new result }
{
    match values_of(alloc, values) {
        Ok(values) => make_move(alloc, set, &Move::Return { values }, event),
        Err(refusal) => Err(refusal),
    }
}

/// Begins a root call of an instance, from 0, and tells its event: the instance makes the next
/// move.
///
/// `Misuse` comes where a call stands on the stack (2), else where the instance is closed (3), else
/// where there is none (4).
pub fn begin(alloc: Global, set: &mut HuxSet, instance: u32, event: &mut HuxEvent) -> HuxVerdict
    ensures { IsDoneVerdict (Begins set.old.kept instance) (IsNoBegin set.old.kept instance)
        set.old.kept set.new.kept event.old event.new result }
{
    verdict(begin_told(alloc, set, instance, event))
}

/// Writes bytes into the memory of the instance that acts, the first one at the address `at`.
pub fn write(
    alloc: Global,
    set: &mut HuxSet,
    at: u32,
    bytes: &[u8],
    event: &mut HuxEvent,
) -> HuxVerdict
    ensures { IsDoneVerdict (Moves (WritesAt at bytes.now) set.old.kept)
        (IsNoListMove set.old.kept)
        set.old.kept set.new.kept event.old event.new result }
{
    verdict(write_bytes(alloc, set, at, bytes, event))
}

/// Asks for so many more pages, of 65,536 bytes each, at the end of the memory of the instance that
/// acts.
pub fn grow(alloc: Global, set: &mut HuxSet, pages: u32, event: &mut HuxEvent) -> HuxVerdict
    ensures { IsDoneVerdict (Moves (λ m. m ≡ moves.Grow pages) set.old.kept)
        (IsNoMove set.old.kept)
        set.old.kept set.new.kept event.old event.new result }
{
    verdict(make_move(alloc, set, &Move::Grow { pages }, event))
}

/// Calls the core function of the acting instance's component that has this index, from 0.
pub fn call(
    alloc: Global,
    set: &mut HuxSet,
    func: u32,
    args: &[HuxCore],
    event: &mut HuxEvent,
) -> HuxVerdict
    ensures { IsDoneVerdict (Moves (CallsWith func (map value_of args.now)) set.old.kept)
        (IsNoCoreMove args.now set.old.kept)
        set.old.kept set.new.kept event.old event.new result }
{
    verdict(call_func(alloc, set, func, args, event))
}

/// Returns from the function that the instance that acts is in.
pub fn give(alloc: Global, set: &mut HuxSet, values: &[HuxCore], event: &mut HuxEvent) -> HuxVerdict
    ensures { IsDoneVerdict (Moves (ReturnsWith (map value_of values.now)) set.old.kept)
        (IsNoCoreMove values.now set.old.kept)
        set.old.kept set.new.kept event.old event.new result }
{
    verdict(give_values(alloc, set, values, event))
}

/// Stops the instance that acts, which is a trap.
pub fn stop(alloc: Global, set: &mut HuxSet, event: &mut HuxEvent) -> HuxVerdict
    ensures { IsDoneVerdict (Moves (λ m. m ≡ moves.Unreachable) set.old.kept)
        (IsNoMove set.old.kept)
        set.old.kept set.new.kept event.old event.new result }
{
    verdict(make_move(alloc, set, &Move::Unreachable, event))
}
