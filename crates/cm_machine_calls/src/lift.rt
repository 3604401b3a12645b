//! Lifting what a link passes, in a running set (CanonicalABI.md, `lift_flat_values`).

ghost use Rattle.std.specs.Prelude.{◌≡◌, ◌^◌, ◌<◌, ◌++◌, ◌≤◌, IfErr, MatchResult, OnErr, OnOk, ℕ};
ghost use Rattle.std.specs.Prelude.{false, length, slice_index, true};
ghost use Rattle.cm_abi_model.specs.Lifts.{IsGivenBy, LendsBelow};
ghost use Rattle.cm_abi_model.specs.Views.{View};
ghost use Rattle.cm_abi_model.specs.Ways.{way_of};
ghost use Rattle.cm_machine_model.specs.Plan.{Link as RulesLink, giver_side};
ghost use Rattle.cm_machine_calls.specs.Lifting.{IsSeen, StopsLift};
ghost use Rattle.cm_machine_parts.specs.Links.{IsLinkOf};
ghost use Rattle.cm_types.specs.declared.core_value.CoreValue.{CoreValue};
ghost use Rattle.cm_machine_model.specs.State.{lends_to, table_at};
ghost use Rattle.cm_machine_parts.specs.Kept.{IsEncoded};
ghost use Rattle.cm_machine_parts.specs.States.{state_of};
ghost use Rattle.cm_types.specs.declared.limits.TheConstants.{MAX_FLAT_PARAMS};
ghost use Rattle.cm_machine_parts.specs.Lends.{NoneAbove};
ghost use Rattle.cm_machine_calls.specs.Going.{LiftsOrStops};

use crate::link::{checks_of, encodings_of, layout_of};
use crate::traps::trap_of;
use cm_abi::laws::one_copied_call;
use cm_abi::{Passed, Scan, Way};
use cm_abi_copy::scan_by;
use cm_abi_requests::requesting_laws::records_ask_for_parts;
use cm_handles::Table;
use cm_machine_model::Trap;
use cm_machine_model::state::{Lend, Place};
use cm_machine_parts::{Link, State, put_owners};
use cm_types::CoreValue;
use std::alloc::Global;

/// A memory is one of bytes.
fn are_bytes(memory: &[u8])
    ensures { (i : ℕ) → slice_index memory.now i < 2 ^ 8 }
{}

/// Scans what core values pass over a link that way, in the memory and with the handles of their
/// giver (CanonicalABI.md, "Lifting and Lowering Values"). What is kept of the values is put into
/// `kept`; the handles that are owned go out of the table, and those that are borrowed are lent.
///
/// Else the answer is the trap of the first thing in reading order that is wrong, or
/// `EngineMemory`, where the values may have parts or handles; the table is as it was, and
/// nothing is kept.
pub(crate) fn scan_flat_values(
    alloc: Global,
    kept: &mut Scan,
    memory: &[u8],
    table: &mut Table,
    link: &Link,
    way: Way,
    slots: &[CoreValue],
) -> Result<(), Trap>
    requires link { (l : RulesLink) × IsLinkOf l link.now }
    requires lends { LendsBelow (2 ^ 100) table.old.handles }
    ensures looks { (l : RulesLink) (w : View) → IsLinkOf l link.now
        → IsGivenBy w memory.now table.old.handles (giver_side l (way_of way)).encoding
        → MatchResult result
        (λ _. IsSeen w l (way_of way) slots.now table.new.handles kept.new)
        (λ t. StopsLift w l (way_of way) slots.now t) }
    ensures value { OnOk result (kept.new.has_value ≡ true) }
    ensures none { OnErr result (kept.new.has_value ≡ false) }
    ensures unchanged { OnErr result (table.new ≡ table.old) }
{
    one_copied_call();
    are_bytes(memory);
    let layout = layout_of(link, way);
    let passed = Passed { way, layout, slots };
    let encodings = encodings_of(link, way);
    let checks = checks_of(link, way);
    match scan_by(alloc, kept, memory, table, encodings, &passed, checks) {
        Ok(()) => Ok(()),
        Err(fault) => Err(trap_of(fault)),
    }
}

/// A list of lends is shorter than 2^64.
pub(crate) fn few_lends(lends: &[Lend])
    ensures { length lends.now < 2 ^ 64 }
{
    let _count = lends.len();
}

/// Lifts what core values pass over a link that way, in the view of their giver, for the call whose
/// frame has this place, or will have it (CanonicalABI.md, `lift_flat_values`, `lift_own`,
/// `lift_borrow`). The
/// handles that are owned go out of the giver's table, and their resources are on their way; those
/// that are borrowed are lent, and stand in what is kept of the scan until `lend` puts them among
/// the lends. Else the answer is the trap, and the state is as it was.
#[inline(always)]
pub(crate) fn lift_flat_values(
    alloc: Global,
    state: &mut State,
    link: &Link,
    way: Way,
    giver: u32,
    place: u32,
    slots: &[CoreValue],
) -> Result<(), Trap>
    requires link { (l : RulesLink) × IsLinkOf l link.now }
    requires table { giver < length state.old.tables.items }
    requires memory { giver < length state.old.memories }
    requires lends { LendsBelow (2 ^ 100) (table_at (state_of state.old).tables giver) }
    requires few { length slots.now ≤ MAX_FLAT_PARAMS }
    requires idle { state.old.passing.scan.has_value ≡ false }
    ensures lifts { (l : RulesLink) (call : ℕ) → IsLinkOf l link.now
        → LiftsOrStops state.old state.new l (way_of way) giver call place slots.now result }
    ensures encoded { (l : RulesLink) → IsLinkOf l link.now
        → OnOk result (IsEncoded l (way_of way) state.new.passing) }
    ensures passes { OnOk result (state.new.passing.scan.has_value ≡ true) }
    ensures stack { state.new.stack ≡ state.old.stack }
    ensures unchanged { OnErr result (state_of state.new ≡ state_of state.old) }
{
    records_ask_for_parts();
    let Some(memory) = state.memories.get(giver as usize) else {
        unreachable!()
    };
    let kept = &mut state.passing.scan;
    let table = &mut state.tables[giver as usize];
    match scan_flat_values(alloc, kept, memory, table, link, way, slots) {
        Ok(()) => {}
        Err(trap) => return Err(trap),
    }
    let travelling = Place::Travelling { frame: place };
    put_owners(&mut state.owners, state.passing.scan.handles(), travelling);
    state.passing.slots.set(slots);
    Ok(())
}

/// Puts the handles of an instance that the scan of what is on its way has lent among the lends, to
/// the call whose frame has this place (CanonicalABI.md, `lift_borrow`, `add_lender`). Room is made
/// first: a refusal changes nothing, and comes only where a handle was lent.
pub(crate) fn lend(state: &mut State, place: u32, giver: u32) -> Result<(), Trap>
    requires { NoneAbove place state.old.lends }
    ensures ok { OnOk result (state_of state.new ≡ record (state_of state.old) {
      lends = state.old.lends ++ lends_to place giver state.old.passing.scan.lends;
    }) }
    ensures err { IfErr result (λ t. t ≡ Trap.EngineMemory) }
    ensures some { OnErr result (0 < length state.old.passing.scan.lends) }
    ensures unchanged { OnErr result (state_of state.new ≡ state_of state.old) }
    ensures stack { state.new.stack ≡ state.old.stack }
    ensures passing { state.new.passing ≡ state.old.passing }
{
    let indices = state.passing.scan.lends();
    if indices.is_empty() {
        return Ok(());
    }
    match state.lends.add(place, giver, indices) {
        Ok(added) => Ok(added),
        Err(_) => Err(Trap::EngineMemory),
    }
}
