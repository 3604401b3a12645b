//! Values that core values denote, with no tree made of them.

ghost use Rattle.std.specs.Prelude.{◌≡◌, ◌^◌, ◌<◌, ◌⊎◌, [], Err, IfErr, IfSome, IsOk, Ok};
ghost use Rattle.std.specs.Prelude.{OnOk};
ghost use Rattle.std.specs.Prelude.{◌*◌, ◌≤◌, Bool, List, MatchResult, OnErr, length, true};
ghost use Rattle.cm_types.specs.Types.{Fields};
ghost use Rattle.cm_types.specs.Values.{Val};
ghost use Rattle.cm_layout.specs.Layouts.{layout_of};
ghost use Rattle.cm_handles.specs.Handles.{IsSoundHandles};
ghost use Rattle.cm_abi_model.specs.HandleLeaves.{leaves_of};
ghost use Rattle.cm_abi_model.specs.Lifts.{IsGivenBy, LendsBelow};
ghost use Rattle.cm_abi_model.specs.Scanned.{ScansCall, all_kept, nothing_kept, scanned_with};
ghost use Rattle.cm_abi_model.specs.Scanned.{things_kept};
ghost use Rattle.cm_abi_model.specs.Views.{View, flat_limit};
ghost use Rattle.cm_abi_model.specs.Ways.{way_of};
ghost use Rattle.cm_abi_load.specs.Meeting.{AreAsWanted};
ghost use Rattle.cm_abi_lift.specs.Lifts.{IsTupleOf, lift_of};
ghost use Rattle.cm_abi_programs.specs.Checks.{passed_checks_of};
ghost use Rattle.cm_abi_programs.specs.Coded.{checks_in};
ghost use Rattle.cm_abi_copy.specs.Kept.{AreAtRest, kept_in};
ghost use Rattle.cm_abi_copy.specs.MetLeaves.{leaves_found};
ghost use Rattle.cm_abi_copy.specs.Scans.{IsFaultOfScan, IsKept, KeepsNothing, giver_of};

use crate::handles_met;
use crate::kept::{Lists, Scan};
use crate::met_laws::handles_that_are_met_are_the_values;
use crate::passed::scan_passed;
use crate::scan_call_laws::{records_tell_what_is_passed, what_has_nothing_keeps_nothing};
use cm_abi_lift::laws::{first_faults_are_told, lifting_is_exact, what_is_passed_is_met};
use cm_abi_lift::{Passed, first_fault, hand_over, is_sound};
use cm_abi_load::{Giver, MetHandle, Stop};
use cm_abi_model::laws::nothing_is_met_without_parts;
use cm_abi_model::{AbiFault, Encodings, HandleLeaf, MAX_CONTENT};
use cm_abi_programs::Check;
use cm_abi_requests::laws::content_of_what_is_denoted;
use cm_abi_requests::requesting_laws::small_parts_can_be_asked_for;
use cm_handles::Table;
use cm_layout::Layout;
use std::alloc::Global;

/// Looks at the values that core values denote, by the layout of the tuple of their types, in the
/// view of an instance: its memory, its handle table and how its strings are encoded
/// (CanonicalABI.md, "Lifting and Lowering Values"). No tree is made of them: what is kept of them
/// is put into `kept`, in the place of what stood there.
///
/// It succeeds where `cm_abi_lift::lift` does, with the same handles taken out of the table and
/// lent, and else answers the same first fault, with the table as it was, and then nothing is kept.
/// The caller gives a table whose handles are lent fewer than 2^100 times. The records tell the
/// parts of the values, each at its place, and can be asked for; the handles are told as the values
/// have them. All lists together then have at most two members for each part and handle. Memory is
/// taken for parts, tags of strings and handles alone; `EngineMemory` comes where there is none for
/// them, and values that have no part and no handle are never refused for it.
pub fn scan(
    alloc: Global,
    kept: &mut Scan,
    memory: &[u8],
    table: &mut Table,
    encodings: Encodings,
    passed: &Passed<'_>,
) -> Result<(), AbiFault>
    requires layout { (types : Fields) × IsTupleOf types passed.now }
    requires lends { LendsBelow (2 ^ 100) table.old.handles }
    ensures scans { (w : View) (types : Fields)
        → IsGivenBy w memory.now table.old.handles encodings.source → IsTupleOf types passed.now
        → MatchResult result
        (λ _. (v : Val) × ScansCall w encodings.target (way_of passed.now.way) types
        passed.now.slots.now v table.new.handles kept.new)
        (IsFaultOfScan w types passed.now) }
    ensures value { OnOk result (kept.new.has_value ≡ true) }
    ensures few { OnOk result (all_kept kept.new ≤ 2 * things_kept kept.new) }
    ensures walked { OnOk result ((v : Val)
        × IsKept (giver_of memory.now table.old.handles encodings.source) encodings.target
        (flat_limit (way_of passed.now.way)) (layout_of passed.now.layout.now) passed.now.slots.now
        v kept.new) }
    ensures sound { IsSoundHandles table.new.handles }
    ensures unchanged { OnErr result (table.new ≡ table.old) }
    ensures empty { OnErr result (kept.new ≡ nothing_kept) }
{
    scan_either(alloc, kept, memory, table, encodings, passed, None)
}

/// Looks at the values that core values denote as [`scan`] does, by the checks of what passes their
/// types (`cm_abi_programs`), which are listed once: the layout is not walked.
pub fn scan_by(
    alloc: Global,
    kept: &mut Scan,
    memory: &[u8],
    table: &mut Table,
    encodings: Encodings,
    passed: &Passed<'_>,
    checks: &[Check],
) -> Result<(), AbiFault>
    requires layout { (types : Fields) × IsTupleOf types passed.now }
    requires lends { LendsBelow (2 ^ 100) table.old.handles }
    requires checks { checks_in checks.now ≡ passed_checks_of
        (flat_limit (way_of passed.now.way)) (layout_of passed.now.layout.now) }
    ensures scans { (w : View) (types : Fields)
        → IsGivenBy w memory.now table.old.handles encodings.source → IsTupleOf types passed.now
        → MatchResult result
        (λ _. (v : Val) × ScansCall w encodings.target (way_of passed.now.way) types
        passed.now.slots.now v table.new.handles kept.new)
        (IsFaultOfScan w types passed.now) }
    ensures value { OnOk result (kept.new.has_value ≡ true) }
    ensures few { OnOk result (all_kept kept.new ≤ 2 * things_kept kept.new) }
    ensures walked { OnOk result ((v : Val)
        × IsKept (giver_of memory.now table.old.handles encodings.source) encodings.target
        (flat_limit (way_of passed.now.way)) (layout_of passed.now.layout.now) passed.now.slots.now
        v kept.new) }
    ensures sound { IsSoundHandles table.new.handles }
    ensures unchanged { OnErr result (table.new ≡ table.old) }
    ensures empty { OnErr result (kept.new ≡ nothing_kept) }
{
    scan_either(alloc, kept, memory, table, encodings, passed, Some(checks))
}

/// `scan`, by checks where there are some, else by the layout.
#[inline(always)]
fn scan_either(
    alloc: Global,
    kept: &mut Scan,
    memory: &[u8],
    table: &mut Table,
    encodings: Encodings,
    passed: &Passed<'_>,
    checks: Option<&[Check]>,
) -> Result<(), AbiFault>
    requires layout { (types : Fields) × IsTupleOf types passed.now }
    requires lends { LendsBelow (2 ^ 100) table.old.handles }
    requires checks { IfSome checks (λ cs. checks_in cs.now ≡ passed_checks_of
        (flat_limit (way_of passed.now.way)) (layout_of passed.now.layout.now)) }
    ensures scans { (w : View) (types : Fields)
        → IsGivenBy w memory.now table.old.handles encodings.source → IsTupleOf types passed.now
        → MatchResult result
        (λ _. (v : Val) × ScansCall w encodings.target (way_of passed.now.way) types
        passed.now.slots.now v table.new.handles kept.new)
        (IsFaultOfScan w types passed.now) }
    ensures value { OnOk result (kept.new.has_value ≡ true) }
    ensures few { OnOk result (all_kept kept.new ≤ 2 * things_kept kept.new) }
    ensures walked { OnOk result ((v : Val)
        × IsKept (giver_of memory.now table.old.handles encodings.source) encodings.target
        (flat_limit (way_of passed.now.way)) (layout_of passed.now.layout.now) passed.now.slots.now
        v kept.new) }
    ensures sound { IsSoundHandles table.new.handles }
    ensures unchanged { OnErr result (table.new ≡ table.old) }
    ensures empty { OnErr result (kept.new ≡ nothing_kept) }
{
    lifting_is_exact();
    first_faults_are_told();
    records_tell_what_is_passed();
    nothing_is_met_without_parts();
    what_has_nothing_keeps_nothing();
    what_is_passed_is_met();
    match scan_values(
        alloc,
        &mut kept.lists,
        memory,
        table,
        encodings,
        passed,
        checks,
    ) {
        Ok(()) => {
            kept.has_value = true;
            is_sound(table);
            Ok(())
        }
        Err(fault) => {
            kept.has_value = false;
            kept.lists.clear();
            is_sound(table);
            Err(fault)
        }
    }
}

/// The size of a layout fits 32 bits.
fn size_fits(layout: &Layout)
    ensures { (layout_of layout.now).head.size < 2 ^ 32 }
{
    let _size = layout.head.size;
}

/// Keeps the handles that were met, each as the type of the value has it.
fn keep_handles(
    table: &Table,
    met: &[MetHandle],
    handles: &mut Vec<HandleLeaf>,
) -> Result<(), AbiFault>
    requires wanted { AreAsWanted table.now.handles met.now }
    ensures leaves { OnOk result
        (leaves_of handles.new.items ≡ leaves_found table.now.handles met.now) }
    ensures count { OnOk result (length handles.new.items ≡ length met.now) }
    ensures none { met.now ≡ [] → IsOk result }
    ensures err { IfErr result (λ e. e ≡ AbiFault.EngineMemory) }
{
    match handles_met(table, met, handles) {
        Ok(()) => Ok(()),
        Err(_) => Err(AbiFault::EngineMemory),
    }
}

/// `scan`, by the definitions of reading and of what is kept alone.
fn scan_values(
    alloc: Global,
    lists: &mut Lists,
    memory: &[u8],
    table: &mut Table,
    encodings: Encodings,
    passed: &Passed<'_>,
    checks: Option<&[Check]>,
) -> Result<(), AbiFault>
    requires layout { (types : Fields) × IsTupleOf types passed.now }
    requires checks { IfSome checks (λ cs. checks_in cs.now ≡ passed_checks_of
        (flat_limit (way_of passed.now.way)) (layout_of passed.now.layout.now)) }
    requires lends { LendsBelow (2 ^ 100) table.old.handles }
    ensures ok { OnOk result ((v : Val) × (tags : List Bool)
        × (lift_of memory.now table.old.handles encodings.source (way_of passed.now.way)
        (layout_of passed.now.layout.now) passed.now.slots.now
        ≡ Ok (v, tags, scanned_with table.new.handles (kept_in true lists.new)))
        × IsKept (giver_of memory.now table.old.handles encodings.source) encodings.target
        (flat_limit (way_of passed.now.way)) (layout_of passed.now.layout.now) passed.now.slots.now
        v (kept_in true lists.new)) }
    ensures rest { OnOk result (AreAtRest true lists.new) }
    ensures err { IfErr result (λ e. (e ≡ AbiFault.EngineMemory)
        ⊎ (lift_of memory.now table.old.handles encodings.source (way_of passed.now.way)
        (layout_of passed.now.layout.now) passed.now.slots.now ≡ Err e)) }
    ensures nothing { KeepsNothing (giver_of memory.now table.old.handles encodings.source)
        encodings.target (flat_limit (way_of passed.now.way)) (layout_of passed.now.layout.now)
        passed.now.slots.now → IsOk result }
    ensures unchanged { OnErr result (table.new ≡ table.old) }
{
    what_is_passed_is_met();
    handles_that_are_met_are_the_values();
    records_tell_what_is_passed();
    content_of_what_is_denoted();
    small_parts_can_be_asked_for();
    size_fits(passed.layout);
    lists.numbers.clear();
    lists.progress.left = MAX_CONTENT;
    lists.progress.handles.clear();
    lists.progress.tags.clear();
    let mut records = lists.parts.take_records(alloc);
    let giver = Giver {
        alloc,
        memory,
        table: &*table,
        encoding: encodings.source,
    };
    match scan_passed(
        &giver,
        encodings.target,
        passed,
        checks,
        &mut lists.progress,
        &mut records,
    ) {
        Ok(()) => {
            let Ok(()) = lists.parts.ask(records, encodings) else {
                return Err(AbiFault::EngineMemory);
            };
            keep_handles(table, &lists.progress.handles, &mut lists.handles)?;
            let handed = hand_over(table, &lists.progress.handles, &mut lists.handed);
            lists.progress.handles.clear();
            lists.progress.tags.clear();
            handed
        }
        Err(Stop::Memory) => Err(AbiFault::EngineMemory),
        Err(Stop::Fault(fault)) => {
            Err(first_fault(table, &lists.progress.handles, fault, &mut lists.handed))
        }
    }
}
