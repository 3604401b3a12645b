//! Values of calls by the records of their parts: looked at, asked for and copied, with no tree.

ghost use Rattle.std.specs.Prelude.{◌≡◌, [], IfOk, IsSome, List, None, map, true, ℕ};
ghost use Rattle.cm_abi_model.specs.Answering.{first_fault};
ghost use Rattle.cm_abi_model.specs.Answered.{IsAllAnswered, IsAnswered, all_requests};
ghost use Rattle.cm_abi_model.specs.Answered.{next_of};
ghost use Rattle.cm_types.specs.CoreValues.{kind_of};
ghost use Rattle.cm_types.specs.Types.{Fields};
ghost use Rattle.cm_abi_model.specs.Scanned.{OnlyAsked};
ghost use Rattle.rows_calls.specs.Calls.{IsOf, IsScanned};

use crate::call::{Call, write_request};
use crate::lowered::{FILL, is_filled, write_received};
use crate::passing::{write_fault, write_hands};
use crate::tables::{look_behind, read_table, shown_table, write_table};
use cm_abi::laws::one_copied_call;
use cm_abi::{Encodings, Found, PartKind, PartRecord, Passed, Scan, copy, scan};
use cm_abi_model::laws::what_goes_on_stays;
use cm_abi_requests::requesting_laws::answers_stay_fine;
use cm_handles::Table;
use cm_rows::{Line, RowFault};
use cm_types::{CoreKind, CoreValue};
use std::alloc::{AllocError, Global};

/// Writes the records of the parts of a call, the giver's table then, what they ask for, and what
/// copying the values comes to. What is kept of the values was filled by the same call before.
pub fn answer(alloc: Global, call: &Call, table: &str, received: &str, line: &mut Line)
    requires { (types : Fields) × IsOf call.now types }
{
    let mut before = read_table(alloc, table, line);
    let mut table = read_table(alloc, table, line);
    let passed = Passed {
        way: call.way,
        layout: &call.layout,
        slots: &call.slots,
    };
    let encodings = Encodings {
        source: call.sides.source,
        target: call.sides.target,
    };
    let stood = shown_table(alloc, &table);
    let mut kept = Scan::new(alloc);
    let _before = scan(
        alloc,
        &mut kept,
        &call.memory,
        &mut before,
        encodings,
        &passed,
    );
    match scan(
        alloc,
        &mut kept,
        &call.memory,
        &mut table,
        encodings,
        &passed,
    ) {
        Ok(()) => {
            write_scanned(line, &kept, &table);
            let received = read_table(alloc, received, line);
            copy_values(alloc, call, &mut kept, received, line);
        }
        Err(fault) => {
            look_behind(alloc, fault, &stood, &table, is_empty(&kept), line);
            write_fault(line, fault);
            write_table(line, &table);
        }
    }
}

/// Whether nothing is kept of values.
fn is_empty(kept: &Scan) -> bool {
    kept.records().is_empty() && kept.owns().is_empty() && kept.lends().is_empty()
}

fn write_scanned(line: &mut Line, kept: &Scan, table: &Table) {
    write_records(line, kept.records());
    write_hands(line, kept.owns(), kept.lends());
    write_table(line, table);
}

/// A core value of each kind, with 0 in it.
fn zeros(alloc: Global, kinds: &[CoreKind]) -> Result<Vec<CoreValue>, AllocError>
    ensures { IfOk result (λ vs. map kind_of vs.items ≡ kinds.now) }
{
    let mut slots = Vec::new(alloc);
    for kind in kinds {
        slots.push(match kind {
            CoreKind::I32 => CoreValue::I32(0),
            CoreKind::I64 => CoreValue::I64(0),
        })?;
    }
    Ok(slots)
}

/// Whether core values are all 0.
fn are_zeros(slots: &[CoreValue]) -> bool {
    slots.iter().all(|slot| matches!(slot, CoreValue::I32(0) | CoreValue::I64(0)))
}

/// Writes what parts ask for and, where all answers will do, what copying the values comes to.
fn copy_values(alloc: Global, call: &Call, kept: &mut Scan, received: Table, line: &mut Line)
    requires { (types : Fields) × IsOf call.now types × IsScanned call.now types kept.old }
{
    one_copied_call();
    what_goes_on_stays();
    if !ask(kept, &call.answers, call.sides.length as usize, line) {
        return;
    }
    let passed = Passed {
        way: call.way,
        layout: &call.layout,
        slots: &call.slots,
    };
    let found = Found {
        memory: &call.memory,
        passed,
    };
    let mut received = received;
    let Ok(mut memory) = Vec::from_elem(alloc, FILL, call.sides.length as usize) else {
        return line.fail(RowFault::Memory);
    };
    let Ok(mut slots) = zeros(alloc, &call.kinds) else {
        return line.fail(RowFault::Memory);
    };
    let to = call.sides.to;
    let stood = shown_table(alloc, &received);
    match copy(kept, &mut memory, &mut received, &mut slots, to, &found) {
        Ok(()) => write_received(line, Ok(slots), &memory, &received),
        Err(fault) => {
            let is_as_before = is_filled(&memory) && are_zeros(&slots);
            look_behind(alloc, fault, &stood, &received, is_as_before, line);
            write_received(line, Err(fault), &memory, &received);
        }
    }
}

/// Writes `parts`, and of each part its kind and `(PLACE,COUNT,SIZE,ALIGNMENT)`.
fn write_records(line: &mut Line, records: &[PartRecord]) {
    line.put("parts");
    for record in records {
        line.put(match record.kind {
            PartKind::Elements => " elements(",
            PartKind::Text { is_tagged: false } => " text(",
            PartKind::Text { is_tagged: true } => " tagged(",
        });
        line.show(record.at);
        line.put(",");
        line.show(record.count);
        line.put(",");
        line.show(record.size);
        line.put(",");
        line.show(record.align);
        line.put(")");
    }
}

/// Writes the next request that is not answered; whether there was one.
fn write_next(kept: &Scan, line: &mut Line) -> bool
    requires { (answers : List ℕ) × IsAnswered kept.now.parts answers }
    ensures { (answers : List ℕ) → IsAnswered kept.now.parts answers
        → result ≡ true → IsSome (next_of (all_requests kept.now.parts) answers) }
{
    match kept.next_request() {
        Some((request, old)) => {
            write_request(line, request, old);
            true
        }
        None => false,
    }
}

/// Writes what parts ask for, each request answered before the next one, and where the parts then
/// stand; or, at the first answer that will not do, its fault and what is asked for again. Whether
/// all answers will do.
fn ask(kept: &mut Scan, answers: &[u32], length: usize, line: &mut Line) -> bool
    requires { IsAnswered kept.old.parts [] }
    ensures answered { result ≡ true → (given : List ℕ)
        × IsAllAnswered kept.new.parts given
        × (first_fault length (all_requests kept.new.parts) given ≡ None) }
    ensures only { OnlyAsked kept.old kept.new }
{
    answers_stay_fine();
    what_goes_on_stays();
    line.put(" asks");
    for answer in answers {
        if !write_next(kept, line) {
            line.refuse();
            return false;
        }
        if let Err(fault) = kept.answer(*answer, length) {
            line.put(" ");
            write_fault(line, fault);
            line.put(" again");
            write_next(kept, line);
            return false;
        }
    }
    if kept.next_request().is_some() {
        line.refuse();
        return false;
    }
    line.put(" places");
    for place in kept.places() {
        line.put(" ");
        line.show(*place);
    }
    true
}
