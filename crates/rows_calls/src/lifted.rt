//! What the giver of a call passes, lifted: its values, where its handles go, and what lowering
//! asks for.

ghost use Rattle.std.specs.Prelude.{◌≡◌, ◌^◌, ◌<◌, slice_index, IfOk, ℕ};
ghost use Rattle.cm_abi_model.specs.Lifts.{LendsBelow};
ghost use Rattle.cm_abi.specs.Lowers.{CanBeLowered};
ghost use Rattle.cm_types.specs.Types.{Fields};
ghost use Rattle.rows_calls.specs.Calls.{IsLifted, IsOf};

use crate::call::Call;
use crate::giving::write_given;
use crate::passing::{write_fault, write_hands};
use crate::tables::{look_behind, read_table, shown_table, write_table};
use crate::values::write_values;
use cm_abi::laws::one_call;
use cm_abi::{AbiFault, Encodings, Lifted, Passed, Passing, Request, lift, requests};
use cm_abi_lower::give_values;
use cm_handles::Table;
use cm_rows::Line;
use std::alloc::{AllocError, Global};

/// Each number in a memory is one of 8 bits.
fn are_bytes(memory: &[u8])
    ensures { (i : ℕ) → slice_index memory.now i < 2 ^ 8 }
{}

/// Lifts what the giver of a call passes, from its memory and its table.
pub fn lift_call(alloc: Global, call: &Call, table: &mut Table) -> Result<Lifted, AbiFault>
    requires call { (types : Fields) × IsOf call.now types }
    requires lends { LendsBelow (2 ^ 100) table.old.handles }
    ensures { IfOk result (IsLifted call.now) }
{
    let memory: &[u8] = &call.memory;
    are_bytes(memory);
    let passed = Passed {
        way: call.way,
        layout: &call.layout,
        slots: &call.slots,
    };
    lift(alloc, memory, table, call.sides.source, &passed)
}

/// What a call passes on: the values that were lifted, with the tags of their strings.
pub fn passed_on<'a>(call: &'a Call, lifted: &'a Lifted) -> Passing<'a>
    ensures way { result.way ≡ call.now.way }
    ensures layout { result.layout.now ≡ call.now.layout }
    ensures kinds { result.kinds.now ≡ call.now.kinds.items }
    ensures values { result.values.now ≡ lifted.now.values.items }
    ensures source { result.encodings.source ≡ call.now.sides.source }
    ensures target { result.encodings.target ≡ call.now.sides.target }
    ensures tags { result.tags.now ≡ lifted.now.tagged.items }
{
    let encodings = Encodings {
        source: call.sides.source,
        target: call.sides.target,
    };
    Passing {
        way: call.way,
        layout: &call.layout,
        kinds: &call.kinds,
        values: &lifted.values,
        encodings,
        tags: &lifted.tagged,
    }
}

/// Writes the values, what went with them, and the giver's table then.
pub fn write_lifted(line: &mut Line, lifted: &Lifted, table: &Table) {
    write_values(line, &lifted.values);
    write_hands(line, &lifted.owns, &lifted.lends);
    write_table(line, table);
}

/// Writes the values and what went with them, or the fault, and the giver's table then.
pub fn answer(alloc: Global, call: &Call, table: &str, line: &mut Line)
    requires { (types : Fields) × IsOf call.now types }
{
    let mut table = read_table(alloc, table, line);
    let before = shown_table(alloc, &table);
    match lift_call(alloc, call, &mut table) {
        Ok(lifted) => write_lifted(line, &lifted, &table),
        Err(fault) => {
            look_behind(alloc, fault, &before, &table, true, line);
            write_fault(line, fault);
            write_table(line, &table);
        }
    }
}

/// Writes the numbers that stand for the handles of the values where they were given to the
/// receiver of the call, and its table then. Only values that can be lifted are a row.
pub fn pass(alloc: Global, call: &Call, table: &str, line: &mut Line)
    requires { (types : Fields) × IsOf call.now types }
{
    let mut table = read_table(alloc, table, line);
    let lifted = match lift_call(alloc, call, &mut table) {
        Ok(lifted) => lifted,
        Err(fault) => return line.refuse_for(fault == AbiFault::EngineMemory),
    };
    let mut received = Table::new(alloc);
    let to = call.sides.to;
    let given = give_values(alloc, &mut received, to, &call.layout, &lifted.values);
    write_given(line, given, &received);
}

/// Writes what lowering the values asks for. Only values that can be lifted are a row.
pub fn ask(alloc: Global, call: &Call, table: &str, line: &mut Line)
    requires { (types : Fields) × IsOf call.now types }
{
    one_call();
    let mut table = read_table(alloc, table, line);
    match lift_call(alloc, call, &mut table) {
        Ok(lifted) => {
            let passing = passed_on(call, &lifted);
            if let Some(asked) = line.kept(asked_for(alloc, &passing)) {
                write_requests(line, &asked);
            }
        }
        Err(fault) => line.refuse_for(fault == AbiFault::EngineMemory),
    }
}

/// The requests for what a call passes on.
fn asked_for(alloc: Global, passing: &Passing<'_>) -> Result<Vec<Request>, AllocError>
    requires { (types : Fields) × CanBeLowered passing.now types }
{
    let Passing {
        way,
        layout,
        values,
        encodings,
        tags,
        ..
    } = *passing;
    requests(alloc, layout, way, values, encodings, tags)
}

/// Writes requests, one after another.
fn write_requests(line: &mut Line, requests: &[Request]) {
    line.put("requests");
    for request in requests {
        line.put(if request.chained { " >" } else { " " });
        line.show(request.align);
        line.put(":");
        if request.chained {
            line.show(request.old_size);
            line.put(":");
        }
        line.show(request.size);
    }
}
