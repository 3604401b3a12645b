//! Values of calls as trees: lifted, asked for and lowered.

ghost use Rattle.cm_abi.specs.Lowers.{CanBeLowered};
ghost use Rattle.cm_types.specs.Types.{Fields};
ghost use Rattle.rows_calls.specs.Calls.{IsOf};

use crate::call::{Call, write_request};
use crate::lifted::{lift_call, passed_on, write_lifted};
use crate::passing::write_fault;
use crate::tables::{look_behind, read_table, shown_table, write_table};
use cm_abi::laws::one_call;
use cm_abi::{AbiFault, Passing, Request, lower, requests};
use cm_handles::Table;
use cm_rows::{Line, RowFault, write_core_values, write_units};
use cm_types::CoreValue;
use std::alloc::Global;

/// What the receiver's memory holds before the call.
pub const FILL: u8 = 0xaa;

/// Writes the values of a call, the giver's table then, and what lowering them comes to.
pub fn answer(alloc: Global, call: &Call, table: &str, received: &str, line: &mut Line)
    requires { (types : Fields) × IsOf call.now types }
{
    one_call();
    let mut table = read_table(alloc, table, line);
    match lift_call(alloc, call, &mut table) {
        Ok(lifted) => {
            write_lifted(line, &lifted, &table);
            let passing = passed_on(call, &lifted);
            let received = read_table(alloc, received, line);
            lower_values(alloc, call, &passing, received, line);
        }
        Err(fault) => {
            write_fault(line, fault);
            write_table(line, &table);
        }
    }
}

/// Writes what lowering values asks for and, with the answers of the call, the core values that
/// pass them, or the fault, and the receiver's memory and table then.
fn lower_values(alloc: Global, call: &Call, passing: &Passing<'_>, received: Table, line: &mut Line)
    requires { (types : Fields) × CanBeLowered passing.now types }
{
    let Passing {
        way,
        layout,
        values,
        encodings,
        tags,
        ..
    } = *passing;
    let mut received = received;
    let Ok(asked) = requests(alloc, layout, way, values, encodings, tags) else {
        return line.fail(RowFault::Memory);
    };
    if asked.len() != call.answers.len() {
        return line.refuse();
    }
    write_requests(line, &asked, &call.answers);
    let Ok(mut memory) = Vec::from_elem(alloc, FILL, call.sides.length as usize) else {
        return line.fail(RowFault::Memory);
    };
    let to = call.sides.to;
    let before = shown_table(alloc, &received);
    let lowered = lower(
        alloc,
        &mut memory,
        &mut received,
        to,
        passing,
        &call.answers,
    );
    if let Err(fault) = &lowered {
        look_behind(alloc, *fault, &before, &received, is_filled(&memory), line);
    }
    write_received(line, lowered, &memory, &received);
}

/// Whether the receiver's memory holds what it held before.
pub fn is_filled(memory: &[u8]) -> bool {
    memory.iter().all(|byte| *byte == FILL)
}

/// Writes the core values that pass what the receiver got, or the fault, and its memory and table.
pub fn write_received(
    line: &mut Line,
    slots: Result<Vec<CoreValue>, AbiFault>,
    memory: &[u8],
    received: &Table,
) {
    line.put(" ");
    match slots {
        Ok(slots) => {
            line.put("gives");
            write_core_values(line, &slots);
        }
        Err(fault) => write_fault(line, fault),
    }
    line.put(" memory ");
    write_units(line, memory, 1);
    write_table(line, received);
}

/// Writes requests, each with its old pointer: where it is chained the answer to the one before.
fn write_requests(line: &mut Line, requests: &[Request], answers: &[u32]) {
    line.put(" asks");
    let mut last = 0;
    for (request, answer) in requests.iter().zip(answers) {
        let old = if request.chained { last } else { 0 };
        write_request(line, *request, old);
        last = *answer;
    }
}
