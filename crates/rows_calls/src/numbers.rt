//! Core values that are numbers alone, passed at once.

use crate::call::Call;
use crate::passing::write_fault;
use cm_abi_slots::{pass_slots, slot_steps};
use cm_rows::{Line, RowFault, write_core_values};
use std::alloc::Global;

/// Writes what the core values of a call become by their steps, or the fault; `walked` where they
/// have no steps.
pub fn answer(alloc: Global, mut call: Call, line: &mut Line) {
    let Ok(steps) = slot_steps(alloc, &call.layout, call.way.flat_limit()) else {
        return line.fail(RowFault::Memory);
    };
    let Some(steps) = steps else {
        return line.put("walked");
    };
    if steps.len() != call.slots.len() {
        return line.refuse();
    }
    match pass_slots(&steps, &mut call.slots) {
        Ok(()) => {
            line.put("passed");
            write_core_values(line, &call.slots);
        }
        Err(fault) => write_fault(line, fault),
    }
}
