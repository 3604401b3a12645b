//! What reading comes to.

use cm_rows::Line;
use cm_wit_reading::{WitFault, WitReason};

/// Writes `ok`, or the fault.
pub fn write_read<T: Drop>(line: &mut Line, read: Result<T, WitFault>) {
    match read {
        Ok(_) => line.put("ok"),
        Err(fault) => write_fault(line, fault),
    }
}

/// Writes a fault and its place; want of memory is that of the row.
pub fn write_fault(line: &mut Line, fault: WitFault) {
    let WitFault { at, reason } = fault;
    line.fail_if_memory(reason == WitReason::Memory);
    line.put("fault ");
    line.put(reason.name());
    line.put(" at ");
    line.show(at);
}
