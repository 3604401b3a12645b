//! Answers as rows show them.

use cm_binary::{Component, DecodeFault, DecodeReason, encode};
use cm_rows::{Line, write_units};
use std::alloc::Global;

/// Writes the name of a reason.
pub fn write_reason(line: &mut Line, reason: DecodeReason) {
    match reason {
        DecodeReason::Unsupported(_) => line.put("Unsupported"),
        reason => line.debug(&reason),
    }
}

/// Writes `fault REASON at PLACE`, and of a form that is not carried which one it is; want of
/// memory is that of the row.
pub fn write_fault(line: &mut Line, fault: &DecodeFault) {
    line.fail_if_memory(fault.reason == DecodeReason::Memory);
    line.put("fault ");
    write_reason(line, fault.reason);
    line.put(" at ");
    line.show(fault.at);
    if let DecodeReason::Unsupported(feature) = fault.reason {
        line.put(", ");
        line.show(feature);
    }
}

/// Writes `component` and its shortest file, or the fault.
pub fn write_outcome(alloc: Global, outcome: Result<Component, DecodeFault>, line: &mut Line) {
    match outcome {
        Ok(component) => {
            line.put("component ");
            if let Some(file) = line.kept(encode(alloc, &component)) {
                write_units(line, &file, 1);
            }
        }
        Err(fault) => write_fault(line, &fault),
    }
}

/// What [`write_outcome`] writes, as one of several answers.
pub fn show_outcome(alloc: Global, outcome: Result<Component, DecodeFault>) -> Line {
    let mut line = Line::new(alloc);
    write_outcome(alloc, outcome, &mut line);
    line
}

/// Writes answers, one after another. Equal neighbours are written once, with their number.
pub fn write_answers(line: &mut Line, answers: &[Line]) {
    let mut count: usize = 0;
    let mut is_first = true;
    for (i, answer) in answers.iter().enumerate() {
        line.keep_fault_of(answer);
        count = count.saturating_add(1);
        let answer = answer.as_str();
        if answers.get(i.saturating_add(1)).map(|next| next.as_str()) == Some(answer) {
            continue;
        }
        if !is_first {
            line.put("; ");
        }
        if count > 1 {
            line.show(count);
            line.put(" times ");
        }
        line.put(answer);
        is_first = false;
        count = 0;
    }
}
