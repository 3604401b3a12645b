//! Rows on values as text.

use crate::values::read_value;
use cm_rows::{Line, read_tree, word, words_from};
use cm_types::{TypeTree, Value};
use cm_values::{PrintFault, ValueReason, parse, print};
use std::alloc::Global;

/// The answer to `print TYPE = VALUE`, a text or a fault; to `parse TYPE = TEXT`, the text of the
/// value that is read, or a fault and the byte at which it stands, from 0; or to `faults`. The
/// words of TEXT stand with one blank between them.
pub fn answer(alloc: Global, words: &[&str], line: &mut Line) {
    match word(words, 0) {
        "faults" => write_faults(line),
        kind => {
            let (ty, rest) = line.split(words_from(words, 1), "=");
            if let Some(ty) = read_tree(alloc, ty, line) {
                answer_on_type(alloc, kind, &ty, rest, line);
            }
        }
    }
}

fn answer_on_type(alloc: Global, kind: &str, ty: &TypeTree, words: &[&str], line: &mut Line) {
    match kind {
        "print" => {
            if let Some(value) = read_value(alloc, words, line) {
                write_printed(alloc, &value, ty, line);
            }
        }
        "parse" => write_parsed(alloc, ty, words, line),
        _ => line.refuse(),
    }
}

fn write_printed(alloc: Global, value: &Value, ty: &TypeTree, line: &mut Line) {
    match print(alloc, value, ty) {
        Ok(text) => line.put(text.as_str()),
        Err(fault) => {
            line.fail_if_memory(fault == PrintFault::Memory);
            line.fault(&fault);
        }
    }
}

fn write_parsed(alloc: Global, ty: &TypeTree, words: &[&str], line: &mut Line) {
    let mut text = Line::new(alloc);
    for (i, word) in words.iter().enumerate() {
        if i > 0 {
            text.put(" ");
        }
        text.put(word);
    }
    line.keep_fault_of(&text);
    match parse(alloc, text.as_str().as_bytes(), ty) {
        Ok(value) => write_printed(alloc, &value, ty, line),
        Err(fault) => {
            line.fail_if_memory(fault.reason == ValueReason::Memory);
            line.fault(&fault.reason);
            line.put(" at ");
            line.show(fault.at);
        }
    }
}

fn write_faults(line: &mut Line) {
    for fault in [PrintFault::WrongType, PrintFault::Memory] {
        line.number_of_debug(&fault, fault.number());
    }
    for reason in [
        ValueReason::Unexpected,
        ValueReason::BadEscape,
        ValueReason::NotUtf8,
        ValueReason::NotOneChar,
        ValueReason::OutOfRange,
        ValueReason::UnknownName,
        ValueReason::WrongLength,
        ValueReason::Memory,
    ] {
        line.number_of_debug(&reason, reason.number());
    }
}
