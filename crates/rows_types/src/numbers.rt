//! Rows on numbers in LEB128.

use cm_leb::formats::{front_s33, front_u32, spelled_length, write_count};
use cm_leb::{LebFault, SignedFault, read_s33, read_u32, write_s33, write_u32};
use cm_rows::{Line, RowFault, word, write_bytes};
use std::alloc::Global;
use std::fmt::Display;

/// The answer to `front_u32 BYTES`, `front_s33 BYTES`, `read_u32 BYTES AT`, `read_s33 BYTES AT`,
/// `write_u32 BEFORE NUMBER`, `write_count BEFORE COUNT`, `write_s33 BEFORE NUMBER`,
/// `spelled_length NUMBER` or `faults`.
pub fn answer(alloc: Global, words: &[&str], line: &mut Line) {
    let (first, second) = (word(words, 1), word(words, 2));
    match word(words, 0) {
        "spelled_length" => {
            let number = line.number(first);
            line.show(spelled_length(number));
        }
        "write_u32" | "write_count" | "write_s33" => {
            let mut out = line.bytes(alloc, first);
            add_number(&mut out, word(words, 0), second, line);
            write_bytes(line, &out);
        }
        "faults" => write_faults(line),
        call => answer_reading(call, &line.bytes(alloc, first), second, line),
    }
}

fn write_faults(line: &mut Line) {
    for fault in [
        LebFault::Truncated,
        LebFault::TooLong,
        LebFault::BadLastBits,
    ] {
        line.number_of_debug(&fault, fault.number());
    }
    for fault in [SignedFault::TooLarge, SignedFault::Memory] {
        line.number_of_debug(&fault, fault.number());
    }
}

fn answer_reading(call: &str, bytes: &[u8], at: &str, line: &mut Line) {
    match call {
        "front_u32" => write_front(line, front_u32(bytes)),
        "front_s33" => write_front(line, front_s33(bytes)),
        "read_u32" => {
            let at = line.number(at);
            write_read(line, read_u32(bytes, at));
        }
        "read_s33" => {
            let at = line.number(at);
            write_read(line, read_s33(bytes, at));
        }
        _ => line.refuse(),
    }
}

/// Adds a number to bytes.
fn add_number(out: &mut Vec<u8>, call: &str, number: &str, line: &mut Line) {
    let written = match call {
        "write_u32" => write_u32(out, line.number(number)),
        "write_count" => write_count(out, line.number(number)),
        _ => {
            let number = line.number(number);
            return add_signed(out, number, line);
        }
    };
    line.kept(written);
}

/// Adds a number with a sign; of one that is too large the fault stands before the bytes.
fn add_signed(out: &mut Vec<u8>, number: i64, line: &mut Line) {
    match write_s33(out, number) {
        Ok(()) => {}
        Err(SignedFault::Memory) => line.fail(RowFault::Memory),
        Err(fault) => {
            line.fault(&fault);
            line.put(", then ");
        }
    }
}

/// Writes `NUMBER, COUNT left`, or the fault.
fn write_front<T: Display + Drop>(line: &mut Line, front: Result<(T, &[u8]), LebFault>) {
    match front {
        Ok((number, rest)) => {
            line.show(number);
            line.put(", ");
            line.show(rest.len());
            line.put(" left");
        }
        Err(fault) => line.fault(&fault),
    }
}

/// Writes `NUMBER, then AT`, or the fault.
fn write_read<T: Display + Drop>(line: &mut Line, read: Result<(T, usize), LebFault>) {
    match read {
        Ok((number, end)) => {
            line.show(number);
            line.put(", then ");
            line.show(end);
        }
        Err(fault) => line.fault(&fault),
    }
}
