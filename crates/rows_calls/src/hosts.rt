//! Values as a host sees them: lifted from the memory of its instance, and lowered for one.

use crate::passing::write_fault;
use crate::values::write_values;
use cm_host_values::{Bump, HostTypes, ValuesFault, lift_values, lower_values};
use cm_rows::{
    Line, make_func, read_core_values, read_tree, word, words_from, write_bytes, write_core_values,
};
use cm_types::Value;
use std::alloc::Global;

/// The types that words spell, as a host sees them: of the parameters or of the result of a
/// function.
fn read_types(alloc: Global, way: &str, words: &[&str], line: &mut Line) -> Option<HostTypes> {
    match way {
        "params" => {
            let func = make_func(alloc, words, None, line)?;
            line.kept(HostTypes::of_params(alloc, &func))
        }
        "results" => {
            let tree = read_tree(alloc, words, line)?;
            let func = make_func(alloc, &[], Some(tree), line)?;
            line.kept(HostTypes::of_result(alloc, &func))
        }
        _ => line.wanted(None),
    }
}

/// Writes the core values that pass values of these types in an empty memory whose first bytes, so
/// many, are given out, and the bytes that are written there; or the fault.
fn write_lowered(alloc: Global, types: &HostTypes, values: &[Value], end: u32, line: &mut Line) {
    let mut regions = Bump { next: 0, end };
    line.put(" ");
    match lower_values(alloc, types, values, &mut regions) {
        Ok(lowered) => {
            line.put("gives");
            write_core_values(line, &lowered.slots);
            line.put(" memory ");
            write_bytes(line, &lowered.bytes);
        }
        Err(fault) => {
            line.fail_if_memory(fault == ValuesFault::Memory);
            line.fault(&fault);
        }
    }
}

/// Writes the values that core values denote in a memory, or the fault; and what lowering them by
/// other types comes to.
pub fn answer(alloc: Global, words: &[&str], line: &mut Line) {
    let way = word(words, 0);
    let memory = line.bytes(alloc, word(words, 1));
    let end = line.number(word(words, 2));
    let (types, slots) = line.split(words_from(words, 3), "=");
    let (types, others) = line.split(types, "as");
    let slots = read_core_values(alloc, slots, line);
    let Some(types) = read_types(alloc, way, types, line) else {
        return;
    };
    let Some(others) = read_types(alloc, way, others, line) else {
        return;
    };
    match lift_values(alloc, &memory, &types, &slots) {
        Ok(values) => {
            write_values(line, &values);
            write_lowered(alloc, &others, &values, end, line);
        }
        Err(fault) => write_fault(line, fault),
    }
}
