//! Rows on signatures that are to fit those of worlds.

use crate::reading::write_fault;
use crate::signatures::read_signature;
use crate::worlds::write_world_fault;
use cm_rows::{Line, read_text, word, words_from};
use cm_types_arena::Signature;
use cm_wit_conforms::{ConformFault, ConformList, ConformReason, conforms};
use cm_wit_package::parse;
use cm_wit_signature::world_signature;
use std::alloc::Global;

/// The answer to `SIGNATURE // SIGNATURE`, the second that of a world: `fits`, or the first fault
/// and where it is: the place of the world's export or of the signature's import, and the place
/// there of the item at fault, if it is one.
pub fn answer(alloc: Global, words: &[&str], line: &mut Line) {
    let (have, world) = line.split(words, "//");
    let Some(have) = read_signature(alloc, have, line) else {
        return;
    };
    if let Some(world) = read_signature(alloc, world, line) {
        write_answer(alloc, &have, &world, line);
    }
}

/// The answer to `WORLD SIGNATURE // TEXT`: whether the signature fits the world of this full name
/// of the package that a text is.
pub fn answer_text(alloc: Global, words: &[&str], line: &mut Line) {
    let (have, text) = line.split(words_from(words, 1), "//");
    let Some(have) = read_signature(alloc, have, line) else {
        return;
    };
    let text = read_text(alloc, text, line);
    let packages = match parse(alloc, text.as_str()) {
        Ok(package) => [package],
        Err(fault) => return write_fault(line, fault),
    };
    match world_signature(alloc, &packages, word(words, 0)) {
        Ok(world) => write_answer(alloc, &have, &world, line),
        Err(fault) => write_world_fault(line, fault),
    }
}

/// Writes whether a signature fits a world's.
pub fn write_answer(alloc: Global, have: &Signature, world: &Signature, line: &mut Line) {
    match conforms(alloc, have, world) {
        Ok(()) => line.put("fits"),
        Err(fault) => write_misfit(line, fault),
    }
}

fn write_misfit(line: &mut Line, fault: ConformFault) {
    line.fail_if_memory(fault.reason == ConformReason::Memory);
    line.fault(&fault.reason);
    line.put(match fault.item.list {
        ConformList::WorldExports => " at export ",
        ConformList::HaveImports => " at import ",
    });
    line.show(fault.item.place);
    if let Some(item) = fault.item.item {
        line.put(", item ");
        line.show(item);
    }
}
