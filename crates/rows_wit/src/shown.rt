//! Rows on the text that shows a signature.

use crate::signatures::read_signature;
use cm_rows::Line;
use cm_tool_show::{ShowFault, show};
use cm_types_arena::Signature;
use std::alloc::Global;

/// Texts of more bytes are shown by their length alone.
const MAX_WRITTEN: usize = 1000;

/// The answer to a signature.
pub fn answer(alloc: Global, words: &[&str], line: &mut Line) {
    if let Some(signature) = read_signature(alloc, words, line) {
        write_shown(alloc, &signature, MAX_WRITTEN, line);
    }
}

/// Writes the lines that show a signature, each behind `|`, or how many bytes they have, if those
/// are more than this number; else the fault.
pub fn write_shown(alloc: Global, signature: &Signature, most: usize, line: &mut Line) {
    match show(alloc, signature) {
        Ok(text) => write_text(line, &text, most),
        Err(fault) => {
            line.fail_if_memory(fault == ShowFault::Memory);
            line.fault(&fault);
        }
    }
}

fn write_text(line: &mut Line, text: &str, most: usize) {
    let length = text.len();
    if length > most {
        line.show(length);
        line.put(" bytes");
        return;
    }
    for shown in text.lines() {
        line.put("| ");
        line.put(shown);
        line.put(" ");
    }
    line.put("|");
}
