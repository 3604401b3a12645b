//! Rows on files that are written to a writer.

use crate::files::read_component;
use crate::outcomes::write_answers;
use cm_binary::{Component, WriteReason, write_to};
use cm_rows::{Full, Line, Pipe, word, write_units};
use std::alloc::Global;

/// The answer of a writer that takes at most SIZE bytes a write to `parts SIZE FILE`, `interrupted
/// SIZE FILE`, `failing SIZE FILE` or `stalling SIZE FILE`, of a file that has a component.
pub fn answer(alloc: Global, words: &[&str], line: &mut Line) {
    let size = line.number(word(words, 1));
    let file = line.bytes(alloc, word(words, 2));
    if let Some(component) = read_component(alloc, &file, line) {
        write_form(alloc, word(words, 0), size, &file, &component, line);
    }
}

/// A writer with memory for all of a file, so that it asks for none as it is written to.
fn pipe_for(
    alloc: Global,
    file: &[u8],
    size: usize,
    room: usize,
    full: Full,
    line: &mut Line,
) -> Pipe {
    let taken = line.kept(Vec::with_capacity(alloc, file.len()));
    Pipe::new(taken.unwrap_or(Vec::new(alloc)), size, room, full)
}

fn write_form(
    alloc: Global,
    form: &str,
    size: usize,
    file: &[u8],
    component: &Component,
    line: &mut Line,
) {
    match form {
        "parts" | "interrupted" => {
            let mut pipe = pipe_for(alloc, file, size, usize::MAX, Full::Fails, line);
            pipe.interrupts = form == "interrupted";
            write_written(alloc, component, pipe, line);
        }
        "failing" => write_full(alloc, component, file, size, Full::Fails, line),
        "stalling" => write_full(alloc, component, file, size, Full::TakesNone, line),
        _ => line.refuse(),
    }
}

/// Writes whether all was written, and what the writer holds.
fn write_written(alloc: Global, component: &Component, pipe: Pipe, line: &mut Line) {
    let mut pipe = pipe;
    write_end(alloc, component, &mut pipe, line);
    line.put(", ");
    write_units(line, &pipe.taken, 1);
}

fn write_end(alloc: Global, component: &Component, pipe: &mut Pipe, line: &mut Line) {
    match write_to(alloc, component, pipe) {
        Ok(()) => line.put("written"),
        Err(fault) => {
            line.fail_if_memory(fault.reason == WriteReason::Memory);
            line.fault(&fault.reason);
            line.put(" after ");
            line.show(fault.written);
        }
    }
}

/// Writes what is written to a writer that is full behind so many bytes, for each number up to the
/// length of the file, and whether it holds so many bytes of the file then, from the first one on.
fn write_full(
    alloc: Global,
    component: &Component,
    file: &[u8],
    size: usize,
    full: Full,
    line: &mut Line,
) {
    let mut answers = Vec::new(alloc);
    for room in 0..=file.len() {
        let pipe = pipe_for(alloc, file, size, room, full, line);
        line.push(
            &mut answers,
            show_beginning(alloc, component, pipe, &file[..room]),
        );
    }
    write_answers(line, &answers);
}

fn show_beginning(alloc: Global, component: &Component, pipe: Pipe, beginning: &[u8]) -> Line {
    let mut pipe = pipe;
    let mut line = Line::new(alloc);
    write_end(alloc, component, &mut pipe, &mut line);
    line.put(if pipe.taken.as_slice() == beginning {
        ", its beginning"
    } else {
        ", other bytes"
    });
    line
}
