//! Rows on types by places, and on types of functions.

use cm_layout::{Layout, layout_of_params, size};
use cm_rows::{Arena, Line, Outcome, word};
use cm_types_arena::{DefFault, Summary, Types};
use std::alloc::{AllocError, Global};

/// The answer to `ITEM ; ITEM ..`: of each item, and of several alike of the last, the place with
/// those of its parts, what is known of it and its size in bytes; or its fault; or `unordered`
/// where a part has no place. Of `faults` it is their names and numbers.
pub fn answer(alloc: Global, words: &[&str], line: &mut Line) {
    if word(words, 0) == "faults" {
        return write_faults(line);
    }
    let Some(mut arena) = Arena::new(alloc, line) else {
        return;
    };
    for (place, words) in words.split(|word| *word == ";").enumerate() {
        let outcome = arena.read_item(words, line);
        if place > 0 {
            line.put(" ; ");
        }
        write_outcome(alloc, &arena, outcome, line);
    }
}

fn write_faults(line: &mut Line) {
    for fault in [DefFault::TooLarge, DefFault::NotSpellable, DefFault::Memory] {
        line.number_of_debug(&fault, fault as u8);
    }
}

fn write_outcome(alloc: Global, arena: &Arena, outcome: Outcome, line: &mut Line) {
    match outcome {
        Outcome::Type(place) => write_type(&arena.types, place, line),
        Outcome::Func(place) => write_func(alloc, &arena.types, place, line),
        Outcome::Refused(fault) => line.fault(&fault),
        Outcome::Unordered => line.put("unordered"),
    }
}

/// Writes `PLACE of PARTS: SUMMARY, SIZE`.
fn write_type(types: &Types, place: usize, line: &mut Line) {
    if place >= types.len() {
        return line.refuse();
    }
    line.show(place);
    line.put(" of");
    write_places(line, types.parts(place));
    line.put(":");
    write_summary(line, types.summary(place));
    line.put(", size ");
    if let Some(tree) = line.kept(types.tree(place)) {
        line.show(size(&tree));
    }
}

/// Writes `func PLACE of PARAMETERS to RESULT: SUMMARY, SIZE` of the parameters as a tuple.
fn write_func(alloc: Global, types: &Types, place: usize, line: &mut Line) {
    if place >= types.func_count() {
        return line.refuse();
    }
    line.put("func ");
    line.show(place);
    line.put(" of");
    write_places(line, types.func_params(place));
    line.put(" to ");
    match types.func_result(place) {
        Some(answer) => line.show(answer),
        None => line.put("-"),
    }
    line.put(":");
    write_summary(line, types.params_summary(place));
    line.put(", ");
    line.show(types.func(place).params.len());
    line.put(" of size ");
    if let Some(func) = line.kept(types.share_func(place)) {
        write_size_of_params(line, layout_of_params(alloc, &func));
    }
}

fn write_size_of_params(line: &mut Line, layout: Result<Layout, AllocError>) {
    if let Some(layout) = line.kept(layout) {
        line.show(layout.head.size);
    }
}

/// Writes each place after a space, of the first eight, and how many others there are; `-` for
/// none.
fn write_places(line: &mut Line, places: &[usize]) {
    if places.is_empty() {
        line.put(" -");
        return;
    }
    let shown = places.len().min(8);
    for place in &places[..shown] {
        line.put(" ");
        line.show(*place);
    }
    if places.len() > shown {
        line.put(" and ");
        line.show(places.len() - shown);
    }
}

/// Writes ` NODES/DEPTH`, and what the type holds.
fn write_summary(line: &mut Line, summary: Summary) {
    line.put(" ");
    line.show(summary.nodes);
    line.put("/");
    line.show(summary.depth);
    if summary.holds_string {
        line.put(" string");
    }
    if summary.holds_list {
        line.put(" list");
    }
    if summary.holds_borrow {
        line.put(" borrow");
    }
    if summary.holds_handle {
        line.put(" handle");
    }
}
