//! Answers rows on numbers, names, types, values as text, layouts, texts and handle tables.
#![tactic(auto)]

mod candidates;
mod handles;
mod layouts;
mod names;
mod numbers;
mod placed;
mod runs;
mod texts;
mod type_numbers;
mod types;
mod value_texts;
mod values;

use cm_rows::{Driver, Line, word, words_from};
use handles::Handles;
use std::alloc::Global;

/// The families of rows, a file each.
pub const FAMILIES: [&str; 10] = [
    "numbers",
    "names",
    "types",
    "layouts",
    "texts",
    "tables",
    "placed",
    "type_numbers",
    "candidates",
    "value_texts",
];

/// The state between rows: the handle table that the rows on handles speak of.
#[derive(Drop)]
pub struct TypeRows {
    handles: Handles,
}

impl Driver for TypeRows {
    fn new(alloc: Global) -> TypeRows {
        TypeRows {
            handles: Handles::new(alloc),
        }
    }

    fn answer(&mut self, alloc: Global, words: &[&str], line: &mut Line) {
        let rest = words_from(words, 1);
        match word(words, 0) {
            "number" => numbers::answer(alloc, rest, line),
            "name" => names::answer(alloc, rest, line),
            "type" => types::answer(alloc, rest, line),
            "layout" => layouts::answer(alloc, rest, line),
            "text" => texts::answer(alloc, rest, line),
            "table" => self.handles.answer(alloc, rest, line),
            "types" => placed::answer(alloc, rest, line),
            "numbers" => type_numbers::answer(alloc, rest, line),
            "value" => value_texts::answer(alloc, rest, line),
            "fit" => candidates::answer(alloc, rest, line),
            _ => line.refuse(),
        }
    }
}
