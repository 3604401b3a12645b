//! Answers rows on components and sets: validity, links, runs and drives.
#![tactic(auto)]

mod checks;
mod chosen;
mod components;
mod events;
mod faults;
mod links;
mod moves;
mod plays;
mod seeing;
mod seen;
mod sets;

use cm_rows::{Driver, Line, NamedFiles, word, words_from};
pub use moves::answer_moves;
use sets::Sets;
use std::alloc::Global;

/// The families of rows, a file each.
pub const FAMILIES: [&str; 7] = [
    "indices",
    "validity",
    "instances",
    "links",
    "runs",
    "drives",
    "states",
];

/// The state between rows: files by their names, and the set that is linked or runs.
#[derive(Drop)]
pub struct SetRows {
    files: NamedFiles,
    sets: Sets,
}

impl Driver for SetRows {
    fn new(alloc: Global) -> SetRows {
        SetRows {
            files: NamedFiles::new(alloc),
            sets: Sets::new(),
        }
    }

    fn answer(&mut self, alloc: Global, words: &[&str], line: &mut Line) {
        let rest = words_from(words, 1);
        let first = word(rest, 0);
        match word(words, 0) {
            "files" if first == "name" => {
                self.files.name(alloc, word(rest, 1), word(rest, 2), line);
            }
            "checked" => checks::answer(alloc, &self.files, rest, line),
            "link" => self.sets.link(alloc, &self.files, rest, line),
            "by" => chosen::answer(alloc, &self.files, words, line),
            "set" => self.sets.answer(alloc, rest, line),
            "valid" => checks::valid_answer(alloc, &self.files, first, line),
            "faults" => faults::answer(first, line),
            _ => links::answer(alloc, &self.files, words, line),
        }
    }
}
