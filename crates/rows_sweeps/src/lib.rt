//! Answers rows with every list of so many moves, beside a plain interpreter.
#![tactic(auto)]

mod calls;
mod handles;
mod passing;
mod plain;
mod reading;
mod rules;
mod sweeps;
mod texts;

use cm_rows::{Driver, Line};
use reading::Told;
use std::alloc::Global;

/// The families of rows, a file each.
pub const FAMILIES: [&str; 4] = [
    "swept_numbers",
    "swept_strings",
    "swept_handles",
    "swept_borrows",
];

/// The state between rows: files by their names, and what the interpreter is told of instances.
#[derive(Drop)]
pub struct SweepRows {
    told: Told,
}

impl Driver for SweepRows {
    fn new(alloc: Global) -> SweepRows {
        SweepRows {
            told: Told::new(alloc),
        }
    }

    fn answer(&mut self, alloc: Global, words: &[&str], line: &mut Line) {
        self.told.answer_row(alloc, words, line);
    }
}
