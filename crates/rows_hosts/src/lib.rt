//! Answers rows on what a host asks of the front door: core functions, faults in words, stubs.
#![tactic(auto)]

mod functions;
mod loading;
mod stubs;
mod texts;

use cm_rows::{Driver, Line, NamedFiles, word, words_from};
use std::alloc::Global;

/// The families of rows, a file each.
pub const FAMILIES: [&str; 3] = ["functions", "faults", "stubs"];

/// The state between rows: files by their names.
#[derive(Drop)]
pub struct HostRows {
    files: NamedFiles,
}

impl Driver for HostRows {
    fn new(alloc: Global) -> HostRows {
        HostRows {
            files: NamedFiles::new(alloc),
        }
    }

    fn answer(&mut self, alloc: Global, words: &[&str], line: &mut Line) {
        let rest = words_from(words, 1);
        match word(words, 0) {
            "file" => self.files.name(alloc, word(rest, 0), word(rest, 1), line),
            "of" => functions::answer(alloc, &self.files, rest, line),
            "load" => loading::answer(alloc, &self.files, rest, line),
            "real" => loading::answer_real(alloc, &self.files, rest, line),
            "text" => texts::answer_text(alloc, rest, line),
            "world" => texts::answer_world(alloc, rest, line),
            "stub" => stubs::answer(alloc, &self.files, rest, line),
            "fits" => texts::answer_fits(alloc, &self.files, rest, line),
            _ => line.refuse(),
        }
    }
}
