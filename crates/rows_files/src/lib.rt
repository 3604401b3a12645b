//! Answers rows on component files and bundles, read and written in every way.
#![tactic(auto)]

mod bundles;
mod faults;
mod files;
mod outcomes;
mod pieces;
mod readers;
mod sections;
mod shims;
mod shown;
mod sweeps;
mod writers;

use cm_rows::{Driver, Line, NamedFiles, word, words_from};
use std::alloc::Global;

/// The families of rows, a file each.
pub const FAMILIES: [&str; 9] = [
    "decoding", "limits", "pieces", "readers", "shims", "sweeps", "writers", "bundles", "changed",
];

/// The state between rows: files by their names.
#[derive(Drop)]
pub struct FileRows {
    files: NamedFiles,
}

impl Driver for FileRows {
    fn new(alloc: Global) -> FileRows {
        FileRows {
            files: NamedFiles::new(alloc),
        }
    }

    fn answer(&mut self, alloc: Global, words: &[&str], line: &mut Line) {
        let rest = words_from(words, 1);
        match word(words, 0) {
            "files" => files::answer(alloc, &mut self.files, rest, line),
            "pieces" => pieces::answer(alloc, rest, line),
            "shims" => shims::answer(alloc, &mut self.files, rest, line),
            "read" => readers::answer(alloc, rest, line),
            "write" => writers::answer(alloc, rest, line),
            "bundles" => bundles::answer(alloc, &mut self.files, rest, line),
            _ => line.refuse(),
        }
    }
}
