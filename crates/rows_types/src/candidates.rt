//! Rows on what may serve an import.

use cm_match_model::Candidate;
use cm_match_serving::Exports;
use cm_rows::{Line, read_name, word, words_from};
use std::alloc::{AllocError, Global};

/// The answer to `WANTED NAME..`, a name and those of the exports of components, with a `|` between
/// those of two components: `none` may serve an import of the name, `one COMPONENT NUMBER`, or
/// `several`.
pub fn answer(alloc: Global, words: &[&str], line: &mut Line) {
    let exports = read_exports(alloc, words_from(words, 1), line);
    if let Some(wanted) = read_name(alloc, word(words, 0), line) {
        write_candidate(line, exports.candidate(alloc, &wanted));
    }
}

fn write_candidate(line: &mut Line, candidate: Result<Candidate, AllocError>) {
    match line.kept(candidate) {
        None => {}
        Some(Candidate::None) => line.put("none"),
        Some(Candidate::One { component, export }) => {
            line.put("one ");
            line.show(component);
            line.put(" ");
            line.show(export);
        }
        Some(Candidate::Several) => line.put("several"),
    }
}

fn read_exports(alloc: Global, words: &[&str], line: &mut Line) -> Exports {
    let mut exports = Exports::new(alloc);
    for (component, names) in words.split(|word| *word == "|").enumerate() {
        for (number, name) in names.iter().enumerate() {
            if let Some(name) = read_name(alloc, name, line) {
                line.kept(exports.add(&name, component, number));
            }
        }
    }
    exports
}
