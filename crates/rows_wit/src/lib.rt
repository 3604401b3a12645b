//! Answers rows on WIT: texts, packages, worlds, signatures, conformance, `show`.
#![tactic(auto)]

mod conforming;
mod declarations;
mod faults;
mod files;
mod instances;
mod packages;
mod printing;
mod reading;
mod showing;
mod shown;
mod signatures;
mod texts;
mod world_signatures;
mod worlds;

use cm_rows::{Driver, Line, read_text, word, words_from};
use cm_wit_package::parse;
use cm_wit_reading::read_file;
use packages::Question;
use reading::write_read;
use std::alloc::Global;
use texts::Texts;

/// The families of rows, a file each.
pub const FAMILIES: [&str; 9] = [
    "reading",
    "wit_names",
    "printing",
    "worlds",
    "packages",
    "declarations",
    "signatures",
    "conformance",
    "shown",
];

/// The state between rows: the texts that rows have named.
#[derive(Drop)]
pub struct WitRows {
    texts: Texts,
}

impl Driver for WitRows {
    fn new(alloc: Global) -> WitRows {
        WitRows {
            texts: Texts::new(alloc),
        }
    }

    fn answer(&mut self, alloc: Global, words: &[&str], line: &mut Line) {
        let rest = words_from(words, 1);
        match word(words, 0) {
            "conforms" => conforming::answer(alloc, rest, line),
            "against" => conforming::answer_text(alloc, rest, line),
            "shows" => shown::answer(alloc, rest, line),
            "wit" => answer_on_texts(alloc, &mut self.texts, rest, line),
            _ => line.refuse(),
        }
    }
}

/// Writes the answer to `text NAME` or `line WORD..`, which make texts; to `read WORD..`, `parse
/// WORD..` or `printed WORD..`, on the text that the words are; to `print NAME NAME` or `faults
/// KIND`; or to `world NAME`, `number NUMBER`, `table INSTANCES`, `signature NAME` or `fits NAME
/// NAME`, each with the texts of packages behind it.
fn answer_on_texts(alloc: Global, texts: &mut Texts, words: &[&str], line: &mut Line) {
    let rest = words_from(words, 1);
    match word(words, 0) {
        "text" => texts.begin(alloc, word(rest, 0), line),
        "line" => texts.add_line(alloc, rest, line),
        "read" => {
            let text = read_text(alloc, rest, line);
            write_read(line, read_file(alloc, text.as_str()));
        }
        "parse" => {
            let text = read_text(alloc, rest, line);
            write_read(line, parse(alloc, text.as_str()));
        }
        "printed" => {
            let text = read_text(alloc, rest, line);
            printing::answer(alloc, text.as_str(), line);
        }
        "print" => printing::compare(alloc, texts, word(rest, 0), word(rest, 1), line),
        "fits" => {
            let question = Question::Fits(word(rest, 0), word(rest, 1));
            ask_texts(alloc, texts, question, words_from(rest, 2), line);
        }
        "faults" => faults::answer(word(rest, 0), line),
        call => ask(alloc, texts, call, rest, line),
    }
}

fn ask(alloc: Global, texts: &Texts, call: &str, words: &[&str], line: &mut Line) {
    let asked = word(words, 0);
    let question = match call {
        "world" => Question::WorldOfName(asked),
        "number" => Question::WorldOfNumber(line.number(asked)),
        "table" => Question::Table(asked),
        "signature" => Question::Signature(asked),
        _ => return line.refuse(),
    };
    ask_texts(alloc, texts, question, words_from(words, 1), line);
}

/// Writes the answer to a question of the packages whose texts these words are.
fn ask_texts(alloc: Global, texts: &Texts, question: Question, words: &[&str], line: &mut Line) {
    let texts = texts.texts(alloc, words, line);
    packages::answer(alloc, &texts, question, line);
}
