//! Answers rows on calls: values lifted and lowered, and scanned and copied.
//!
//! A row is `call WAY SOURCE TARGET MEMORY TABLE LENGTH RECEIVED INSTANCE TYPE.. = SLOT.. at
//! ANSWER..`, its types spelled as in rows on types. MEMORY in hexadecimal digits and TABLE are the
//! giver's, whose strings are encoded as SOURCE says. The receiver has a memory of LENGTH bytes,
//! each of them `aa`, the table RECEIVED and strings as TARGET says, and implements the resources
//! of the component of the place INSTANCE; the call has number 9. Its `realloc` gives the answers,
//! of which the first is the pointer to the tuple where the values are not passed flat.
//!
//! The answer has two halves. The first has the values, or the fault, and the giver's table then;
//! what lowering them asks for, the core values that pass them, or the fault, and the receiver's
//! memory and table then. The second has the records of the parts, the giver's table then, what
//! they ask for, one request after another, and the places of the parts; where an answer will not
//! do, its fault and what is asked for again; else what copying them comes to, as of lowering. A
//! request is `(OLD POINTER,OLD SIZE,ALIGNMENT,SIZE)`.
//! A row with `scan` in the place of `call` is answered by the second half alone.
//!
//! The other rows are on one step of a call. `lift WAY SOURCE MEMORY TABLE TYPE.. = SLOT..` is
//! answered by the values, or the fault, and the giver's table then; `requests WAY SOURCE MEMORY
//! TABLE TARGET TYPE.. = SLOT..`, from UTF-8 or UTF-16, by what lowering them asks for,
//! `ALIGN:SIZE`, or `>ALIGN:OLD:SIZE` of a request that hands back what the one before it got; and
//! `pass WAY SOURCE MEMORY TABLE INSTANCE TYPE.. = SLOT..` by the numbers of their handles at a
//! receiver whose table is empty, and its table then; `numbers WAY TYPE.. = SLOT..`, of types that
//! are numbers alone, by the core values that pass at once, or the fault, and else by `walked`.
//!
//! `host WAY MEMORY END TYPE.. as TYPE.. = SLOT..`, whose types are one where WAY is `results`, is
//! answered by what a host sees of the values, or the fault; and, by the types behind `as`, by what
//! passes the values on in a memory whose bytes up to END are given out, or the fault.
#![tactic(auto)]

mod answers;
mod call;
mod giving;
mod hosts;
mod lifted;
mod lowered;
mod numbers;
mod passing;
mod scanned;
mod tables;
mod values;

use cm_rows::{Driver, Line, word, words_from};
use std::alloc::Global;

/// The families of rows, a file each.
pub const FAMILIES: [&str; 6] = ["calls", "lifts", "requests", "handles", "at_once", "hosts"];

/// Nothing is kept between rows.
#[derive(Drop)]
pub struct CallRows;

impl Driver for CallRows {
    fn new(_alloc: Global) -> CallRows {
        CallRows
    }

    /// Writes the answer to a row on a call, or on one step of it; or to `faults`, which are those
    /// of the adapters with their numbers.
    fn answer(&mut self, alloc: Global, words: &[&str], line: &mut Line) {
        let rest = words_from(words, 1);
        match word(words, 0) {
            "lift" => lift(alloc, rest, line),
            "pass" => pass(alloc, rest, line),
            "requests" => ask(alloc, rest, line),
            "numbers" => pass_at_once(alloc, rest, line),
            "give" => giving::answer(alloc, rest, line),
            "answers" => answers::answer(alloc, rest, line),
            "host" => hosts::answer(alloc, rest, line),
            "faults" => passing::write_faults(line),
            verb => call_or_scan(alloc, verb, rest, line),
        }
    }
}

fn lift(alloc: Global, words: &[&str], line: &mut Line) {
    let sides = call::read_sides(word(words, 1), "utf8", "0", "0", line);
    let way = word(words, 0);
    let memory = word(words, 2);
    let rest = words_from(words, 4);
    if let Some(given) = call::read_call(alloc, sides, way, memory, rest, &[], line) {
        lifted::answer(alloc, &given, word(words, 3), line);
    }
}

fn pass(alloc: Global, words: &[&str], line: &mut Line) {
    let sides = call::read_sides(word(words, 1), "utf8", "0", word(words, 4), line);
    let way = word(words, 0);
    let memory = word(words, 2);
    let rest = words_from(words, 5);
    if let Some(given) = call::read_call(alloc, sides, way, memory, rest, &[], line) {
        lifted::pass(alloc, &given, word(words, 3), line);
    }
}

fn ask(alloc: Global, words: &[&str], line: &mut Line) {
    let source = word(words, 1);
    call::read_stored(source, line);
    let sides = call::read_sides(source, word(words, 4), "0", "0", line);
    let way = word(words, 0);
    let memory = word(words, 2);
    let rest = words_from(words, 5);
    if let Some(given) = call::read_call(alloc, sides, way, memory, rest, &[], line) {
        lifted::ask(alloc, &given, word(words, 3), line);
    }
}

fn pass_at_once(alloc: Global, words: &[&str], line: &mut Line) {
    let sides = call::read_sides("utf8", "utf8", "0", "0", line);
    let rest = words_from(words, 1);
    if let Some(given) = call::read_call(alloc, sides, word(words, 0), "-", rest, &[], line) {
        numbers::answer(alloc, given, line);
    }
}

fn call_or_scan(alloc: Global, verb: &str, words: &[&str], line: &mut Line) {
    let (source, target) = (word(words, 1), word(words, 2));
    let sides = call::read_sides(source, target, word(words, 5), word(words, 7), line);
    let (memory, table, received) = (word(words, 3), word(words, 4), word(words, 6));
    let (rest, answers) = line.split(words_from(words, 8), "at");
    let way = word(words, 0);
    let Some(given) = call::read_call(alloc, sides, way, memory, rest, answers, line) else {
        return;
    };
    match verb {
        "call" => {
            lowered::answer(alloc, &given, table, received, line);
            line.put(" | ");
        }
        "scan" => {}
        _ => return line.refuse(),
    }
    scanned::answer(alloc, &given, table, received, line);
}
