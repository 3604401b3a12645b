//! Plays moves, each beside the event that it is to have, and marks those that are to take no
//! memory: what they ask an allocator for stands between two marks on standard output. A reader of
//! the marks who counts allocations, as `checks/memory` does, sees whether there are any.
//!
//! A row of `moves.rows` is `file NAME HEX`, a component; `set PAGES.. of @NAME..`, which links
//! components and makes a set; `MOVE`, a move as a script spells it, or `begin I`; `quiet MOVE`, a
//! move that takes no memory; or `quiet state`, which shows what the set is asked.

use crate::plays::Plays;
use cm_rows::{Line, words_from};
use std::rt::Files;
use std::{fs, io};

/// What stands before a move that takes no memory, and behind it.
const BEGINS: &str = "-";

const ENDS: &str = ".";

/// What stands between the two halves of a row.
const MARK: &str = " => ";

/// Answers a row. A quiet one has a mark before what it does, and one behind it.
fn answer(
    rt: &(impl Print + AllocGlobal),
    plays: &mut Plays,
    row: &str,
    line: &mut Line,
) -> io::Result<()> {
    let alloc = rt.alloc();
    let words: Vec<&str> = row.split(' ').collect(alloc)?;
    let is_quiet = words.first() == Some(&"quiet");
    let words = words_from(&words, usize::from(is_quiet));
    let Some(act) = plays.prepare(alloc, words, line) else {
        return Ok(());
    };
    if is_quiet {
        println!(rt; "{BEGINS}")?;
    }
    let seen = plays.act(&act);
    if is_quiet {
        println!(rt; "{ENDS}")?;
    }
    seen.write(alloc, line);
    Ok(())
}

/// Whether a row is answered as wanted; where it is not, it is printed.
fn passes(
    rt: &(impl Print + AllocGlobal),
    plays: &mut Plays,
    number: usize,
    row: &str,
) -> io::Result<bool> {
    let (row, wanted) = row.split_once(MARK).unwrap_or((row, ""));
    let mut line = Line::new(rt.alloc());
    answer(rt, plays, row, &mut line)?;
    let answer = line.done();
    let answer = match &answer {
        Ok(answer) => answer.as_str(),
        Err(fault) => fault.text(),
    };
    if answer != wanted {
        println!(rt; "moves.rows:{number}: wanted {wanted}, got {answer}")?;
    }
    Ok(answer == wanted)
}

/// Answers the rows of `moves.rows`, and prints how many pass. Whether all do.
pub fn answer_moves(rt: &(impl Files + Print + AllocGlobal)) -> io::Result<bool> {
    let text = fs::read_to_string(rt, "moves.rows")?;
    let mut plays = Plays::new(rt.alloc());
    let mut rows: u64 = 0;
    let mut passed: u64 = 0;
    for (place, row) in text.as_str().lines().enumerate() {
        if !row.is_empty() && !row.starts_with('#') {
            rows = rows.saturating_add(1);
            let does = passes(rt, &mut plays, place.saturating_add(1), row)?;
            passed = passed.saturating_add(u64::from(does));
        }
    }
    if passed == rows {
        println!(rt; "moves: {rows} rows pass")?;
    } else {
        println!(rt; "moves: {passed} of {rows} rows pass")?;
    }
    Ok(passed == rows)
}
