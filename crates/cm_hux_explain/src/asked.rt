//! What words ask for.

use crate::fault::ExplainFault;
use crate::row::Row;
use crate::rows::all_rows;
use cm_tool_help_texts::{Escaped, is_near};
use std::alloc::{AllocError, Global};
use std::fmt::Write as _;
use std::io;
use std::io::Write;

/// The most names that are listed as near.
const MAX_NEAR: usize = 5;

/// A row that words ask for, and what of it.
#[derive(Clone, Copy)]
pub enum Found {
    /// All.
    Whole(Row),
    /// One line, as where all rows of a kind are asked for.
    Line(Row),
}

/// The rows that words ask for.
#[derive(Drop)]
struct Asked<'r> {
    alloc: Global,
    rows: &'r [Row],
    found: Vec<Found>,
}

/// The rows of the traps, misuses and reasons that the words name.
///
/// A word is a name, in letters of either case, or a kind: `trap` or the name of an enum, as
/// `ValidReason`; a text with blanks is as many words. A kind with a number behind it names one
/// row, and alone all rows of the kind, of which a line each is asked for. A name that several
/// kinds have names each of them. `Unknown` comes for the first word that names nothing, and
/// `Memory` where there is no memory.
pub fn find(alloc: Global, words: &[&str]) -> Result<Vec<Found>, ExplainFault> {
    let rows = all_rows(alloc)?;
    let mut asked = Asked {
        alloc,
        rows: &rows,
        found: Vec::new(alloc),
    };
    asked.read(words)?;
    Ok(asked.found)
}

/// Writes these rows, with an empty line before each that is written whole, but the first.
pub fn write_found<O: Write>(found: &[Found], out: &mut O) -> io::Result<()> {
    for (number, each) in found.iter().enumerate() {
        match each {
            Found::Line(row) => row.write_line(out)?,
            Found::Whole(row) => {
                if number > 0 {
                    writeln!(out)?;
                }
                row.write_whole(out)?;
            }
        }
    }
    out.flush()
}

impl Asked<'_> {
    fn read<'w>(&mut self, words: &[&'w str]) -> Result<(), ExplainFault> {
        let mut kind: Option<&'w str> = None;
        for word in words {
            kind = self.read_words(kind, word)?;
        }
        self.add_kind(kind)
    }

    /// Reads the words of a text behind a kind, which stand for themselves, so that `'trap 15'` is
    /// what `trap 15` is; answers the kind that the last of them is, if it is one.
    fn read_words<'w>(
        &mut self,
        before: Option<&'w str>,
        text: &'w str,
    ) -> Result<Option<&'w str>, ExplainFault> {
        let mut kind = before;
        for word in text.split(' ') {
            kind = match (kind, word.parse::<u32>()) {
                (Some(kind), Ok(number)) => {
                    self.add_number(kind, number)?;
                    None
                }
                _ => {
                    self.add_kind(kind)?;
                    self.read_word(word)?
                }
            };
        }
        Ok(kind)
    }

    /// The kind that a word is, if it is one; else its rows are added.
    fn read_word<'w>(&mut self, word: &'w str) -> Result<Option<&'w str>, ExplainFault> {
        if self.rows.iter().any(|row| row.is_of(word)) {
            return Ok(Some(word));
        }
        let before = self.found.len();
        for row in self.rows {
            if row.name.eq_ignore_ascii_case(word) {
                self.found.push(Found::Whole(*row))?;
            }
        }
        if self.found.len() == before {
            return Err(ExplainFault::Unknown(unknown_word(self.alloc, self.rows, word)?));
        }
        Ok(None)
    }

    /// Adds a line for each row of a kind.
    fn add_kind(&mut self, kind: Option<&str>) -> Result<(), ExplainFault> {
        let Some(kind) = kind else {
            return Ok(());
        };
        for row in self.rows {
            if row.is_of(kind) {
                self.found.push(Found::Line(*row))?;
            }
        }
        Ok(())
    }

    /// Adds the row of a kind with this number.
    fn add_number(&mut self, kind: &str, number: u32) -> Result<(), ExplainFault> {
        match self
            .rows
            .iter()
            .find(|row| row.is_of(kind) && row.number == number)
        {
            Some(row) if number > 0 => {
                self.found.push(Found::Whole(*row))?;
                Ok(())
            }
            _ => Err(ExplainFault::Unknown(unknown_number(self.alloc, self.rows, kind, number)?)),
        }
    }
}

/// The text of a kind that has no such number.
fn unknown_number(
    alloc: Global,
    rows: &[Row],
    kind: &str,
    number: u32,
) -> Result<String, AllocError> {
    let mut last: u32 = 0;
    for row in rows {
        if row.is_of(kind) {
            last = last.max(row.number);
        }
    }
    if last == 0 {
        format!(in alloc; "error: the names of {kind} have no numbers\n")
    } else {
        format!(in alloc; "error: {kind} {number} is none: its numbers go from 1 to {last}\n")
    }
}

/// The text of a word that is neither a kind nor a name: the names that are near.
fn unknown_word(alloc: Global, rows: &[Row], word: &str) -> Result<String, AllocError> {
    let mut text = String::new(alloc);
    write!(
        text,
        "error: no trap, misuse or reason is named '{}'\n\n",
        Escaped(word)
    )?;
    let near = near_names(alloc, rows, word)?;
    if word.parse::<u32>().is_ok() {
        text.push_str("  tip: its kind stands before a number, as 'trap 15'\n\n")?;
    } else if !near.is_empty() {
        write_near(&mut text, &near)?;
    }
    text.push_str("For more information, try '--help'.\n")?;
    Ok(text)
}

/// The kinds and the names that were likely meant.
fn near_names(alloc: Global, rows: &[Row], word: &str) -> Result<Vec<&'static str>, AllocError> {
    let mut near = Vec::new(alloc);
    for row in rows {
        for name in [row.name, row.kind] {
            if near.len() < MAX_NEAR && is_near(word, name) && !near.contains(&name) {
                near.push(name)?;
            }
        }
    }
    Ok(near)
}

fn write_near(text: &mut String, near: &[&str]) -> Result<(), AllocError> {
    text.push_str("  tip: near names:")?;
    for (number, name) in near.iter().enumerate() {
        let comma = if number > 0 { "," } else { "" };
        write!(text, "{comma} '{name}'")?;
    }
    text.push_str("\n\n")
}
