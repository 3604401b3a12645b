//! All rows.

mod files;
mod links;
mod texts;
mod traps;
mod validity;
mod values;

use crate::row::Row;
use std::alloc::{AllocError, Global};

/// The rows of all traps, misuses and reasons: those of a kind stand together, by their numbers.
/// Refused only where there is no memory.
pub fn all_rows(alloc: Global) -> Result<Vec<Row>, AllocError> {
    let mut rows = Vec::new(alloc);
    for text in [
        traps::ROWS,
        files::ROWS,
        validity::ROWS,
        links::ROWS,
        texts::ROWS,
        values::ROWS,
    ] {
        add_rows(&mut rows, text)?;
    }
    Ok(rows)
}

/// Adds the rows of a text.
fn add_rows(rows: &mut Vec<Row>, text: &'static str) -> Result<(), AllocError> {
    for line in text.lines() {
        rows.push(Row::of_line(line))?;
    }
    Ok(())
}

/// The row of the trap with this number, from 1.
pub(crate) fn trap_row(number: u32) -> Option<Row> {
    traps::ROWS
        .lines()
        .map(Row::of_line)
        .find(|row| row.of == "Trap" && row.number == number)
}
