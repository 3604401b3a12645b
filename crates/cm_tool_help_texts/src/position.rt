//! Places in a text.

use std::fmt;

/// A place in a text, as an editor names it: the line and the column, both from 1. Lines end with
/// LF, and columns count characters. It is shown as `line 2, column 7`.
#[derive(Clone, Copy, PartialEq, Eq)]
pub struct Position {
    pub line: usize,
    pub column: usize,
}

impl Position {
    /// The place of the byte `at` of a text; the text's end where it has no character there.
    pub fn of(text: &str, at: usize) -> Position {
        let before = text.get(..at).unwrap_or(text);
        let mut place = Position { line: 1, column: 1 };
        for c in before.chars() {
            place = place.behind(c);
        }
        place
    }

    /// The place behind a character that stands at this one.
    fn behind(self, c: char) -> Position {
        if c == '\n' {
            Position {
                line: self.line.saturating_add(1),
                column: 1,
            }
        } else {
            Position {
                line: self.line,
                column: self.column.saturating_add(1),
            }
        }
    }
}

impl fmt::Display for Position {
    fn fmt<W: fmt::Write>(&self, f: &mut fmt::Formatter<W>) -> fmt::Result {
        let Position { line, column } = self;
        write!(f, "line {line}, column {column}")
    }
}
