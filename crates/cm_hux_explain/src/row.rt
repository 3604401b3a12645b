//! The row of one trap, misuse or reason.

use std::io;
use std::io::Write;

/// A trap, a misuse or a reason, with its meaning.
#[derive(Clone, Copy)]
pub struct Row {
    /// The word of its kind, as `trap`.
    pub kind: &'static str,
    /// The name of its enum, as `Trap`.
    pub of: &'static str,
    /// Its number, from 1; 0 where its kind has no numbers.
    pub number: u32,
    pub name: &'static str,
    /// What it means.
    pub meaning: &'static str,
    /// Its usual cause.
    pub cause: &'static str,
    /// What to do.
    pub remedy: &'static str,
    /// The section of the public standard; `none: ` and why, where it has none.
    pub standard: &'static str,
}

/// How many fields a row has.
const FIELDS: usize = 8;

impl Row {
    /// The row that a line spells: its fields in their order, with a tab between two.
    pub(crate) fn of_line(line: &'static str) -> Row {
        let mut fields = [""; FIELDS];
        for (place, text) in line.split('\t').enumerate() {
            if let Some(field) = fields.get_mut(place) {
                *field = text;
            }
        }
        let [kind, of, number, name, meaning, cause, remedy, standard] = fields;
        Row {
            kind,
            of,
            number: number.parse().unwrap_or(0),
            name,
            meaning,
            cause,
            remedy,
            standard,
        }
    }

    /// Whether a word names its kind.
    pub(crate) fn is_of(&self, kind: &str) -> bool {
        self.kind == kind || self.of == kind
    }

    /// Writes a line with its kind, its number, its name and what it means.
    pub fn write_line<O: Write>(&self, out: &mut O) -> io::Result<()> {
        let Row {
            kind,
            number,
            name,
            meaning,
            ..
        } = self;
        if *number > 0 {
            writeln!(out, "{kind} {number}, {name}: {meaning}")
        } else {
            writeln!(out, "{kind}, {name}: {meaning}")
        }
    }

    /// Writes the same, and below it its usual cause, what to do, and where the standard speaks of
    /// it.
    pub fn write_whole<O: Write>(&self, out: &mut O) -> io::Result<()> {
        self.write_line(out)?;
        writeln!(out, "usual cause: {}", self.cause)?;
        writeln!(out, "what to do: {}", self.remedy)?;
        writeln!(out, "standard: {}", self.standard)
    }
}
