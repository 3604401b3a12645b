//! The line of a fault in a script of `hux`.

use crate::fault::{HuxLineFault, HuxRefusal};
use crate::statement::MAX_PRINTED;
use cm_tool_script::{LineFault, form_of};
use std::alloc::{AllocError, Global};
use std::fmt;

/// The most characters of a line that are shown.
const MAX_SHOWN: usize = 60;

const EXPECT: &str = "expect and an event: done, grown N, enter I F V .., realloc I F and four \
    numbers, resume I V .., postreturn I F V .., dtor I F REP, trapped NAME or ended";

const ALL: &str = "pages N .., guest I, begin I, write AT HEX, grow N, call F V .., return V .., \
    unreachable, expect EVENT, memory I AT HEX or print I AT SIZE";

/// A line of a script that is at fault.
#[derive(Drop)]
pub struct BadLine {
    refusal: HuxRefusal,
    /// How the line begins. Empty where the script has no statement.
    found: String,
    /// How many components the script is for.
    components: usize,
}

impl BadLine {
    /// The line of this text, a script for so many components, that was refused.
    pub fn new(
        alloc: Global,
        text: &str,
        components: usize,
        refusal: HuxRefusal,
    ) -> Result<BadLine, AllocError> {
        let line = text.split('\n').nth(refusal.line.saturating_sub(1));
        Ok(BadLine {
            refusal,
            found: String::from_str(alloc, beginning_of(line.unwrap_or("")))?,
            components,
        })
    }
}

/// What is shown of a line.
fn beginning_of(line: &str) -> &str {
    match line.char_indices().nth(MAX_SHOWN) {
        Some((at, _)) => line.get(..at).unwrap_or(line),
        None => line,
    }
}

/// The form of the statements that begin as a line does; where there is none, all forms.
fn form(line: &str) -> &'static str {
    match line.split(' ').next() {
        Some("expect") => EXPECT,
        Some("memory") => "memory I AT HEX",
        Some("print") => "print I AT SIZE",
        Some("call") => {
            "call F V .., F a number or a name, each V i32:N or i64:N, a name with a digit in \
            front or a space between \" and \""
        }
        Some("pages" | "guest" | "begin" | "write" | "grow" | "return" | "unreachable") => form_of(
            line,
        ),
        _ => ALL,
    }
}

/// The fault of a line: its number, what is wrong, what stands there, and what was expected.
impl fmt::Display for BadLine {
    fn fmt<W: fmt::Write>(&self, f: &mut fmt::Formatter<W>) -> fmt::Result {
        let HuxRefusal { line, fault } = self.refusal;
        write!(f, "script line {line}: {fault}")?;
        if let HuxLineFault::Line(LineFault::Memory) = fault {
            return Ok(());
        }
        let found = self.found.as_str();
        if found.is_empty() {
            f.write_str(": found no statement, expected ")?;
        } else {
            write!(f, ": found {found:?}, expected ")?;
        }
        self.write_expected(f)
    }
}

impl BadLine {
    fn write_expected<W: fmt::Write>(&self, f: &mut fmt::Formatter<W>) -> fmt::Result {
        let components = self.components;
        match self.refusal.fault {
            HuxLineFault::Line(LineFault::PagesFirst) => write!(
                f,
                "pages and a number for each component, of which there are {components}"
            ),
            HuxLineFault::Line(LineFault::PagesTwice) => f.write_str("any other statement"),
            HuxLineFault::Line(LineFault::NoGuest) => f.write_str("guest I before it"),
            HuxLineFault::Line(LineFault::NoSuchComponent) => {
                write!(f, "a number below {components}")
            }
            HuxLineFault::NoSuchTrap => f.write_str("a trap by its name or number"),
            HuxLineFault::Name(_) => f.write_str("a number of a line of hux core, or a name there"),
            HuxLineFault::NoEvent => f.write_str("it behind a move, a guest I or a begin I"),
            HuxLineFault::TooMany => write!(f, "at most {MAX_PRINTED}"),
            HuxLineFault::NotAnEvent => f.write_str(EXPECT),
            HuxLineFault::Line(_) => {
                let form = form(self.found.as_str());
                write!(
                    f,
                    "{form} (numbers are decimal, words stand one space apart)"
                )
            }
        }
    }
}
