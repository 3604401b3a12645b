//! Why a line is refused.

ghost use Rattle.std.specs.Prelude.{◌≡◌, ℕ, List, OnOk};
ghost use Rattle.std.specs.Io.KnownBytes.{Appends};
ghost use Rattle.cm_live.specs.Lines.{IsErrorLine, IsOneLine};
ghost use Rattle.cm_live.specs.declared.fault.LiveFault.TheVariants as fault;

use arrayvec::ArrayString;
use cm_machine::Misuse;
use cm_tool_script::{LineFault, form_of};
use std::fmt::Write as _;
use std::io::Write;
use std::{fmt, io, str};

/// Why a line is refused. Nothing has changed then.
#[derive(Clone, Copy)]
pub enum LiveFault {
    /// The line is no statement.
    Line(LineFault),
    /// The input ends within the line.
    Cut,
    /// A `guest`, which is of scripts alone: a move is of the instance that acts.
    Guest,
    /// A `pages` behind the first root call, where moves are recorded: a script has one.
    Recorded,
    /// The machine does not make the set, begin the root call or make the move.
    Misuse(Misuse),
    /// There was no memory.
    Memory,
}

impl From<LineFault> for LiveFault {
    ghost from_gives = { λ e f. f ≡ fault.Line e };

    fn from(fault: LineFault) -> LiveFault {
        LiveFault::Line(fault)
    }
}

impl fmt::Display for LiveFault {
    fn fmt<W: fmt::Write>(&self, f: &mut fmt::Formatter<W>) -> fmt::Result {
        match self {
            LiveFault::Line(fault) => write!(f, "{fault}"),
            LiveFault::Cut => f.write_str("the input ends within a line"),
            LiveFault::Guest => f.write_str("guest is for scripts: a move is of who acts"),
            LiveFault::Recorded => f.write_str("pages stands once in a script that is recorded"),
            LiveFault::Misuse(misuse) => write!(f, "{misuse}"),
            LiveFault::Memory => f.write_str("no memory"),
        }
    }
}

/// What a line that is no statement was expected to be.
fn expected(fault: LiveFault, line: &[u8]) -> Option<&'static str> {
    match fault {
        LiveFault::Line(LineFault::NotAStatement | LineFault::BadHex) => {
            let text = str::from_utf8(line).unwrap_or("");
            Some(form_of(text.trim_end()))
        }
        _ => None,
    }
}

/// The reason, and of a line that is no statement what was expected. None has more bytes than fit.
fn reason_of(fault: LiveFault, line: &[u8]) -> ArrayString<256> {
    let mut reason = ArrayString::new();
    let _fits = match expected(fault, line) {
        Some(form) => write!(reason, "{fault}: expected {form}"),
        None => write!(reason, "{fault}"),
    };
    reason
}

/// What stands before the first line feed of a text, or all of it.
fn first_line(text: &str) -> &str
    ensures { IsOneLine result.now }
{
    match text.split_once('\n') {
        Some((first, _)) => first,
        None => text,
    }
}

/// Writes why a line is refused, on one line; of one that is no statement also what was expected.
pub(crate) fn write_refusal<W: Write>(
    writer: &mut W,
    fault: LiveFault,
    line: &[u8],
) -> io::Result<()>
    ensures { OnOk result ((bytes : List ℕ) × IsErrorLine bytes
        × Appends (W.contents writer.old) (W.contents writer.new) bytes) }
{
    let reason = reason_of(fault, line);
    let reason = first_line(reason.as_str());
    writeln!(writer, "error: {reason}")
}
