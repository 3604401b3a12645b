//! The lines of a drive that trapped.

use crate::rows::trap_row;
use cm_machine_model::{Move, Trap};
use cm_tool_help_texts::Escaped;
use std::alloc::AllocError;
use std::io::Write;
use std::{fmt, io};

/// The most bytes of a write that are shown.
const MAX_BYTES: usize = 16;

/// The move at which a drive trapped, as a text, and who made it.
#[derive(Drop)]
pub struct LastMove<'a, M> {
    /// The number of the instance, from 0, and the name of its component.
    pub instance: u32,
    pub component: &'a str,
    pub made: &'a M,
}

/// A move as a script has it; of a write of many bytes only how many they are.
#[derive(Clone, Copy)]
pub struct ShortMove<'a>(pub &'a Move);

/// A move that is kept for its text, without the bytes of a write of many.
#[derive(Drop)]
pub enum KeptMove {
    Whole(Move),
    /// So many bytes are written from this address on.
    LongWrite { at: u32, count: usize },
}

impl KeptMove {
    /// Keeps a move.
    pub fn of(made: &Move) -> Result<KeptMove, AllocError> {
        match long_write(made) {
            Some((at, count)) => Ok(KeptMove::LongWrite { at, count }),
            None => Ok(KeptMove::Whole(made.clone()?)),
        }
    }
}

/// The address of a write of many bytes, and how many they are.
fn long_write(made: &Move) -> Option<(u32, usize)> {
    let Move::Write { at, bytes } = made else {
        return None;
    };
    if bytes.len() > MAX_BYTES {
        Some((*at, bytes.len()))
    } else {
        None
    }
}

impl fmt::Display for ShortMove<'_> {
    fn fmt<W: fmt::Write>(&self, f: &mut fmt::Formatter<W>) -> fmt::Result {
        match long_write(self.0) {
            Some((at, count)) => write!(f, "write {at} of {count} bytes"),
            None => write!(f, "{}", self.0),
        }
    }
}

/// The text of the move that was kept, as `ShortMove` has it.
impl fmt::Display for KeptMove {
    fn fmt<W: fmt::Write>(&self, f: &mut fmt::Formatter<W>) -> fmt::Result {
        match self {
            KeptMove::Whole(made) => write!(f, "{made}"),
            KeptMove::LongWrite { at, count } => write!(f, "write {at} of {count} bytes"),
        }
    }
}

/// Writes two lines: which instance made which move, and why that is a trap; and the usual cause.
pub fn explain_trap<M: fmt::Display, E: Write>(
    err: &mut E,
    trap: Trap,
    last: LastMove<'_, M>,
) -> io::Result<()> {
    let (instance, component, made) = (last.instance, Escaped(last.component), last.made);
    write!(
        err,
        "trapped: component {instance} ({component}) made \"{made}\": {trap:?}"
    )?;
    match trap_row(trap.number() as u32) {
        Some(row) => {
            writeln!(err, ": {}", row.meaning)?;
            writeln!(err, "usual cause: {}", row.cause)
        }
        None => writeln!(err),
    }
}
