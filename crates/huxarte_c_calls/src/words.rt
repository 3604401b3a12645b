//! The words of a command that is handed over.

use crate::kinds::HuxKind;
use crate::spans::{HuxSpan, PartsFault, part};
use std::alloc::{AllocError, AllocFailed, Global};
use std::str;

/// Why no command runs.
#[derive(Clone, Copy)]
pub enum CommandFault {
    /// A part passes the end of the bytes.
    Outside,
    /// A word is not UTF-8.
    NoText,
    /// There was no memory for the words, or for the list of files.
    Memory,
}

impl CommandFault {
    /// The kind under which C knows it.
    pub fn kind(self) -> HuxKind {
        match self {
            CommandFault::Outside => HuxKind::Outside,
            CommandFault::NoText => HuxKind::NoText,
            CommandFault::Memory => HuxKind::Memory,
        }
    }
}

impl From<PartsFault> for CommandFault {
    fn from(fault: PartsFault) -> CommandFault {
        match fault {
            PartsFault::Outside => CommandFault::Outside,
            PartsFault::Memory => CommandFault::Memory,
        }
    }
}

impl From<AllocError> for CommandFault {
    fn from(_error: AllocError) -> CommandFault {
        CommandFault::Memory
    }
}

impl<T: Drop> From<AllocFailed<T>> for CommandFault {
    fn from(_error: AllocFailed<T>) -> CommandFault {
        CommandFault::Memory
    }
}

/// The words of a command, each a part of the bytes.
///
/// `Outside` comes where a part passes the end of the bytes, `NoText` where a word is not UTF-8: of
/// several faults the first one.
pub fn words_of(
    alloc: Global,
    bytes: &[u8],
    spans: &[HuxSpan],
) -> Result<Vec<String>, CommandFault> {
    let mut words = Vec::new(alloc);
    for span in spans {
        let word = part(bytes, span).ok_or(CommandFault::Outside)?;
        let word = str::from_utf8(word).map_err(|_| CommandFault::NoText)?;
        words.push(String::from_str(alloc, word)?)?;
    }
    Ok(words)
}
