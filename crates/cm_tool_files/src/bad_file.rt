//! Files that are not what a command wants.

ghost use Rattle.std.specs.Prelude.{◌≡◌};
ghost use Rattle.cm_tool_files.specs.Numbers.{file_status};

use crate::files::FileFault;
use crate::text_fault::TextFileFault;
use crate::words::{write_decode_fault, write_file_fault};
use cm_binary::DecodeFault;
use cm_tool_help_texts::Escaped;
use cm_validate::ValidFault;
use std::fmt;

/// Why a file is not what a command wants.
#[derive(Clone, Copy)]
pub enum FileReason {
    /// It cannot be read.
    Unread(FileFault),
    /// It is no component file. `found` is the byte at the fault, where the file has one there.
    NoComponent {
        fault: DecodeFault,
        found: Option<u8>,
    },
    /// Its component is not valid.
    NotValid(ValidFault),
    /// It is no text that is read.
    NoText(TextFileFault),
}

/// A file that is not what a command wants: its name, which is the word of the command line, and
/// why. It is shown as a line of standard error has it.
#[derive(Clone, Copy)]
pub struct BadFile<'a> {
    pub name: &'a str,
    pub reason: FileReason,
}

impl BadFile<'_> {
    /// The exit status of a command that the file ends: 4 where it cannot be read, else 1.
    pub fn status(&self) -> u8
        ensures { result ≡ file_status self.now.reason }
    {
        match self.reason {
            FileReason::Unread(_) => 4,
            FileReason::NoComponent { .. } | FileReason::NotValid(_) | FileReason::NoText(_) => 1,
        }
    }
}

impl fmt::Display for BadFile<'_> {
    fn fmt<W: fmt::Write>(&self, f: &mut fmt::Formatter<W>) -> fmt::Result {
        let name = Escaped(self.name);
        match self.reason {
            FileReason::Unread(fault) => write_file_fault(f, name, fault),
            FileReason::NoComponent { fault, found } => write_decode_fault(f, name, fault, found),
            FileReason::NotValid(fault) => write!(f, "{name}: {fault}"),
            FileReason::NoText(fault) => write!(f, "{name}: {fault}"),
        }
    }
}
