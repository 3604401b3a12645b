//! Where the bytes of files come from.

ghost use Rattle.std.specs.Prelude.{◌≡◌};
ghost use Rattle.cm_tool_files.specs.Numbers.{file_fault_number};

use std::alloc::Global;
use std::io::ErrorKind;
use std::{fmt, io};

/// Why the bytes of a file are not there.
#[derive(Clone, Copy)]
pub enum FileFault {
    /// The file cannot be read, for this reason: `NotFound` where there is none of the name,
    /// `IsADirectory` where it is a folder.
    Read(ErrorKind),
    /// There was no memory for its bytes.
    Memory,
}

impl FileFault {
    /// The number by which the fault is known: 1 for `Read`, 2 for `Memory`.
    pub fn number(self) -> u8
        ensures { result ≡ file_fault_number self }
    {
        match self {
            FileFault::Read(_) => 1,
            FileFault::Memory => 2,
        }
    }

    /// The fault's own name, as a line of standard error has it.
    pub fn name(self) -> &'static str {
        match self {
            FileFault::Read(_) => "Read",
            FileFault::Memory => "Memory",
        }
    }

    fn text(self) -> &'static str {
        match self {
            FileFault::Read(kind) => read_text(kind),
            FileFault::Memory => "no memory for its bytes",
        }
    }
}

fn read_text(kind: ErrorKind) -> &'static str {
    match kind {
        ErrorKind::NotFound | ErrorKind::NotADirectory => "there is no such file",
        ErrorKind::IsADirectory => "it is a folder",
        ErrorKind::PermissionDenied => "it may not be read",
        _ => "it cannot be read",
    }
}

impl fmt::Display for FileFault {
    fn fmt<W: fmt::Write>(&self, f: &mut fmt::Formatter<W>) -> fmt::Result {
        f.write_str(self.text())
    }
}

impl From<io::Error> for FileFault {
    fn from(error: io::Error) -> FileFault {
        match error.kind() {
            ErrorKind::OutOfMemory => FileFault::Memory,
            kind => FileFault::Read(kind),
        }
    }
}

/// The most bytes of a file that matter (this project's own choice): 16,777,216, and one more, by
/// which a component file, a script or a WIT text is refused, whatever stands behind it.
pub const MAX_READ: u64 = 16_777_217;

/// What the command reads its files from.
pub trait Files {
    /// The bytes of the file of this name: all, or its first ones where it has more than
    /// `MAX_READ`, of which it is enough to give so many.
    fn read(&mut self, alloc: Global, name: &str) -> Result<Vec<u8>, FileFault>;
}
