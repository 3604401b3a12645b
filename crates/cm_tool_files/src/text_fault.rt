//! Why the bytes of a file are no text.

ghost use Rattle.std.specs.Prelude.{◌≡◌};
ghost use Rattle.cm_tool_files.specs.Numbers.{text_fault_number};

use std::fmt;

/// The most bytes of a script or a WIT text (this project's own choice), as many as a component
/// file may have.
pub const MAX_TEXT: usize = 16_777_216;

/// Why the bytes of a script or of a WIT text are not read.
#[derive(Clone, Copy, PartialEq, Eq)]
pub enum TextFileFault {
    /// There are more than `MAX_TEXT` bytes.
    TooLong,
    /// They are not UTF-8, from the byte `at` on.
    BadUtf8 { at: usize },
}

impl TextFileFault {
    /// The number by which the fault is known: 1 for `TooLong`, 2 for `BadUtf8`.
    pub fn number(self) -> u8
        ensures { result ≡ text_fault_number self }
    {
        match self {
            TextFileFault::TooLong => 1,
            TextFileFault::BadUtf8 { .. } => 2,
        }
    }

    /// The byte from which on the text is not read, from 0.
    pub fn place(self) -> usize {
        match self {
            TextFileFault::TooLong => MAX_TEXT,
            TextFileFault::BadUtf8 { at } => at,
        }
    }
}

impl fmt::Display for TextFileFault {
    fn fmt<W: fmt::Write>(&self, f: &mut fmt::Formatter<W>) -> fmt::Result {
        let at = self.place();
        match self {
            TextFileFault::TooLong => {
                write!(f, "TooLong at {at}: a text of more than {MAX_TEXT} bytes")
            }
            TextFileFault::BadUtf8 { .. } => write!(f, "BadUtf8 at {at}: expected a text in UTF-8"),
        }
    }
}
