//! Why a command ends early, and the line that it prints then.

ghost use Rattle.std.specs.Prelude.{◌≡◌};
ghost use Rattle.cm_tool_commands.specs.Statuses as tool;
ghost use Rattle.cm_tool_commands.specs.cm_tool_files.Numbers.{file_status};
ghost use Rattle.cm_hux_files.specs.Endings.{ending_status, fault_status, why_status};
ghost use Rattle.cm_hux_files.specs.declared.fault.Fault.TheVariants as fault;

use crate::ending::Ending;
use crate::trouble::Trouble;
use cm_binary_model::LimitFault;
use cm_shims::{FitFault, PlainFault};
use cm_stubs::StubFault;
use cm_tool_commands::{BadFile, Fault as ToolFault, FileReason};
use cm_tool_help_texts::Escaped;
use std::alloc::{AllocError, AllocFailed};
use std::io::Write;
use std::{fmt, io};

/// Why a component file is not what is wanted.
#[derive(Clone, Copy)]
pub enum WhyNoFile {
    /// It is no component file, or not valid.
    Reason(FileReason),
    /// An item of a file with shims cannot be followed.
    Plain(PlainFault),
    /// What a file with shims stands for does not keep the limits of files.
    Limit(LimitFault),
    /// What the shims of a file want of its functions and types does not hold.
    Unmet(FitFault),
}

/// Why a command ends early. A name is the word of the command line.
#[derive(Drop)]
pub enum Fault {
    /// The words are no command: what is wrong, and what is expected.
    Usage(String),
    /// A component file is not what is wanted. The name is that of the file, or what a part of a
    /// bundle is called; the tail says what stands there.
    File {
        name: String,
        why: WhyNoFile,
        tail: String,
    },
    /// No stub is made.
    Stub(StubFault),
    /// A bundle is not made or taken.
    Bundle(Trouble),
    /// A file cannot be written.
    Unwritten {
        name: String,
        kind: io::ErrorKind,
    },
    /// Standard input cannot be read.
    Input,
    /// So many moves were made, which are the most that `live` was to make.
    Moves {
        limit: u64,
    },
    /// What a script, a call or a line says is refused, in words.
    Refused(String),
    /// What `component_tool` says alike.
    Tool(ToolFault),
    /// There was no memory.
    Memory,
    /// Standard output cannot be written.
    Output,
}

impl Fault {
    /// How a command ends that ends by this fault: `Usage` where the words are no command, `Unread`
    /// where a file or a stream cannot be read or written, else `Refused`.
    pub fn ending(&self) -> Ending
        ensures { ending_status result ≡ fault_status self.now }
    {
        match self {
            Fault::Usage(_) => Ending::Usage,
            Fault::File { why, .. } => ending_of_why(*why),
            Fault::Stub(_)
            | Fault::Bundle(_)
            | Fault::Moves { .. }
            | Fault::Refused(_)
            | Fault::Memory => Ending::Refused,
            Fault::Unwritten { .. } | Fault::Input | Fault::Output => Ending::Unread,
            Fault::Tool(fault) => ending_of_tool(fault),
        }
    }
}

/// How a command ends by a component file that is not what it wants.
fn ending_of_why(why: WhyNoFile) -> Ending
    ensures { ending_status result ≡ why_status why }
{
    match why {
        WhyNoFile::Reason(reason) => ending_of_file(reason),
        WhyNoFile::Plain(_) | WhyNoFile::Limit(_) | WhyNoFile::Unmet(_) => Ending::Refused,
    }
}

/// How a command ends by a fault that `component_tool` has too.
fn ending_of_tool(fault: &ToolFault) -> Ending
    ensures { ending_status result ≡ tool.fault_status fault.now }
{
    match fault {
        ToolFault::Usage(_) => Ending::Usage,
        ToolFault::Output => Ending::Unread,
        ToolFault::File { reason, .. } => ending_of_file(*reason),
        ToolFault::Memory
        | ToolFault::Show { .. }
        | ToolFault::Unfit { .. }
        | ToolFault::Link { .. }
        | ToolFault::Script(_)
        | ToolFault::Set { .. }
        | ToolFault::Begin { .. }
        | ToolFault::Limit { .. } => Ending::Refused,
    }
}

/// How a command ends by a file that is not what it wants.
fn ending_of_file(reason: FileReason) -> Ending
    ensures { ending_status result ≡ file_status reason }
{
    match reason {
        FileReason::Unread(_) => Ending::Unread,
        FileReason::NoComponent { .. } | FileReason::NotValid(_) | FileReason::NoText(_) => {
            Ending::Refused
        }
    }
}

impl From<ToolFault> for Fault {
    ghost from_gives = { λ e f. f ≡ fault.Tool e };

    fn from(fault: ToolFault) -> Self {
        Fault::Tool(fault)
    }
}

impl From<StubFault> for Fault {
    fn from(fault: StubFault) -> Self {
        match fault {
            StubFault::Memory => Fault::Memory,
            _ => Fault::Stub(fault),
        }
    }
}

impl From<Trouble> for Fault {
    fn from(trouble: Trouble) -> Self {
        match trouble {
            Trouble::Memory => Fault::Memory,
            _ => Fault::Bundle(trouble),
        }
    }
}

impl From<AllocError> for Fault {
    ghost from_gives = { λ _ f. f ≡ fault.Memory };

    fn from(_error: AllocError) -> Self {
        Fault::Memory
    }
}

impl<T: Drop> From<AllocFailed<T>> for Fault {
    ghost from_gives = { λ _ f. f ≡ fault.Memory };

    fn from(_error: AllocFailed<T>) -> Self {
        Fault::Memory
    }
}

impl From<io::Error> for Fault {
    ghost from_gives = { λ _ f. f ≡ fault.Output };

    fn from(_error: io::Error) -> Self {
        Fault::Output
    }
}

impl fmt::Display for Fault {
    fn fmt<W: fmt::Write>(&self, f: &mut fmt::Formatter<W>) -> fmt::Result {
        match self {
            Fault::Usage(text) => f.write_str(text.as_str()),
            Fault::File { name, why, tail } => write_no_file(f, name.as_str(), *why, tail.as_str()),
            Fault::Stub(fault) => write!(f, "{fault}"),
            Fault::Bundle(trouble) => write!(f, "{trouble}"),
            Fault::Unwritten { name, kind } => {
                write!(
                    f,
                    "{}: Write: {}",
                    Escaped(name.as_str()),
                    why_unwritten(*kind)
                )
            }
            Fault::Input => f.write_str("standard input: Read: it cannot be read"),
            Fault::Moves { limit } => write!(f, "limit: {limit} moves were made"),
            Fault::Refused(text) => f.write_str(text.as_str()),
            Fault::Tool(fault) => write!(f, "{fault}"),
            Fault::Memory => write!(f, "{}", ToolFault::Memory),
            Fault::Output => write!(f, "{}", ToolFault::Output),
        }
    }
}

/// Writes the line of a component file that is not what is wanted.
fn write_no_file<W: fmt::Write>(
    f: &mut fmt::Formatter<W>,
    name: &str,
    why: WhyNoFile,
    tail: &str,
) -> fmt::Result {
    match why {
        WhyNoFile::Reason(reason) => write!(f, "{}{tail}", BadFile { name, reason }),
        WhyNoFile::Plain(fault) => write!(f, "{}: {fault}", Escaped(name)),
        WhyNoFile::Limit(fault) => write!(f, "{}: {fault}", Escaped(name)),
        WhyNoFile::Unmet(fault) => write!(f, "{}: {fault}", Escaped(name)),
    }
}

/// Why a file or a folder cannot be written, in words.
fn why_unwritten(kind: io::ErrorKind) -> &'static str {
    match kind {
        io::ErrorKind::NotFound | io::ErrorKind::NotADirectory => "there is no such folder",
        io::ErrorKind::IsADirectory => "it is a folder",
        io::ErrorKind::AlreadyExists => "a file has this name",
        io::ErrorKind::PermissionDenied => "it may not be written",
        io::ErrorKind::ReadOnlyFilesystem => "nothing may be written there",
        io::ErrorKind::StorageFull | io::ErrorKind::QuotaExceeded => "there is no room for it",
        io::ErrorKind::OutOfMemory => "no memory",
        _ => "it cannot be written",
    }
}

/// Reports a fault: a line that begins with `error: `, or of words that are no command a text that
/// does. Where that fails too, there is nobody left to tell.
pub fn report<E: Write>(err: &mut E, fault: &Fault) {
    let _ = match fault {
        Fault::Usage(text) => write_lines(err, text.as_str()),
        _ => writeln!(err, "error: {fault}"),
    };
}

/// Writes the lines of a text, in which a word of the command line may stand as it was given.
fn write_lines<E: Write>(err: &mut E, text: &str) -> io::Result<()> {
    for line in text.lines() {
        writeln!(err, "{}", Escaped(line))?;
    }
    Ok(())
}
