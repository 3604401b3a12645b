//! Why a command ends early, and the line that says so.

ghost use Rattle.std.specs.Prelude.{◌≡◌};
ghost use Rattle.cm_tool_commands.specs.Statuses.{fault_status};
ghost use Rattle.cm_tool_commands.specs.declared.fault.Fault.TheVariants as fault;

use cm_machine_model::Misuse;
use cm_match::{LinkFault, LinkReason};
use cm_tool_files::{BadFile, FileReason, Unfit, UnfitReason, write_show_fault};
use cm_tool_lines::{
    BadLine, Drive, SetSize, write_bad_line, write_begin_fault, write_limit, write_set_fault,
};
use cm_tool_show::ShowFault;
use cm_tool_words::Usage;
use std::alloc::{AllocError, AllocFailed, Global};
use std::io::Write;
use std::{fmt, io};

/// What has a line on standard error. A name is the word of the command line.
#[derive(Drop)]
pub enum Fault {
    /// The words are no command, or ask for help: which is wrong, and what was expected.
    Usage(String),
    /// There was no memory.
    Memory,
    /// A file is not what the command wants. The tail says what stands there.
    File {
        name: String,
        reason: FileReason,
        tail: String,
    },
    /// The component of a file is not shown.
    Show {
        name: String,
        fault: ShowFault,
    },
    /// The component of a file does not fit a world of a text. The tail says what each of them has.
    Unfit {
        wit: String,
        world: String,
        file: String,
        reason: UnfitReason,
        tail: String,
    },
    /// So many components do not link. The tail says what they have.
    Link {
        fault: LinkFault,
        count: usize,
        tail: String,
    },
    /// A script has a line at fault.
    Script(BadLine),
    /// The machine refused to make a set.
    Set {
        misuse: Misuse,
        size: SetSize,
    },
    /// The machine refused to begin a drive.
    Begin {
        misuse: Misuse,
        drive: Drive,
    },
    /// A drive made its last move, and its root has not returned.
    Limit {
        limit: u64,
        drive: Drive,
    },
    /// Standard output cannot be written.
    Output,
}

impl Fault {
    /// The fault of words that are no command; `Memory` where there is none for its line.
    pub fn usage(alloc: Global, usage: Usage<'_>) -> Fault {
        match format!(in alloc; "{usage}") {
            Ok(text) => Fault::Usage(text),
            Err(_) => Fault::Memory,
        }
    }

    /// The fault of a file; `Memory` where there is none for its name.
    pub fn file(alloc: Global, bad: BadFile<'_>, tail: String) -> Fault {
        match String::from_str(alloc, bad.name) {
            Ok(name) => Fault::File {
                name,
                reason: bad.reason,
                tail,
            },
            Err(_) => Fault::Memory,
        }
    }

    /// The fault of a file whose component is not shown; `Memory` where there is none for its name.
    pub fn show(alloc: Global, name: &str, fault: ShowFault) -> Fault {
        match String::from_str(alloc, name) {
            Ok(name) => Fault::Show { name, fault },
            Err(_) => Fault::Memory,
        }
    }

    /// The fault of a component that does not fit a world; `Memory` where there is none for the
    /// names.
    pub fn unfit(alloc: Global, unfit: Unfit<'_>, tail: String) -> Fault {
        let wit = String::from_str(alloc, unfit.wit);
        let world = String::from_str(alloc, unfit.world);
        match (wit, world, String::from_str(alloc, unfit.file)) {
            (Ok(wit), Ok(world), Ok(file)) => Fault::Unfit {
                wit,
                world,
                file,
                reason: unfit.reason,
                tail,
            },
            _ => Fault::Memory,
        }
    }

    /// The exit status of a command that ends by this fault: 2 where the words are no command, 4
    /// where a file cannot be read or standard output not be written, else 1.
    pub fn status(&self) -> u8
        ensures { result ≡ fault_status self.now }
    {
        match self {
            Fault::Usage(_) => 2,
            Fault::Output => 4,
            Fault::File { name, reason, .. } => bad_file(name, *reason).status(),
            Fault::Memory
            | Fault::Show { .. }
            | Fault::Unfit { .. }
            | Fault::Link { .. }
            | Fault::Script(_)
            | Fault::Set { .. }
            | Fault::Begin { .. }
            | Fault::Limit { .. } => 1,
        }
    }
}

impl From<AllocError> for Fault {
    ghost from_gives = { λ _ f. f ≡ fault.Memory };

    fn from(_error: AllocError) -> Self {
        Fault::Memory
    }
}

impl<T: Drop> From<AllocFailed<T>> for Fault {
    ghost from_gives = { λ _ f. f ≡ fault.Memory };

    fn from(_error: AllocFailed<T>) -> Self {
        Fault::Memory
    }
}

impl From<io::Error> for Fault {
    ghost from_gives = { λ _ f. f ≡ fault.Output };

    fn from(_error: io::Error) -> Self {
        Fault::Output
    }
}

impl fmt::Display for Fault {
    fn fmt<W: fmt::Write>(&self, f: &mut fmt::Formatter<W>) -> fmt::Result {
        match self {
            Fault::Usage(text) => f.write_str(text.as_str()),
            Fault::Memory => f.write_str("Memory"),
            Fault::File { name, reason, tail } => write!(f, "{}{tail}", bad_file(name, *reason)),
            Fault::Show { name, fault } => write_show_fault(f, name.as_str(), *fault),
            Fault::Unfit {
                wit,
                world,
                file,
                reason,
                tail,
            } => write!(f, "{}{tail}", unfit_of(wit, world, file, *reason)),
            Fault::Link { fault, count, tail } => write_link_fault(f, *fault, *count, tail),
            Fault::Script(bad) => write_bad_line(f, bad),
            Fault::Set { misuse, size } => write_set_fault(f, *misuse, *size),
            Fault::Begin { misuse, drive } => write_begin_fault(f, *misuse, *drive),
            Fault::Limit { limit, drive } => write_limit(f, *limit, *drive),
            Fault::Output => f.write_str("standard output: Write: it cannot be written"),
        }
    }
}

/// The file of this name, which is not what a command wants.
fn bad_file(name: &str, reason: FileReason) -> BadFile<'_>
    ensures { result.reason ≡ reason }
{
    BadFile { name, reason }
}

/// Why the component of a file does not fit a world of a text.
fn unfit_of<'a>(wit: &'a str, world: &'a str, file: &'a str, reason: UnfitReason) -> Unfit<'a> {
    Unfit {
        wit,
        world,
        file,
        reason,
    }
}

/// Writes the line of components that do not link: the reason, the place, and what is of the import
/// there, or how many components there are.
fn write_link_fault<W: fmt::Write>(
    f: &mut fmt::Formatter<W>,
    fault: LinkFault,
    count: usize,
    tail: &str,
) -> fmt::Result {
    let LinkFault {
        component,
        import,
        reason,
    } = fault;
    let name = reason.name();
    write!(f, "{name} in component {component}, import {import}")?;
    match reason {
        LinkReason::Empty | LinkReason::TooMany => write!(f, ": {reason}, found {count}"),
        LinkReason::Memory => write!(f, ": {reason}"),
        _ => f.write_str(tail),
    }
}

/// Writes the line of a fault. Where that fails too, there is nobody left to tell.
pub fn report<E: Write>(err: &mut E, fault: &Fault) {
    let _ = writeln!(err, "error: {fault}");
}
