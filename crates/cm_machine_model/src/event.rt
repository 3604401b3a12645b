//! What a move leads to.

ghost use Rattle.std.specs.Prelude.{◌≡◌};

use crate::flat::Flat;
use cm_types::CoreValue;
use std::fmt;
use thiserror::Error;

/// What the machine answers to a move. Instances, functions and indices count from 0.
#[derive(Clone, Debug, Drop, PartialEq)]
pub enum Event {
    /// The bytes are written.
    Done,
    /// The memory has grown: its pages before, or `None` where more than `MAX_PAGES` would
    /// result and nothing changed.
    Grown(Option<u32>),
    /// The body of this core function of this instance begins, with these arguments.
    Enter {
        instance: u32,
        func: u32,
        args: Flat,
    },
    /// This core function of this instance, the allocator of the call, is called with these
    /// arguments.
    Realloc {
        instance: u32,
        func: u32,
        args: Flat,
    },
    /// This instance goes on where it called, with these values.
    Resume {
        instance: u32,
        values: Flat,
    },
    /// The call's results have been taken over: this core function of this instance may tidy up,
    /// and gets the core values that the call returned.
    PostReturn {
        instance: u32,
        func: u32,
        args: Flat,
    },
    /// This core function of this instance, the destructor of a dropped resource, begins with its
    /// representation.
    Dtor {
        instance: u32,
        func: u32,
        rep: u32,
    },
    /// The stack is emptied, and the instances on it are closed.
    Trapped(Trap),
    /// The root has returned: the stack is empty.
    Ended,
}

impl Event {
    ghost use Rattle.cm_machine_model.specs.Events.{is_last, values_in};

    /// Whether a run stops after this event: the stack is empty then.
    pub fn is_last(&self) -> bool
        ensures { result ≡ is_last self.now }
    {
        matches!(self, Event::Ended | Event::Trapped(_))
    }

    /// The core values that the event hands to the instance that acts next: arguments, results, or
    /// the representation for a destructor; none for the other events. Takes no memory.
    pub fn values(&self) -> Flat
        ensures { result ≡ values_in self.now }
    {
        match self {
            Event::Enter { args, .. }
            | Event::Realloc { args, .. }
            | Event::PostReturn { args, .. } => args.copied(),
            Event::Resume { values, .. } => values.copied(),
            Event::Dtor { rep, .. } => Flat::one(CoreValue::I32(*rep)),
            Event::Done | Event::Grown(_) | Event::Trapped(_) | Event::Ended => Flat::new(),
        }
    }
}

/// The line that `component_tool play` prints, and behind the number of a trap its name and what it
/// means.
impl fmt::Display for Event {
    fn fmt<W: fmt::Write>(&self, f: &mut fmt::Formatter<W>) -> fmt::Result {
        match self {
            Event::Done => f.write_str("done"),
            Event::Grown(Some(pages)) => write!(f, "grown {pages}"),
            Event::Grown(None) => f.write_str("grown none"),
            Event::Enter {
                instance,
                func,
                args,
            } => write!(f, "enter {instance} {func}{args}"),
            Event::Realloc {
                instance,
                func,
                args,
            } => {
                write!(f, "realloc {instance} {func}")?;
                write_numbers(f, args.as_slice())
            }
            Event::Resume { instance, values } => write!(f, "resume {instance}{values}"),
            Event::PostReturn {
                instance,
                func,
                args,
            } => write!(f, "postreturn {instance} {func}{args}"),
            Event::Dtor {
                instance,
                func,
                rep,
            } => write!(f, "dtor {instance} {func} {rep}"),
            Event::Trapped(trap) => {
                let number = trap.number();
                write!(f, "trapped {number}: {trap:?}, {trap}")
            }
            Event::Ended => f.write_str("ended"),
        }
    }
}

/// Writes core values without their kinds, each after a space.
fn write_numbers<W: fmt::Write>(f: &mut fmt::Formatter<W>, values: &[CoreValue]) -> fmt::Result {
    for value in values {
        match value {
            CoreValue::I32(number) => write!(f, " {number}")?,
            CoreValue::I64(number) => write!(f, " {number}")?,
        }
    }
    Ok(())
}

/// Why a move was refused.
#[derive(Clone, Copy, Debug, PartialEq, Eq)]
pub enum Trap {
    /// A function got or gave other core values than its type has.
    CoreShape = 1,
    /// The guest stopped.
    Unreachable,
    /// A guest's own write passes the end of its memory.
    GuestBounds,
    /// A pointer, with what it points to, passes the end of a memory.
    PointerBounds,
    /// A pointer is not a multiple of its alignment.
    Misaligned,
    /// A number that is no Unicode scalar stands for a char.
    BadChar,
    /// A discriminant is not below the number of cases.
    BadCase,
    /// The bytes of a string are not text of its encoding.
    BadText,
    /// The strings and lists in one direction of a call hold more than 16,777,216 bytes.
    TooLarge,
    /// No handle stands at an index.
    NoHandle,
    /// The handle at an index is of another resource.
    WrongResource,
    /// The handle is lent to a call that has not returned.
    StillLent,
    /// The handle is borrowed, and an owned one was wanted.
    NotOwned,
    /// The handle table is full, or no serial number is left.
    TableFull,
    /// A call returned before it dropped the handles that it had borrowed.
    BorrowsLeft,
    /// The instance may not call out now.
    MayNotLeave,
    /// Two regions that the allocator answered overlap.
    Overlap,
    /// `MAX_FRAMES` frames stand on the stack already.
    StackFull,
    /// No canonical function has this index.
    UnknownFunction,
    /// The machine itself found no memory.
    EngineMemory,
    /// The called instance is closed.
    CalleeClosed,
}

impl Trap {
    ghost use Rattle.cm_machine_model.specs.Numbers.{trap_number};

    /// The number by which the trap is known, from 1 for `CoreShape` to 21 for `CalleeClosed`.
    pub fn number(self) -> u8
        ensures { result ≡ trap_number self }
    {
        self as u8
    }

    /// What was wrong, in a few words.
    fn text(self) -> &'static str {
        match self {
            Trap::CoreShape => "core values of another shape than the type of the function",
            Trap::Unreachable => "the guest stopped",
            Trap::GuestBounds => "a write past the end of the memory",
            Trap::PointerBounds => "a pointer past the end of the memory",
            Trap::Misaligned => "a pointer that is not aligned",
            Trap::BadChar => "a char that is no Unicode scalar",
            Trap::BadCase => "a discriminant past the last case",
            Trap::BadText => "a string that is no text of its encoding",
            Trap::TooLarge => "strings and lists that are too large",
            Trap::NoHandle => "no handle at the index",
            Trap::WrongResource => "a handle of another resource",
            Trap::StillLent => "a handle that is still lent",
            Trap::NotOwned => "a handle that is not owned",
            Trap::TableFull => "a handle table that is full",
            Trap::BorrowsLeft => "a return with borrowed handles left",
            Trap::MayNotLeave => "a call by an instance that may not leave",
            Trap::Overlap => "regions that overlap",
            Trap::StackFull => "a stack that is full",
            Trap::UnknownFunction => "a function that is not known",
            Trap::EngineMemory => "no memory for the machine",
            Trap::CalleeClosed => "a call of a closed instance",
        }
    }
}

impl fmt::Display for Trap {
    fn fmt<W: fmt::Write>(&self, f: &mut fmt::Formatter<W>) -> fmt::Result {
        f.write_str(self.text())
    }
}

/// Why a call of the machine itself was refused.
#[derive(Clone, Copy, Debug, PartialEq, Eq, Error)]
pub enum Misuse {
    /// No frame stands on the stack, so no instance acts.
    #[error("misuse 1: no instance acts")]
    Idle = 1,
    /// A frame stands on the stack already.
    #[error("misuse 2: a call is on the stack")]
    Busy,
    /// The instance is closed.
    #[error("misuse 3: the instance is closed")]
    Closed,
    /// There is no instance with this number.
    #[error("misuse 4: there is no such instance")]
    NoInstance,
    /// Not one number of pages for each component, or a number above `MAX_PAGES`.
    #[error("misuse 5: wrong numbers of pages")]
    BadPages,
    /// No memory for the set or for the list of events.
    #[error("misuse 6: out of memory")]
    Memory,
}

impl Misuse {
    ghost use Rattle.cm_machine_model.specs.Numbers.{misuse_number};

    /// The number by which the misuse is known, from 1 for `Idle` to 6 for `Memory`.
    pub fn number(self) -> u8
        ensures { result ≡ misuse_number self }
    {
        self as u8
    }
}
