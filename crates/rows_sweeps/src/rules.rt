//! What a plain interpreter of the machine's rules knows of a set, and what it keeps.

use cm_machine::Trap;
use std::alloc::{AllocError, AllocFailed, Global};

/// What passes: a number, a string, or a handle of the one resource that there is.
#[derive(Clone, Copy, PartialEq)]
pub enum Kind {
    Number,
    Text,
    Owned,
    Borrowed,
}

#[derive(Clone, Copy, PartialEq)]
pub enum Encoding {
    Utf8,
    Utf16,
}

/// How one side of a call passes strings.
#[derive(Clone, Copy)]
pub struct Side {
    pub encoding: Encoding,
    pub realloc: u32,
}

/// A lowered function, of at most one parameter.
#[derive(Clone, Copy)]
pub struct Link {
    pub callee: u32,
    pub func: u32,
    pub param: Option<Kind>,
    pub result: Option<Kind>,
    pub lower: Side,
    pub lift: Side,
    pub post_return: Option<u32>,
}

/// What a core function is.
#[derive(Clone, Copy)]
pub enum Core {
    Guest,
    Lowered(Link),
    New,
    Drop { destructor: Option<u32> },
    Rep,
}

#[derive(Clone, Copy, PartialEq)]
pub enum Phase {
    Arguments,
    Body,
    Results,
    PostReturn,
}

/// A call that has not returned: where the caller wants a result in memory, and which of its
/// handles is lent.
#[derive(Clone, Copy)]
pub struct Call {
    pub caller: u32,
    pub link: Link,
    pub phase: Phase,
    pub pointer: u32,
    pub lent: Option<u32>,
}

#[derive(Clone, Copy)]
pub enum Purpose {
    Root,
    Call(Call),
    Destructor { dropper: u32 },
}

#[derive(Clone, Copy)]
pub struct Frame {
    pub instance: u32,
    pub purpose: Purpose,
}

/// A handle: its resource's serial number and representation, how often it is lent, and the frame
/// of the call that borrowed it, if it is borrowed.
#[derive(Clone, Copy)]
pub struct Handle {
    pub serial: usize,
    pub rep: u32,
    pub lends: u32,
    pub borrower: Option<usize>,
}

/// Where a resource is.
#[derive(Clone, Copy)]
pub enum Where {
    InTable { instance: u32, index: u32 },
    /// On its way in the call whose frame has this place on the stack.
    Travelling { frame: u32 },
    Abandoned,
    Dropped,
}

/// A request for memory; a chained one gives back what the one before it got.
#[derive(Clone, Copy)]
pub struct Asked {
    pub chained: bool,
    pub old_size: u32,
    pub align: u32,
    pub size: u32,
}

/// An instance: its memory, its handles by index (the first one is never used), the freed indices
/// (the last one is used first), and its core functions.
#[derive(Drop)]
pub struct Instance {
    pub memory: Vec<u8>,
    pub handles: Vec<Option<Handle>>,
    pub freed: Vec<u32>,
    pub closed: bool,
    pub core: Vec<Core>,
}

/// A count as 32 bits have it, or the most that they can have.
pub fn small(count: usize) -> u32 {
    u32::try_from(count).unwrap_or(u32::MAX)
}

/// A value on its way.
#[derive(Drop)]
pub enum Item {
    Nothing,
    Number(u32),
    /// The scalars of a string.
    Text(Vec<u32>),
    Owned { serial: usize, rep: u32 },
    Borrowed { serial: usize, rep: u32 },
}

/// Why a move goes no further.
#[derive(Clone, Copy)]
pub enum Stop {
    Trap(Trap),
    /// No memory for the interpreter.
    Memory,
    /// What the row tells of the set is not so.
    Untrue,
}

impl From<AllocError> for Stop {
    fn from(_error: AllocError) -> Stop {
        Stop::Memory
    }
}

impl<T: Drop> From<AllocFailed<T>> for Stop {
    fn from(_error: AllocFailed<T>) -> Stop {
        Stop::Memory
    }
}

/// The instance that defines the resource.
pub const DEFINER: u32 = 0;

/// The state of a set.
#[derive(Drop)]
pub struct Plain {
    pub alloc: Global,
    pub instances: Vec<Instance>,
    pub frames: Vec<Frame>,
    /// Where each resource is, by serial number.
    pub places: Vec<Where>,
    pub item: Item,
    pub asked: Vec<Asked>,
    pub answered: usize,
    pub last: u32,
    /// The core values that the topmost body returned.
    pub returned: Vec<u32>,
    /// The core value that the caller goes on with.
    pub result: Option<u32>,
}
