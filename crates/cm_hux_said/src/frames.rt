//! The calls that have not returned.

/// How far a call is.
#[derive(Clone, Copy, PartialEq, Eq)]
pub(crate) enum Phase {
    /// The callee's allocator makes room for the arguments.
    Arguments,
    /// The callee's function, or a destructor, runs.
    Body,
    /// The caller's allocator makes room for the result.
    Results,
    /// The callee tidies up.
    PostReturn,
}

/// A call of a core function of an instance that called another.
#[derive(Clone, Copy)]
pub(crate) struct Open {
    pub(crate) caller: u32,
    /// The core function of the caller.
    pub(crate) func: u32,
    pub(crate) phase: Phase,
}

/// The kind of a move, with what a trap of it is written with.
#[derive(Clone, Copy)]
pub(crate) enum Made {
    Call { func: u32 },
    Return,
    Write { at: u32 },
    Grow { pages: u32 },
    Unreachable,
}
