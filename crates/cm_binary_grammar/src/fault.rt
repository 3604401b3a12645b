//! What is wrong with bytes, and where.

ghost use Rattle.std.specs.Prelude.{◌≡◌};
ghost use Rattle.cm_binary_grammar.specs.declared.fault.ReadError.TheVariants.{Memory};

use std::alloc::{AllocError, AllocFailed};

/// A fault in bytes: its reason, and how many bytes stand between its place and the end of the
/// bytes.
#[derive(Clone, Copy, Debug, PartialEq, Eq)]
pub struct Fault<R> {
    pub left: usize,
    pub reason: R,
}

/// How bytes end, with the reason for want of a byte there.
#[derive(Clone, Copy)]
pub enum End<R> {
    /// The bytes are all of a section: more were never to come.
    Whole(R),
    /// The input ends here, before what it is a part of does.
    Cut(R),
}

/// Why nothing was read.
#[derive(Clone, Copy, Debug, PartialEq, Eq)]
pub enum ReadError<R> {
    /// Memory was refused.
    Memory,
    Fault(Fault<R>),
}

impl<R> From<AllocError> for ReadError<R> {
    ghost from_gives = { λ _ e. e ≡ Memory };

    fn from(_e: AllocError) -> ReadError<R> {
        ReadError::Memory
    }
}

impl<R, T: Drop> From<AllocFailed<T>> for ReadError<R> {
    ghost from_gives = { λ _ e. e ≡ Memory };

    fn from(_e: AllocFailed<T>) -> ReadError<R> {
        ReadError::Memory
    }
}
