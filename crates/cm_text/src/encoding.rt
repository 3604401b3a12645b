//! Encodings that texts are written in.

ghost use Rattle.std.specs.Prelude.{◌≡◌, ℕ, ◌+◌, ◌*◌, ◌<◌, ◌≤◌, ◌++◌, length, OnOk, OnErr, IfOk};
ghost use Rattle.std.specs.Prelude.{IfErr};
ghost use Rattle.std.specs.Char.{IsScalar};
ghost use Rattle.std.specs.Char.Escape.{encode_utf16};
ghost use Rattle.cm_text.specs.Text.{IsTextUpTo, IsTextOfSize, IsSameText};
ghost use Rattle.cm_text.specs.Fault.{IsIllFormed};

use crate::{Source, TextFault};
use std::alloc::AllocError;

/// An encoding that texts are written in: each Unicode scalar value has a spelling.
pub trait Encoding: Source {
    /// The most bytes that a text takes in this encoding for each unit that it has in another.
    ghost GREATEST_GROWTH: { ℕ };

    /// The most bytes that a text takes in this encoding for each unit that it has in another.
    const GREATEST_GROWTH: usize;

    /// Appends the spelling of a scalar; where there is no memory, the bytes stay as they were.
    fn append(out: &mut Vec<u8>, scalar: char) -> Result<(), AllocError>
        ensures ok { OnOk result (out.new.items ≡ out.old.items ++ Self.spell scalar) }
        ensures err { OnErr result (out.new.items ≡ out.old.items) };

    /// How many bytes a text of `S` takes in this encoding; else IllFormed as the check of `S`
    /// answers it.
    fn measure<S: Source>(bytes: &[u8]) -> Result<usize, TextFault>
        ensures ok { IfOk result (IsTextOfSize S.has S.spell Self.spell bytes.now) }
        ensures ill_formed { IfErr result (λ e.
            IsIllFormed e (IsTextUpTo S.has S.spell bytes.now)) };

    /// Writes a text of `S` in this encoding into a slice of its size here.
    fn write<S: Source>(bytes: &[u8], out: &mut [u8])
        requires { IsTextOfSize S.has S.spell Self.spell bytes.now (length out.old) }
        ensures { IsSameText S.has S.spell Self.spell bytes.now out.new };

    /// Each scalar has a spelling.
    ghost every: { (c : ℕ) → IsScalar c → Self.has c };

    /// A spelling takes no more bytes than the greatest growth of its units in UTF-16, than which
    /// no encoding has fewer.
    ghost grows: { (c : ℕ) → IsScalar c
        → length (Self.spell c) ≤ GREATEST_GROWTH * length (encode_utf16 c) };
}
