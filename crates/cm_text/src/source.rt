//! Encodings that texts are read from.

ghost use Rattle.std.specs.Prelude.{◌≡◌, ℕ, ◌+◌, ◌*◌, ◌<◌, ◌≤◌, List, ◌++◌, length, OnOk, IfOk};
ghost use Rattle.std.specs.Prelude.{IfErr, IfSome, IfNone};
ghost use Rattle.std.specs.Char.{IsScalar};
ghost use Rattle.std.specs.Char.Escape.{encode_utf16};
ghost use Rattle.cm_text.specs.Text.{IsText, IsSomeText, IsTextUpTo, IsTextOfSize, IsSameText};
ghost use Rattle.cm_text.specs.Fault.{IsIllFormed, IfIllFormed};
ghost use Rattle.cm_text.specs.Utf8.{spell_utf8};
ghost use Rattle.cm_text.specs.Utf16.{spell_utf16};

use crate::TextFault;
use std::alloc::Global;

/// An encoding that texts are read from: some scalars have a spelling, which is a list of bytes,
/// and the text of a list of scalars is their spellings, one after another.
pub trait Source {
    /// The scalars that have a spelling.
    ghost has: { ℕ → Type 0 };

    /// The bytes that spell a scalar.
    ghost spell: { ℕ → List ℕ };

    /// The bytes of a unit, in which the length of a string is counted.
    ghost UNIT_SIZE: { ℕ };

    /// The alignment of a string in a memory, in bytes.
    ghost ALIGNMENT: { ℕ };

    /// The bytes of a unit, in which the length of a string is counted.
    const UNIT_SIZE: usize;

    /// The alignment of a string in a memory, in bytes.
    const ALIGNMENT: usize;

    /// The first scalar and the bytes after it; None where no scalar begins the bytes, as where
    /// there are none.
    fn split_first(bytes: &[u8]) -> Option<(char, &[u8])>
        ensures some { IfSome result (λ x. has x.0 × (bytes.now ≡ spell x.0 ++ x.1.now)) }
        ensures none { IfNone result ((c : ℕ) (rest : List ℕ) → has c → bytes.now ≡ spell c ++ rest
            → ⊥) };

    /// Whether the bytes are a text; else IllFormed at the length of the longest beginning that is
    /// one.
    fn check(bytes: &[u8]) -> Result<(), TextFault>
        ensures ok { OnOk result (IsSomeText has spell bytes.now) }
        ensures ill_formed { IfErr result (λ e. IsIllFormed e (IsTextUpTo has spell bytes.now)) };

    /// How many bytes the text takes in UTF-8; else IllFormed as `check` answers it.
    fn measure_utf8(bytes: &[u8]) -> Result<usize, TextFault>
        ensures ok { IfOk result (IsTextOfSize has spell spell_utf8 bytes.now) }
        ensures ill_formed { IfErr result (λ e. IsIllFormed e (IsTextUpTo has spell bytes.now)) };

    /// How many bytes the text takes in UTF-16; else IllFormed as `check` answers it.
    fn measure_utf16(bytes: &[u8]) -> Result<usize, TextFault>
        ensures ok { IfOk result (IsTextOfSize has spell spell_utf16 bytes.now) }
        ensures ill_formed { IfErr result (λ e. IsIllFormed e (IsTextUpTo has spell bytes.now)) };

    /// Writes a text in UTF-8 into a slice of its size there.
    fn write_utf8(bytes: &[u8], out: &mut [u8])
        requires { IsTextOfSize has spell spell_utf8 bytes.now (length out.old) }
        ensures { IsSameText has spell spell_utf8 bytes.now out.new };

    /// Writes a text in UTF-16 into a slice of its size there.
    fn write_utf16(bytes: &[u8], out: &mut [u8])
        requires { IsTextOfSize has spell spell_utf16 bytes.now (length out.old) }
        ensures { IsSameText has spell spell_utf16 bytes.now out.new };

    /// The scalars of the text, in order; else IllFormed at the length of the longest beginning
    /// that is a text, or Memory.
    final fn scalars(alloc: Global, bytes: &[u8]) -> Result<Vec<char>, TextFault>
        ensures ok { IfOk result (λ v. IsText has spell v.items bytes.now) }
        ensures ill_formed { IfErr result (λ e. IfIllFormed e (IsTextUpTo has spell bytes.now)) }
    {
        let mut out = Vec::new(alloc);
        let mut rest = bytes;
        while !rest.is_empty() {
            let Some((scalar, after)) = Self::split_first(rest) else {
                return Err(TextFault::IllFormed {
                    at: bytes.len() - rest.len(),
                });
            };
            if out.push(scalar).is_err() {
                return Err(TextFault::Memory);
            }
            rest = after;
        }
        Ok(out)
    }

    /// What has a spelling is a Unicode scalar value, so no surrogate.
    ghost only_scalars: { (c : ℕ) → has c → IsScalar c };

    /// A spelling is one or more whole units, no fewer than UTF-16 takes.
    ghost whole_units: { (c : ℕ) → has c
        → (n : ℕ) × (length (spell c) ≡ UNIT_SIZE * n) × (length (encode_utf16 c) ≤ n) };

    /// A spelling has a byte or more.
    ghost some_byte: { (c : ℕ) → has c → 0 < length (spell c) };

    /// Bytes begin with the spelling of one scalar at most.
    ghost one_spelling: { (c d : ℕ) (x y : List ℕ) → has c → has d → spell c ++ x ≡ spell d ++ y
        → c ≡ d };
}
