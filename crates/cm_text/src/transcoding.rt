//! Texts from one encoding into another.

ghost use Rattle.std.specs.Prelude.{◌≡◌, ℕ, ◌*◌, ◌≤◌, List, length, Err, IfOk, IfErr};
ghost use Rattle.cm_text.specs.declared.fault.TextFault.TheVariants as text_fault;
ghost use Rattle.cm_text.specs.Fault.{IsIllFormed, IfIllFormed, IsMemory};
ghost use Rattle.cm_text.specs.Text.{IsText, IsTextUpTo, IsTextOfSize, IsSameText};

use crate::{Encoding, Source, TextFault};
use std::alloc::Global;

/// The text of the same scalars in another encoding. IllFormed comes exactly where the bytes are no
/// text of `S`, at the length of the longest beginning that is one; Memory where the bytes are a
/// text and there is none for the answer.
pub fn transcode<S: Source, D: Encoding>(alloc: Global, bytes: &[u8]) -> Result<Vec<u8>, TextFault>
    ensures ok { IfOk result (λ v. (scalars : List ℕ) × IsText S.has S.spell scalars bytes.now
        × IsText D.has D.spell scalars v.items) }
    ensures ill_formed { IfErr result (λ e. IfIllFormed e (IsTextUpTo S.has S.spell bytes.now)) }
    ensures only { (scalars : List ℕ) → IsText S.has S.spell scalars bytes.now
        → IfErr result IsMemory }
    ensures exact { (at : ℕ) → IsTextUpTo S.has S.spell bytes.now at
        → result ≡ Err (text_fault.IllFormed at) }
{
    let size = match transcoded_size::<S, D>(bytes) {
        Ok(size) => size,
        Err(fault) => return Err(fault),
    };
    let mut out = match Vec::from_elem(alloc, 0u8, size) {
        Ok(out) => out,
        Err(_) => return Err(TextFault::Memory),
    };
    D::write::<S>(bytes, out.as_mut_slice());
    Ok(out)
}

/// How many bytes the text takes in another encoding, which is at most the greatest growth for each
/// of its units; takes no memory. IllFormed comes where the bytes are no text of `S`, at the length
/// of the longest beginning that is one.
pub fn transcoded_size<S: Source, D: Encoding>(bytes: &[u8]) -> Result<usize, TextFault>
    ensures ok { IfOk result (IsTextOfSize S.has S.spell D.spell bytes.now) }
    ensures growth { IfOk result (λ size.
        S.UNIT_SIZE * size ≤ D.GREATEST_GROWTH * length bytes.now) }
    ensures ill_formed { IfErr result (λ e. IsIllFormed e (IsTextUpTo S.has S.spell bytes.now)) }
{
    D::measure::<S>(bytes)
}

/// Writes the text in another encoding into a slice of its size there, as `transcoded_size` answers
/// it; takes no memory.
pub fn transcode_into<S: Source, D: Encoding>(bytes: &[u8], out: &mut [u8])
    requires { IsTextOfSize S.has S.spell D.spell bytes.now (length out.old) }
    ensures { IsSameText S.has S.spell D.spell bytes.now out.new }
{
    D::write::<S>(bytes, out);
}
