//! Parts of the bytes that a caller hands over.

ghost use Rattle.std.specs.Prelude.{◌≡◌, ◌≤◌, ◌+◌, ◌↔◌, IfOk, IfSome, IsErrOf, IsSome, OnOk};
ghost use Rattle.std.specs.Prelude.{length, map};
ghost use Rattle.huxarte_c_calls.specs.Spans.{AreWithin, part_of, parts_of};
ghost use Rattle.huxarte_c_calls.specs.declared.spans.PartsFault.TheVariants as fault;

use std::alloc::Global;

/// A part of the bytes that are handed over with it: where it begins, from 0, and how many bytes it
/// has.
#[repr(C)]
#[derive(Clone, Copy)]
pub struct HuxSpan {
    pub at: usize,
    pub length: usize,
}

/// The bytes of a part, none where it passes the end.
pub fn part<'a>(bytes: &'a [u8], span: &HuxSpan) -> Option<&'a [u8]>
    ensures within { IsSome result ↔ (span.now.at + span.now.length ≤ length bytes.now) }
    ensures found { IfSome result (λ p. p.now ≡ part_of bytes.now span.now) }
{
    let rest = bytes.get(span.at..)?;
    rest.get(..span.length)
}

/// Why parts are not there.
#[derive(Clone, Copy)]
pub enum PartsFault {
    /// A part passes the end of the bytes.
    Outside,
    /// There was no memory.
    Memory,
}

/// The parts of the bytes, in order.
pub fn parts<'a>(
    alloc: Global,
    bytes: &'a [u8],
    spans: &[HuxSpan],
) -> Result<Vec<&'a [u8]>, PartsFault>
    ensures parts { IfOk result (λ ps.
        map (λ p. p.now) ps.items ≡ parts_of bytes.now spans.now) }
    ensures within { OnOk result (AreWithin bytes.now spans.now) }
    ensures outside { IsErrOf result fault.Outside → AreWithin bytes.now spans.now → ⊥ }
{
    let mut found = Vec::new(alloc);
    for span in spans {
        match part(bytes, span) {
            Some(part) => found.push(part).map_err(|_| PartsFault::Memory)?,
            None => return Err(PartsFault::Outside),
        }
    }
    Ok(found)
}
