//! Indices, counts and sizes.

ghost use Rattle.std.specs.Prelude.{◌≡◌};
ghost use Rattle.cm_binary_grammar.specs.Reading.{Reads};
ghost use Rattle.cm_binary_forms.specs.Texts.{index};

use crate::fault::DecodeReason;
use cm_binary_grammar::{Cursor, ReadError};

/// Reads an index, a count or a size: a number of 32 bits (Binary.md, `u32`).
#[inline(always)]
pub(crate) fn read_index(
    bytes: &mut Cursor<'_, DecodeReason>,
) -> Result<u32, ReadError<DecodeReason>>
    ensures read { Reads index (λ x. x) bytes.old bytes.new result }
    ensures end { bytes.new.end ≡ bytes.old.end }
{
    bytes.number(DecodeReason::BadNumber)
}
