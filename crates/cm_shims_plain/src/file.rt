//! Component files that may have shims.

ghost use Rattle.std.specs.Prelude.{length, map};
ghost use Rattle.cm_binary_grammar.specs.Faults.{Gives};
ghost use Rattle.cm_binary_grammar.specs.Reading.{IsInside};
ghost use Rattle.cm_binary_grammar.specs.declared.fault.End.TheVariants as end;
ghost use Rattle.cm_binary_forms.specs.declared.fault.DecodeReason.TheVariants as reasons;
ghost use Rattle.cm_shims_plain.specs.File.{wide_component, wide_file};
ghost use Rattle.cm_shims_plain.specs.Trees.{wide_section_tree};

use crate::parts::WideSection;
use crate::sections::read_wide_sections;
use cm_binary_forms::DecodeReason;
use cm_binary_grammar::{Cursor, End, Fault, ReadError};
use cm_binary_model::{COMPONENT_PREAMBLE, MAX_FILE_BYTES};
use std::alloc::Global;

/// The sections of a component file that may have shims (Binary.md), whose bytes these are, all of
/// them. A fault is the first one, and is inside the bytes.
#[tactic(auto, unfolding(crate::specs::File::wide_file))]
pub fn read_wide_file(
    alloc: Global,
    bytes: &[u8],
) -> Result<Vec<WideSection>, ReadError<DecodeReason>>
    ensures read { Gives (λ v. map wide_section_tree v.items) result
        (wide_file.reads (end.Cut reasons.Truncated) bytes.now) }
    ensures inside { IsInside (length bytes.now) result }
{
    if bytes.len() <= MAX_FILE_BYTES {
        return read_unlimited_file(alloc, bytes, End::Cut(DecodeReason::Truncated));
    }
    let (front, behind) = bytes.split_at(MAX_FILE_BYTES);
    match read_unlimited_file(alloc, front, End::Cut(DecodeReason::TooLong)) {
        Ok(_) => Err(ReadError::Fault(Fault {
            left: behind.len(),
            reason: DecodeReason::TooLong,
        })),
        Err(ReadError::Fault(fault)) => Err(ReadError::Fault(Fault {
            left: fault.left + behind.len(),
            reason: fault.reason,
        })),
        Err(ReadError::Memory) => Err(ReadError::Memory),
    }
}

/// The sections of bytes that end so, however many bytes they are. A fault is inside them.
fn read_unlimited_file(
    alloc: Global,
    bytes: &[u8],
    end: End<DecodeReason>,
) -> Result<Vec<WideSection>, ReadError<DecodeReason>>
    ensures read { Gives (λ v. map wide_section_tree v.items) result
        (wide_component.reads end bytes.now) }
    ensures inside { IsInside (length bytes.now) result }
{
    read_preamble_and_sections(alloc, bytes, end)
}

/// The sections behind the preamble.
#[tactic(auto, unfolding(crate::specs::File::wide_component))]
fn read_preamble_and_sections(
    alloc: Global,
    bytes: &[u8],
    end: End<DecodeReason>,
) -> Result<Vec<WideSection>, ReadError<DecodeReason>>
    ensures { Gives (λ v. map wide_section_tree v.items) result
        (wide_component.reads end bytes.now) }
{
    let mut cursor = Cursor::new(bytes, end);
    cursor.fixed(&COMPONENT_PREAMBLE, DecodeReason::BadPreamble)?;
    read_wide_sections(alloc, cursor.rest, cursor.end)
}
