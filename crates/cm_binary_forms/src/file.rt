//! Component files.

ghost use Rattle.std.specs.Prelude.{length, map};
ghost use Rattle.cm_binary_grammar.specs.Faults.{Gives};
ghost use Rattle.cm_binary_grammar.specs.Reading.{IsInside};
ghost use Rattle.cm_binary_grammar.specs.declared.fault.End.TheVariants as end;
ghost use Rattle.cm_binary_model.specs.Trees.{section_tree};
ghost use Rattle.cm_binary_forms.specs.declared.fault.DecodeReason.TheVariants as reasons;
ghost use Rattle.cm_binary_forms.specs.File.{component, file};

use crate::DecodeReason;
use crate::sections::read_sections;
use cm_binary_grammar::{Cursor, End, Fault, ReadError};
use cm_binary_model::{COMPONENT_PREAMBLE, MAX_FILE_BYTES, Section};
use std::alloc::Global;

/// The sections of a component file (Binary.md), whose bytes these are, all of them. A fault is the
/// first one, and is inside the bytes.
#[tactic(auto, unfolding(crate::specs::File::file))]
pub fn read_file(alloc: Global, bytes: &[u8]) -> Result<Vec<Section>, ReadError<DecodeReason>>
    ensures read { Gives (λ v. map section_tree v.items) result
        (file.reads (end.Cut reasons.Truncated) bytes.now) }
    ensures inside { IsInside (length bytes.now) result }
{
    if bytes.len() <= MAX_FILE_BYTES {
        return read_unlimited_file(alloc, bytes, End::Cut(DecodeReason::Truncated));
    }
    let (front, behind) = bytes.split_at(MAX_FILE_BYTES);
    match read_unlimited_file(alloc, front, End::Cut(DecodeReason::TooLong)) {
        Ok(_) => Err(ReadError::Fault(Fault {
            left: behind.len(),
            reason: DecodeReason::TooLong,
        })),
        Err(ReadError::Fault(fault)) => Err(ReadError::Fault(Fault {
            left: fault.left + behind.len(),
            reason: fault.reason,
        })),
        Err(ReadError::Memory) => Err(ReadError::Memory),
    }
}

/// The sections of bytes that end so, however many bytes they are. A fault is inside them.
fn read_unlimited_file(
    alloc: Global,
    bytes: &[u8],
    end: End<DecodeReason>,
) -> Result<Vec<Section>, ReadError<DecodeReason>>
    ensures read { Gives (λ v. map section_tree v.items) result (component.reads end bytes.now) }
    ensures inside { IsInside (length bytes.now) result }
{
    read_preamble_and_sections(alloc, bytes, end)
}

/// The sections behind the preamble.
#[tactic(auto, unfolding(crate::specs::File::component))]
fn read_preamble_and_sections(
    alloc: Global,
    bytes: &[u8],
    end: End<DecodeReason>,
) -> Result<Vec<Section>, ReadError<DecodeReason>>
    ensures { Gives (λ v. map section_tree v.items) result (component.reads end bytes.now) }
{
    let mut cursor = Cursor::new(bytes, end);
    cursor.fixed(&COMPONENT_PREAMBLE, DecodeReason::BadPreamble)?;
    read_sections(alloc, cursor.rest, cursor.end)
}
