//! Sections of files that may have shims, and all of them.

ghost use Rattle.std.specs.Prelude.{◌≡◌, Ok, length, map};
ghost use Rattle.cm_binary_grammar.specs.Faults.{Gives};
ghost use Rattle.cm_binary_grammar.specs.Whole.{of_size};
ghost use Rattle.cm_binary_grammar.specs.Reading.{Reads, ReadsAll, IsInside};
ghost use Rattle.cm_binary_forms.specs.declared.fault.DecodeReason.TheVariants as reasons;
ghost use Rattle.cm_shims_plain.specs.Sections.{wide_contents, wide_room_after, wide_section};
ghost use Rattle.cm_shims_plain.specs.Sections.{wide_section_of, wide_sections};
ghost use Rattle.cm_shims_plain.specs.Trees.{wide_section_tree};

use crate::codes::{WideKind, wide_kind};
use crate::items::read_index;
use crate::parts::{Shim, WideSection};
use crate::shims::{read_items, read_shim, room_after_shim};
use cm_binary_forms::{DecodeReason, read_section, room_after};
use cm_binary_grammar::{Cursor, End, ReadError};
use cm_binary_model::MAX_TYPES;
use std::alloc::Global;

/// Reads the contents of a section that has more forms where there may be shims, where `room` more
/// types may stand in the file.
#[tactic(auto, unfolding(crate::specs::Sections::wide_contents))]
fn read_wide_contents(
    alloc: Global,
    part: &mut Cursor<'_, DecodeReason>,
    size: u32,
    room: usize,
    kind: WideKind,
) -> Result<WideSection, ReadError<DecodeReason>>
    ensures { ReadsAll (wide_contents size room kind) wide_section_tree part.old result }
{
    match kind {
        WideKind::Shim => {
            let sections = read_shim(alloc, part, room)?;
            Ok(WideSection::Shim(Shim { size, sections }))
        }
        WideKind::Instances => Ok(WideSection::Instances(read_items(alloc, part)?)),
        WideKind::Imports => Ok(WideSection::Imports(read_items(alloc, part)?)),
    }
}

/// Reads bytes that end so as the contents of such a section. A fault is inside them.
fn read_wide_contents_inside(
    alloc: Global,
    bytes: &[u8],
    end: End<DecodeReason>,
    size: u32,
    room: usize,
    kind: WideKind,
) -> Result<WideSection, ReadError<DecodeReason>>
    ensures read { Gives wide_section_tree result
        ((wide_contents size room kind).reads end bytes.now) }
    ensures inside { IsInside (length bytes.now) result }
{
    read_wide_contents(alloc, &mut Cursor::new(bytes, end), size, room, kind)
}

/// Reads a part of so many bytes as the contents of such a section.
fn read_wide_contents_of_size(
    alloc: Global,
    bytes: &mut Cursor<'_, DecodeReason>,
    room: usize,
    kind: WideKind,
    size: u32,
) -> Result<WideSection, ReadError<DecodeReason>>
    ensures read { Reads (of_size reasons.SizeMismatch size (wide_contents size room kind))
        wide_section_tree bytes.old bytes.new result }
    ensures end { bytes.new.end ≡ bytes.old.end }
{
    let part = bytes.part(size, DecodeReason::SizeMismatch);
    let outcome = read_wide_contents_inside(alloc, part.rest, part.end, size, room, kind);
    bytes.leave(size, outcome)
}

/// Reads a section of such a kind, or else one as in a file without shims.
#[tactic(auto, unfolding(crate::specs::Sections::wide_section_of))]
fn read_wide_section_of(
    alloc: Global,
    bytes: &mut Cursor<'_, DecodeReason>,
    room: usize,
    kind: Option<WideKind>,
) -> Result<WideSection, ReadError<DecodeReason>>
    ensures read { Reads (wide_section_of room kind) wide_section_tree
        bytes.old bytes.new result }
    ensures end { bytes.new.end ≡ bytes.old.end }
{
    match kind {
        Some(kind) => {
            bytes.raw(1)?;
            let size = read_index(bytes)?;
            read_wide_contents_of_size(alloc, bytes, room, kind, size)
        }
        None => Ok(WideSection::Plain(read_section(alloc, bytes, room)?)),
    }
}

/// Reads a section, where `room` more types may stand in the file.
#[tactic(auto, unfolding(crate::specs::Sections::wide_section))]
fn read_wide_section(
    alloc: Global,
    bytes: &mut Cursor<'_, DecodeReason>,
    room: usize,
) -> Result<WideSection, ReadError<DecodeReason>>
    ensures read { Reads (wide_section room) wide_section_tree bytes.old bytes.new result }
    ensures end { bytes.new.end ≡ bytes.old.end }
{
    match bytes.rest {
        [] => Err(bytes.want()),
        [id, ..] => {
            let kind = wide_kind(*id);
            read_wide_section_of(alloc, bytes, room, kind)
        }
    }
}

/// How many of `room` types more may stand in the file behind the section.
pub fn wide_room_after(room: usize, section: &WideSection) -> usize
    ensures { result ≡ wide_room_after room (wide_section_tree section.now) }
{
    match section {
        WideSection::Plain(section) => room_after(room, section),
        WideSection::Shim(shim) => room_after_shim(room, &shim.sections),
        WideSection::Instances(_) | WideSection::Imports(_) => room,
    }
}

/// Reads sections to the end of the bytes, which end so.
pub(crate) fn read_wide_sections(
    alloc: Global,
    bytes: &[u8],
    end: End<DecodeReason>,
) -> Result<Vec<WideSection>, ReadError<DecodeReason>>
    ensures { Gives (λ v. map wide_section_tree v.items) result
        ((wide_sections MAX_TYPES).reads end bytes.now) }
{
    let mut sections = Vec::new(alloc);
    let mut room = MAX_TYPES;
    let mut cursor = Cursor::new(bytes, end);
    while !cursor.rest.is_empty() {
        let section = read_wide_section(alloc, &mut cursor, room)?;
        room = wide_room_after(room, &section);
        sections.push(section)?;
    }
    Ok(sections)
}
