//! Shims.

ghost use Rattle.std.specs.Prelude.{◌≡◌, Ok, length, map};
ghost use Rattle.cm_binary_grammar.specs.Faults.{Gives};
ghost use Rattle.cm_binary_grammar.specs.Whole.{exactly, of_size, state_after};
ghost use Rattle.cm_binary_grammar.specs.Reading.{Reads, ReadsAll, IsInside};
ghost use Rattle.cm_binary_forms.specs.declared.fault.DecodeReason.TheVariants as reasons;
ghost use Rattle.cm_binary_forms.specs.Texts.{vector};
ghost use Rattle.cm_shims_plain.specs.Shims.{shim, shim_contents, shim_room_after};
ghost use Rattle.cm_shims_plain.specs.Shims.{shim_section, shim_section_of, shim_sections};
ghost use Rattle.cm_shims_plain.specs.Trees.{shim_section_tree};

use crate::codes::{ShimItems, ShimKind, no_shim_section, shim_kind};
use crate::items::{Wide, read_index};
use crate::parts::ShimSection;
use cm_binary_forms::{DecodeReason, read_section, room_after};
use cm_binary_grammar::{Cursor, End, Form, ReadError, read_vec};
use cm_binary_model::COMPONENT_PREAMBLE;
use std::alloc::Global;

/// Reads all of a part as a count, and so many items.
#[tactic(auto, using(cm_binary_grammar::proofs::WholeLaws::ends_fails))]
pub(crate) fn read_items<T: Form<DecodeReason, Wide>>(
    alloc: Global,
    part: &mut Cursor<'_, DecodeReason>,
) -> Result<Vec<T>, ReadError<DecodeReason>>
    ensures { ReadsAll (exactly reasons.SizeMismatch (vector T.grammar)) (λ v. map T.tree v.items)
        part.old result }
{
    let items = read_vec::<_, Wide, _>(alloc, part, DecodeReason::BadNumber)?;
    part.finish(DecodeReason::SizeMismatch)?;
    Ok(items)
}

/// Reads the contents of a section of a shim.
#[tactic(auto, unfolding(crate::specs::Shims::shim_contents))]
fn read_shim_contents(
    alloc: Global,
    part: &mut Cursor<'_, DecodeReason>,
    items: ShimItems,
) -> Result<ShimSection, ReadError<DecodeReason>>
    ensures { ReadsAll (shim_contents items) shim_section_tree part.old result }
{
    match items {
        ShimItems::Imports => Ok(ShimSection::Imports(read_items(alloc, part)?)),
        ShimItems::Exports => Ok(ShimSection::Exports(read_items(alloc, part)?)),
    }
}

/// Reads bytes that end so as the contents of a section of a shim. A fault is inside them.
fn read_shim_contents_inside(
    alloc: Global,
    bytes: &[u8],
    end: End<DecodeReason>,
    items: ShimItems,
) -> Result<ShimSection, ReadError<DecodeReason>>
    ensures read { Gives shim_section_tree result ((shim_contents items).reads end bytes.now) }
    ensures inside { IsInside (length bytes.now) result }
{
    read_shim_contents(alloc, &mut Cursor::new(bytes, end), items)
}

/// Reads a part of so many bytes as the contents of a section of a shim.
fn read_shim_contents_of_size(
    alloc: Global,
    bytes: &mut Cursor<'_, DecodeReason>,
    items: ShimItems,
    size: u32,
) -> Result<ShimSection, ReadError<DecodeReason>>
    ensures read { Reads (of_size reasons.SizeMismatch size (shim_contents items))
        shim_section_tree bytes.old bytes.new result }
    ensures end { bytes.new.end ≡ bytes.old.end }
{
    let part = bytes.part(size, DecodeReason::SizeMismatch);
    let outcome = read_shim_contents_inside(alloc, part.rest, part.end, items);
    bytes.leave(size, outcome)
}

/// Reads a section of a shim by what it holds, where `room` more types may stand in the file.
#[tactic(auto, unfolding(crate::specs::Shims::shim_section_of))]
fn read_shim_section_of(
    alloc: Global,
    bytes: &mut Cursor<'_, DecodeReason>,
    room: usize,
    kind: ShimKind,
) -> Result<ShimSection, ReadError<DecodeReason>>
    ensures read { Reads (shim_section_of room kind) shim_section_tree
        bytes.old bytes.new result }
    ensures end { bytes.new.end ≡ bytes.old.end }
{
    match kind {
        ShimKind::Shared => Ok(ShimSection::Shared(read_section(alloc, bytes, room)?)),
        ShimKind::Items(items) => {
            bytes.raw(1)?;
            let size = read_index(bytes)?;
            read_shim_contents_of_size(alloc, bytes, items, size)
        }
        ShimKind::Other => match bytes.rest {
            [] => Err(bytes.want()),
            [id, ..] => Err(bytes.fault(no_shim_section(*id))),
        },
    }
}

/// Reads a section of a shim, where `room` more types may stand in the file.
#[tactic(auto, unfolding(crate::specs::Shims::shim_section))]
fn read_shim_section(
    alloc: Global,
    bytes: &mut Cursor<'_, DecodeReason>,
    room: usize,
) -> Result<ShimSection, ReadError<DecodeReason>>
    ensures read { Reads (shim_section room) shim_section_tree bytes.old bytes.new result }
    ensures end { bytes.new.end ≡ bytes.old.end }
{
    match bytes.rest {
        [] => Err(bytes.want()),
        [id, ..] => {
            let kind = shim_kind(*id);
            read_shim_section_of(alloc, bytes, room, kind)
        }
    }
}

/// How many of `room` types more may stand in the file behind the section of a shim.
pub fn shim_room_after(room: usize, section: &ShimSection) -> usize
    ensures { result ≡ shim_room_after room (shim_section_tree section.now) }
{
    match section {
        ShimSection::Shared(section) => room_after(room, section),
        _ => room,
    }
}

/// How many of `room` types more may stand in the file behind a shim with these sections.
pub(crate) fn room_after_shim(room: usize, sections: &[ShimSection]) -> usize
    ensures { result ≡ state_after shim_room_after room (map shim_section_tree sections.now) }
{
    let mut room = room;
    for section in sections {
        room = shim_room_after(room, section);
    }
    room
}

/// Reads sections of a shim to the end of the bytes, which end so.
fn read_shim_sections(
    alloc: Global,
    bytes: &[u8],
    end: End<DecodeReason>,
    room: usize,
) -> Result<Vec<ShimSection>, ReadError<DecodeReason>>
    ensures { Gives (λ v. map shim_section_tree v.items) result
        ((shim_sections room).reads end bytes.now) }
{
    let mut sections = Vec::new(alloc);
    let mut left = room;
    let mut cursor = Cursor::new(bytes, end);
    while !cursor.rest.is_empty() {
        let section = read_shim_section(alloc, &mut cursor, left)?;
        left = shim_room_after(left, &section);
        sections.push(section)?;
    }
    Ok(sections)
}

/// Reads all of a part as a shim, where `room` more types may stand in the file.
#[tactic(auto, unfolding(crate::specs::Shims::shim))]
pub(crate) fn read_shim(
    alloc: Global,
    part: &mut Cursor<'_, DecodeReason>,
    room: usize,
) -> Result<Vec<ShimSection>, ReadError<DecodeReason>>
    ensures { ReadsAll (shim room) (λ v. map shim_section_tree v.items) part.old result }
{
    part.fixed(&COMPONENT_PREAMBLE, DecodeReason::BadPreamble)?;
    read_shim_sections(alloc, part.rest, part.end, room)
}
