//! Sections, and all of them.

ghost use Rattle.std.specs.Prelude.{◌≡◌, ℕ, map, length};
ghost use Rattle.cm_binary_grammar.specs.Faults.{Gives};
ghost use Rattle.cm_binary_grammar.specs.Whole.{exactly, of_size};
ghost use Rattle.cm_binary_grammar.specs.Reading.{Reads, ReadsAll, IsInside};
ghost use Rattle.cm_types.specs.DefTypes.{def_type_tree};
ghost use Rattle.cm_binary_model.specs.Trees.{section_tree};
ghost use Rattle.cm_binary_forms.specs.declared.fault.DecodeReason.TheVariants as reasons;
ghost use Rattle.cm_binary_forms.specs.declared.codes.SectionKind.TheVariants as kinds;
ghost use Rattle.cm_binary_forms.specs.Texts.{vector};
ghost use Rattle.cm_binary_forms.specs.Types.{type_defs};
ghost use Rattle.cm_binary_forms.specs.Contents.{contents_tree};
ghost use Rattle.cm_binary_forms.specs.Sections.{contents, section, sections, room_after};

use crate::contents::Contents;
use crate::indices::read_index;
use crate::{DecodeReason, SectionKind, Types, read_text};
use cm_binary_grammar::{Cursor, End, Form, ReadError, read_stocked, read_vec};
use cm_binary_model::{MAX_TYPES, MODULE_PREAMBLE, Section, types_in};
use cm_types::DefType;
use std::alloc::Global;

/// The sections but those of types and aliases, as a place of forms.
pub struct Items;

/// Reads all of a part as a count, and so many items.
#[tactic(auto, using(cm_binary_grammar::proofs::WholeLaws::ends_fails))]
fn read_items<Place, T: Form<DecodeReason, Place>>(
    alloc: Global,
    part: &mut Cursor<'_, DecodeReason>,
) -> Result<Vec<T>, ReadError<DecodeReason>>
    ensures { ReadsAll (exactly reasons.SizeMismatch (vector T.grammar)) (λ v. map T.tree v.items)
        part.old result }
{
    let items = read_vec::<_, Place, _>(alloc, part, DecodeReason::BadNumber)?;
    part.finish(DecodeReason::SizeMismatch)?;
    Ok(items)
}

/// Reads all of a part as a count, and so many types, where `room` more may stand in the file.
#[tactic(auto, using(cm_binary_grammar::proofs::WholeLaws::ends_fails), unfolding(crate::specs::Types::type_defs))]
fn read_all_types(
    alloc: Global,
    part: &mut Cursor<'_, DecodeReason>,
    room: usize,
) -> Result<Vec<DefType>, ReadError<DecodeReason>>
    ensures { ReadsAll (exactly reasons.SizeMismatch (type_defs room))
        (λ v. map def_type_tree v.items) part.old result }
{
    let types = read_stocked::<_, Types, _>(alloc, part, DecodeReason::BadNumber, room)?;
    part.finish(DecodeReason::SizeMismatch)?;
    Ok(types)
}

/// Reads all of a part as a custom section: a name, and bytes to the end.
#[tactic(auto, unfolding(crate::specs::Sections::contents))]
fn read_custom_section<'a>(
    alloc: Global,
    part: &mut Cursor<'a, DecodeReason>,
) -> Result<Contents<'a>, ReadError<DecodeReason>>
    ensures { (room : ℕ) → ReadsAll (contents room kinds.Custom) contents_tree part.old result }
{
    let name = read_text(alloc, part)?;
    Ok(Contents::Custom {
        name,
        bytes: part.rest,
    })
}

/// Reads all of a part as a core module.
#[tactic(auto, unfolding(crate::specs::Sections::contents))]
fn read_core_module_section<'a>(
    part: &Cursor<'a, DecodeReason>,
) -> Result<Contents<'a>, ReadError<DecodeReason>>
    ensures { (room : ℕ) → ReadsAll (contents room kinds.CoreModule) contents_tree part.now result }
{
    let module = part.begins_with(&MODULE_PREAMBLE, DecodeReason::NotAModule)?;
    Ok(Contents::CoreModule(module))
}

/// Reads the contents of a section, where `room` more types may stand in the file.
#[tactic(auto, unfolding(crate::specs::Sections::contents))]
fn read_contents<'a>(
    alloc: Global,
    part: &mut Cursor<'a, DecodeReason>,
    room: usize,
    kind: SectionKind,
) -> Result<Contents<'a>, ReadError<DecodeReason>>
    ensures { ReadsAll (contents room kind) contents_tree part.old result }
{
    let section = match kind {
        SectionKind::Custom => return read_custom_section(alloc, part),
        SectionKind::CoreModule => return read_core_module_section(part),
        SectionKind::CoreInstances => Section::CoreInstances(read_items::<Items, _>(alloc, part)?),
        SectionKind::Instances => Section::Instances(read_items::<Items, _>(alloc, part)?),
        SectionKind::Aliases => Section::Aliases(read_items::<Types, _>(alloc, part)?),
        SectionKind::Types => Section::Types(read_all_types(alloc, part, room)?),
        SectionKind::Canons => Section::Canons(read_items::<Items, _>(alloc, part)?),
        SectionKind::Imports => Section::Imports(read_items::<Items, _>(alloc, part)?),
        SectionKind::Exports => Section::Exports(read_items::<Items, _>(alloc, part)?),
    };
    Ok(Contents::Items(section))
}

/// Reads bytes that end so as the contents of a section. A fault is inside them.
fn read_contents_inside<'a>(
    alloc: Global,
    bytes: &'a [u8],
    end: End<DecodeReason>,
    room: usize,
    kind: SectionKind,
) -> Result<Contents<'a>, ReadError<DecodeReason>>
    ensures read { Gives contents_tree result ((contents room kind).reads end bytes.now) }
    ensures inside { IsInside (length bytes.now) result }
{
    read_contents(alloc, &mut Cursor::new(bytes, end), room, kind)
}

/// Reads a part of so many bytes as the contents of a section.
fn read_section_of_size(
    alloc: Global,
    bytes: &mut Cursor<'_, DecodeReason>,
    room: usize,
    kind: SectionKind,
    size: u32,
) -> Result<Section, ReadError<DecodeReason>>
    ensures read { Reads (of_size reasons.SizeMismatch size (contents room kind)) section_tree
        bytes.old bytes.new result }
    ensures end { bytes.new.end ≡ bytes.old.end }
{
    let part = bytes.part(size, DecodeReason::SizeMismatch);
    let outcome = read_contents_inside(alloc, part.rest, part.end, room, kind);
    let contents = bytes.leave(size, outcome)?;
    Ok(contents.into_section(alloc)?)
}

/// Reads a section, where `room` more types may stand in the file.
#[tactic(auto, unfolding(crate::specs::Sections::section))]
pub fn read_section(
    alloc: Global,
    bytes: &mut Cursor<'_, DecodeReason>,
    room: usize,
) -> Result<Section, ReadError<DecodeReason>>
    ensures read { Reads (section room) section_tree bytes.old bytes.new result }
    ensures end { bytes.new.end ≡ bytes.old.end }
{
    let kind = bytes.code()?;
    let size = read_index(bytes)?;
    read_section_of_size(alloc, bytes, room, kind, size)
}

/// How many of `room` types more may stand behind the section.
pub fn room_after(room: usize, section: &Section) -> usize
    ensures { result ≡ room_after room (section_tree section.now) }
{
    room.saturating_sub(types_in(section) as usize)
}

/// Reads sections to the end of the bytes, which end so.
pub(crate) fn read_sections(
    alloc: Global,
    bytes: &[u8],
    end: End<DecodeReason>,
) -> Result<Vec<Section>, ReadError<DecodeReason>>
    ensures { Gives (λ v. map section_tree v.items) result
        ((sections MAX_TYPES).reads end bytes.now) }
{
    let mut sections = Vec::new(alloc);
    let mut room = MAX_TYPES;
    let mut cursor = Cursor::new(bytes, end);
    while !cursor.rest.is_empty() {
        let section = read_section(alloc, &mut cursor, room)?;
        room = room_after(room, &section);
        sections.push(section)?;
    }
    Ok(sections)
}
