//! The front of an open bundle: what it imports (Binary.md, "Import Definitions").

ghost use Rattle.std.specs.Prelude.{◌≡◌, ◌↔◌, ◌+◌, ◌≤◌, ◌<◌, ◌^◌, length, map, IfOk, IsTrue};
ghost use Rattle.std.specs.List.{AllByRecursion};
ghost use Rattle.cm_binary_grammar.specs.Reading.{Reads};
ghost use Rattle.cm_bundle.specs.Fronts.{imports_section, aliases_section, group, groups, front};
ghost use Rattle.cm_bundle.specs.Fronts.{spaces_behind, IsGroup};
ghost use Rattle.cm_bundle.specs.Refusals.{WritesGroup, WritesGroups, WritesFront};
ghost use Rattle.cm_bundle.specs.Room.{spaces_of};
ghost use Rattle.cm_bundle.specs.Trees.{group_tree};

use crate::codes::InFront;
use crate::fault::BundleReason;
use crate::form::{ImportGroup, MAX_PARTS};
use crate::front_items::{are_imports, are_type_aliases, supplies_of};
use crate::numbers::read_bytes;
use crate::sections::{write_imported, write_section};
use crate::spaces::{FrontSpaces, front_spaces, no_spaces};
use crate::writing::WriteFault;
use cm_binary_grammar::{Cursor, ReadError};
use std::alloc::{AllocError, Global};

/// Reads the contents of a section of imports.
#[tactic(auto, unfolding(crate::specs::Fronts::imports_section))]
fn read_imports<'a>(
    alloc: Global,
    bytes: &mut Cursor<'a, BundleReason>,
) -> Result<&'a [u8], ReadError<BundleReason>>
    ensures read { Reads imports_section (λ x. x.now) bytes.old bytes.new result }
    ensures end { bytes.new.end ≡ bytes.old.end }
{
    let fault = bytes.fault(BundleReason::BadFront);
    let contents = read_bytes(bytes)?;
    if !are_imports(alloc, contents)? {
        return Err(fault);
    }
    Ok(contents)
}

/// Reads the contents of a section of aliases of types.
#[tactic(auto, unfolding(crate::specs::Fronts::aliases_section))]
fn read_aliases<'a>(
    alloc: Global,
    bytes: &mut Cursor<'a, BundleReason>,
) -> Result<&'a [u8], ReadError<BundleReason>>
    ensures read { Reads aliases_section (λ x. x.now) bytes.old bytes.new result }
    ensures end { bytes.new.end ≡ bytes.old.end }
{
    let fault = bytes.fault(BundleReason::BadFront);
    let contents = read_bytes(bytes)?;
    if !are_type_aliases(alloc, contents)? {
        return Err(fault);
    }
    Ok(contents)
}

/// Reads a group behind the id of its first section.
#[tactic(auto, unfolding(crate::specs::Fronts::group))]
fn read_group<'a>(
    alloc: Global,
    bytes: &mut Cursor<'a, BundleReason>,
) -> Result<ImportGroup<'a>, ReadError<BundleReason>>
    ensures read { Reads group group_tree bytes.old bytes.new result }
    ensures end { bytes.new.end ≡ bytes.old.end }
{
    let types = read_bytes(bytes)?;
    bytes.byte(0x0a, BundleReason::UnknownCode)?;
    let imports = read_imports(alloc, bytes)?;
    bytes.byte(0x06, BundleReason::UnknownCode)?;
    let aliases = read_aliases(alloc, bytes)?;
    Ok(ImportGroup {
        types,
        imports,
        aliases,
    })
}

/// Reads groups, and the id of the section behind them.
fn read_groups<'a>(
    alloc: Global,
    bytes: &mut Cursor<'a, BundleReason>,
) -> Result<Vec<ImportGroup<'a>>, ReadError<BundleReason>>
    ensures read { Reads (groups (MAX_PARTS + 1))
        (λ v. map group_tree v.items) bytes.old bytes.new result }
    ensures end { bytes.new.end ≡ bytes.old.end }
    ensures few { IfOk result (λ v. length v.items ≤ MAX_PARTS) }
{
    let mut groups = Vec::new(alloc);
    for _ in 0..MAX_PARTS + 1 {
        let next: InFront = bytes.code()?;
        match next {
            InFront::Instance => return Ok(groups),
            InFront::Group => {
                let group = read_group(alloc, bytes)?;
                groups.push(group)?;
            }
        }
    }
    Err(bytes.fault(BundleReason::TooManyParts))
}

/// Reads the front of an open bundle.
#[tactic(auto, unfolding(crate::specs::Fronts::front))]
pub fn read_front<'a>(
    alloc: Global,
    bytes: &mut Cursor<'a, BundleReason>,
) -> Result<Vec<ImportGroup<'a>>, ReadError<BundleReason>>
    ensures read { Reads front (λ v. map group_tree v.items) bytes.old bytes.new result }
    ensures end { bytes.new.end ≡ bytes.old.end }
    ensures few { IfOk result (λ v. length v.items ≤ MAX_PARTS) }
{
    let groups = read_groups(alloc, bytes)?;
    let supplies = supplies_of(alloc, &groups)?;
    let mut instance = Vec::new(alloc);
    write_imported(alloc, &mut instance, &supplies)?;
    bytes.fixed(&instance, BundleReason::UnknownCode)?;
    Ok(groups)
}

/// The index spaces behind a front.
pub fn spaces_behind(alloc: Global, front: &[ImportGroup<'_>]) -> Result<FrontSpaces, AllocError>
    requires { length front.now ≤ MAX_PARTS }
    ensures spaces { IfOk result (λ s. spaces_of s ≡ spaces_behind (map group_tree front.now)) }
    ensures functions { IfOk result (λ s. s.counts.functions < 2 ^ 61) }
    ensures instances { IfOk result (λ s. s.counts.instances < 2 ^ 61) }
{
    if front.is_empty() {
        return Ok(no_spaces(alloc));
    }
    let supplies = supplies_of(alloc, front)?;
    front_spaces(alloc, &supplies)
}

/// Appends the sections of a group.
fn write_group(alloc: Global, out: &mut Vec<u8>, group: &ImportGroup<'_>) -> Result<(), WriteFault>
    ensures { WritesGroup (group_tree group.now) out.old.items out.new.items result }
{
    if !are_imports(alloc, group.imports)? || !are_type_aliases(alloc, group.aliases)? {
        return Err(WriteFault::BadFront);
    }
    write_section(out, 0x07, group.types)?;
    write_section(out, 0x0a, group.imports)?;
    write_section(out, 0x06, group.aliases)?;
    Ok(())
}

/// Appends groups.
fn write_groups(
    alloc: Global,
    out: &mut Vec<u8>,
    front: &[ImportGroup<'_>],
) -> Result<(), WriteFault>
    ensures { WritesGroups (map group_tree front.now) out.old.items out.new.items result }
{
    for group in front {
        write_group(alloc, out, group)?;
    }
    Ok(())
}

/// Appends a front, and answers the index spaces behind it.
pub fn write_front(
    alloc: Global,
    out: &mut Vec<u8>,
    front: &[ImportGroup<'_>],
) -> Result<FrontSpaces, WriteFault>
    requires { length front.now ≤ MAX_PARTS }
    ensures { WritesFront (map group_tree front.now) out.old.items out.new.items result }
{
    if front.is_empty() {
        return Ok(no_spaces(alloc));
    }
    write_groups(alloc, out, front)?;
    let supplies = supplies_of(alloc, front)?;
    out.push(0x05)?;
    write_imported(alloc, out, &supplies)?;
    Ok(front_spaces(alloc, &supplies)?)
}

/// Whether each group has a section of imports, and one of aliases of types.
pub fn are_groups(alloc: Global, front: &[ImportGroup<'_>]) -> Result<bool, AllocError>
    ensures { IfOk result (λ b. IsTrue b ↔ AllByRecursion IsGroup (map group_tree front.now)) }
{
    for group in front {
        if !are_imports(alloc, group.imports)? || !are_type_aliases(alloc, group.aliases)? {
            return Ok(false);
        }
    }
    Ok(true)
}
