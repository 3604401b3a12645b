//! The names of parts (Binary.md, "Name Section").

ghost use Rattle.std.specs.Prelude.{◌≡◌, ◌∷◌, ◌++◌, map, IfOk, OnOk};
ghost use Rattle.std.specs.List.{AllByRecursion, flat_map};
ghost use Rattle.cm_binary_grammar.specs.declared.fault.End.TheVariants as end;
ghost use Rattle.cm_binary_grammar.specs.Faults.{Gives};
ghost use Rattle.cm_binary_grammar.specs.Grammar.{times};
ghost use Rattle.cm_binary_grammar.specs.Reading.{Reads};
ghost use Rattle.cm_binary_grammar.specs.Spelling.{vec_spelling};
ghost use Rattle.cm_bundle.specs.declared.fault.BundleReason.TheVariants as reasons;
ghost use Rattle.cm_bundle.specs.Grammar.{sized};
ghost use Rattle.cm_bundle.specs.Names.{part_name, name_map, name_section, name_data};
ghost use Rattle.cm_bundle.specs.Names.{names_in, names_of};
ghost use Rattle.cm_bundle.specs.Names.{name_spelled, names_spelled, IsName};
ghost use Rattle.cm_bundle.specs.Trees.{bundle_tree, name_tree};

use crate::fault::BundleReason;
use crate::form::{Bundle, NAMES_HEAD, PartName};
use crate::numbers::{read_short, read_text};
use cm_binary_grammar::{Cursor, End, ReadError, write_blob};
use cm_leb::formats::write_count;
use std::alloc::{AllocError, Global};

/// Reads the name of a part.
#[tactic(auto, unfolding(crate::specs::Names::part_name))]
fn read_name<'a>(
    bytes: &mut Cursor<'a, BundleReason>,
) -> Result<PartName<'a>, ReadError<BundleReason>>
    ensures read { Reads part_name name_tree bytes.old bytes.new result }
    ensures end { bytes.new.end ≡ bytes.old.end }
{
    let part = read_short(bytes)?;
    let name = read_text(bytes)?;
    Ok(PartName { part, name })
}

/// Reads so many names.
fn read_times<'a>(
    alloc: Global,
    bytes: &mut Cursor<'a, BundleReason>,
    count: u32,
) -> Result<Vec<PartName<'a>>, ReadError<BundleReason>>
    ensures read { Reads (times part_name count)
        (λ v. map name_tree v.items) bytes.old bytes.new result }
    ensures end { bytes.new.end ≡ bytes.old.end }
{
    let mut names = Vec::new(alloc);
    for _ in 0..count {
        let name = read_name(bytes)?;
        names.push(name)?;
    }
    Ok(names)
}

/// Reads the names of components.
#[tactic(auto, unfolding(crate::specs::Names::name_map))]
fn read_name_map<'a>(
    alloc: Global,
    bytes: &mut Cursor<'a, BundleReason>,
) -> Result<Vec<PartName<'a>>, ReadError<BundleReason>>
    ensures read { Reads name_map (λ v. map name_tree v.items) bytes.old bytes.new result }
    ensures end { bytes.new.end ≡ bytes.old.end }
{
    bytes.byte(0x04, BundleReason::UnknownCode)?;
    let count = read_short(bytes)?;
    read_times(alloc, bytes, count)
}

/// Reads the names of components behind their size.
fn read_sized<'a>(
    alloc: Global,
    bytes: &mut Cursor<'a, BundleReason>,
) -> Result<Vec<PartName<'a>>, ReadError<BundleReason>>
    ensures read { Reads (sized name_map) (λ v. map name_tree v.items) bytes.old bytes.new result }
    ensures end { bytes.new.end ≡ bytes.old.end }
{
    let size = read_short(bytes)?;
    let fault = bytes.fault(BundleReason::SizeMismatch);
    let before = bytes.rest.len();
    let names = read_name_map(alloc, bytes)?;
    if before.saturating_sub(bytes.rest.len()) != size as usize {
        return Err(fault);
    }
    Ok(names)
}

/// Reads what a custom section of names is called, and its names.
#[tactic(auto, unfolding(crate::specs::Names::name_section))]
fn read_section<'a>(
    alloc: Global,
    bytes: &mut Cursor<'a, BundleReason>,
) -> Result<Vec<PartName<'a>>, ReadError<BundleReason>>
    ensures read { Reads name_section (λ v. map name_tree v.items) bytes.old bytes.new result }
    ensures end { bytes.new.end ≡ bytes.old.end }
{
    bytes.fixed(&NAMES_HEAD, BundleReason::UnknownCode)?;
    read_sized(alloc, bytes)
}

/// Reads the contents of a custom section of names.
#[tactic(auto, using(cm_binary_grammar::proofs::WholeLaws::ends_fails), unfolding(crate::specs::Names::name_data))]
fn read_contents(
    alloc: Global,
    contents: &[u8],
) -> Result<Vec<PartName<'_>>, ReadError<BundleReason>>
    ensures { Gives (λ v. map name_tree v.items) result
        (name_data.reads (end.Whole reasons.SizeMismatch) contents.now) }
{
    let mut bytes = Cursor::new(contents, End::Whole(BundleReason::SizeMismatch));
    let names = read_section(alloc, &mut bytes)?;
    bytes.finish(BundleReason::Surplus)?;
    Ok(names)
}

/// Appends the names that a custom section has.
fn add_names<'a>(
    alloc: Global,
    names: &mut Vec<PartName<'a>>,
    contents: &'a [u8],
) -> Result<(), AllocError>
    ensures { OnOk result (map name_tree names.new.items
        ≡ map name_tree names.old.items ++ names_in contents.now) }
{
    match read_contents(alloc, contents) {
        Ok(own) => names.extend_from_slice(&own),
        Err(ReadError::Fault(_)) => Ok(()),
        Err(ReadError::Memory) => Err(AllocError),
    }
}

/// The names that a bundle has for its parts, as its custom sections list them: a part may have
/// none or several, and a name may be of no part. A custom section that is not what
/// [`bundle`](crate::bundle) writes of names has none.
pub fn part_names<'a>(alloc: Global, bundle: &Bundle<'a>) -> Result<Vec<PartName<'a>>, AllocError>
    ensures { IfOk result (λ v. map name_tree v.items ≡ names_of (bundle_tree bundle.now)) }
{
    names_in_all(alloc, &bundle.customs)
}

/// The names that custom sections with these contents have.
fn names_in_all<'a>(alloc: Global, customs: &[&'a [u8]]) -> Result<Vec<PartName<'a>>, AllocError>
    ensures { IfOk result (λ v. map name_tree v.items
        ≡ flat_map names_in (map (λ c. c.now) customs.now)) }
{
    let mut names = Vec::new(alloc);
    for contents in customs {
        add_names(alloc, &mut names, contents)?;
    }
    Ok(names)
}

/// Appends the name of a part.
fn write_name(out: &mut Vec<u8>, name: &PartName<'_>) -> Result<(), AllocError>
    ensures spelled { OnOk result
        (out.new.items ≡ out.old.items ++ name_spelled (name_tree name.now)) }
    ensures text { OnOk result (IsName (name_tree name.now)) }
{
    write_count(out, name.part as usize)?;
    write_blob(out, name.name.as_bytes())
}

/// Appends a count, and as many names.
fn write_names(out: &mut Vec<u8>, names: &[PartName<'_>]) -> Result<(), AllocError>
    ensures spelled { OnOk result (out.new.items
        ≡ out.old.items ++ vec_spelling name_spelled (map name_tree names.now)) }
    ensures texts { OnOk result (AllByRecursion IsName (map name_tree names.now)) }
{
    write_count(out, names.len())?;
    for name in names {
        write_name(out, name)?;
    }
    Ok(())
}

/// The contents of the custom section of these names.
pub fn names_section(alloc: Global, names: &[PartName<'_>]) -> Result<Vec<u8>, AllocError>
    ensures spelled { IfOk result (λ v. v.items ≡ names_spelled (map name_tree names.now)) }
    ensures texts { IfOk result (λ _. AllByRecursion IsName (map name_tree names.now)) }
{
    let mut map = Vec::new(alloc);
    map.push(0x04)?;
    write_names(&mut map, names)?;
    let mut out = Vec::new(alloc);
    out.extend_from_slice(&NAMES_HEAD)?;
    write_blob(&mut out, &map)?;
    Ok(out)
}
