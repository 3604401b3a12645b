//! What stands in the sections in front of the parts of an open bundle.

ghost use Rattle.std.specs.Prelude.{◌≡◌, ◌+◌, ◌++◌, ◌<◌, ◌≤◌, ◌*◌, ◌^◌, length, map, IfOk, OnOk};
ghost use Rattle.cm_binary_grammar.specs.declared.fault.End.TheVariants as end;
ghost use Rattle.cm_binary_grammar.specs.Faults.{Gives};
ghost use Rattle.cm_binary_grammar.specs.Grammar.{times};
ghost use Rattle.cm_binary_grammar.specs.Reading.{Reads};
ghost use Rattle.cm_bundle.specs.declared.fault.BundleReason.TheVariants as reasons;
ghost use Rattle.cm_bundle.specs.Fronts.{import_, import_list, import_data, imports_in};
ghost use Rattle.cm_bundle.specs.Fronts.{type_alias, type_alias_list, type_alias_data};
ghost use Rattle.cm_bundle.specs.Fronts.{are_imports, are_type_aliases, imports_of};
ghost use Rattle.cm_bundle.specs.Fronts.{passed_on, all_passed_on};
ghost use Rattle.cm_bundle.specs.Trees.{import_tree, type_alias_tree, group_tree, supply_tree};

use crate::fault::BundleReason;
use crate::form::{BundleImport, ImportGroup, PartExport, Supply, TypeAlias};
use crate::numbers::{read_short, read_text};
use cm_binary_grammar::{Cursor, End, ReadError};
use std::alloc::{AllocError, Global};

/// Reads an import.
#[tactic(auto, unfolding(crate::specs::Fronts::import_))]
fn read_import<'a>(
    bytes: &mut Cursor<'a, BundleReason>,
) -> Result<BundleImport<'a>, ReadError<BundleReason>>
    ensures read { Reads import_ import_tree bytes.old bytes.new result }
    ensures end { bytes.new.end ≡ bytes.old.end }
{
    bytes.byte(0x00, BundleReason::UnknownCode)?;
    let name = read_text(bytes)?;
    let sort = bytes.code()?;
    let ty = read_short(bytes)?;
    Ok(BundleImport { name, sort, ty })
}

/// Reads so many imports.
fn read_imports<'a>(
    alloc: Global,
    bytes: &mut Cursor<'a, BundleReason>,
    count: u32,
) -> Result<Vec<BundleImport<'a>>, ReadError<BundleReason>>
    ensures read { Reads (times import_ count)
        (λ v. map import_tree v.items) bytes.old bytes.new result }
    ensures end { bytes.new.end ≡ bytes.old.end }
    ensures few { IfOk result (λ v. length v.items < 2 ^ 32) }
{
    let mut imports = Vec::new(alloc);
    for _ in 0..count {
        let import = read_import(bytes)?;
        imports.push(import)?;
    }
    Ok(imports)
}

/// Reads a count, and as many imports.
#[tactic(auto, unfolding(crate::specs::Fronts::import_list))]
fn read_import_list<'a>(
    alloc: Global,
    bytes: &mut Cursor<'a, BundleReason>,
) -> Result<Vec<BundleImport<'a>>, ReadError<BundleReason>>
    ensures read { Reads import_list (λ v. map import_tree v.items) bytes.old bytes.new result }
    ensures end { bytes.new.end ≡ bytes.old.end }
    ensures few { IfOk result (λ v. length v.items < 2 ^ 32) }
{
    let count = read_short(bytes)?;
    read_imports(alloc, bytes, count)
}

/// Reads the contents of a section of imports.
#[tactic(auto, using(cm_binary_grammar::proofs::WholeLaws::ends_fails), unfolding(crate::specs::Fronts::import_data))]
fn read_import_data(
    alloc: Global,
    contents: &[u8],
) -> Result<Vec<BundleImport<'_>>, ReadError<BundleReason>>
    ensures read { Gives (λ v. map import_tree v.items) result
        (import_data.reads (end.Whole reasons.SizeMismatch) contents.now) }
    ensures few { IfOk result (λ v. length v.items < 2 ^ 32) }
{
    let mut bytes = Cursor::new(contents, End::Whole(BundleReason::SizeMismatch));
    let imports = read_import_list(alloc, &mut bytes)?;
    bytes.finish(BundleReason::Surplus)?;
    Ok(imports)
}

/// Reads an alias of a type.
#[tactic(auto, unfolding(crate::specs::Fronts::type_alias))]
fn read_type_alias<'a>(
    bytes: &mut Cursor<'a, BundleReason>,
) -> Result<TypeAlias<'a>, ReadError<BundleReason>>
    ensures read { Reads type_alias type_alias_tree bytes.old bytes.new result }
    ensures end { bytes.new.end ≡ bytes.old.end }
{
    bytes.fixed(&[0x03, 0x00], BundleReason::UnknownCode)?;
    let instance = read_short(bytes)?;
    let name = read_text(bytes)?;
    Ok(TypeAlias { instance, name })
}

/// Reads so many aliases of types.
fn read_type_aliases<'a>(
    alloc: Global,
    bytes: &mut Cursor<'a, BundleReason>,
    count: u32,
) -> Result<Vec<TypeAlias<'a>>, ReadError<BundleReason>>
    ensures read { Reads (times type_alias count)
        (λ v. map type_alias_tree v.items) bytes.old bytes.new result }
    ensures end { bytes.new.end ≡ bytes.old.end }
{
    let mut aliases = Vec::new(alloc);
    for _ in 0..count {
        let alias = read_type_alias(bytes)?;
        aliases.push(alias)?;
    }
    Ok(aliases)
}

/// Reads a count, and as many aliases of types.
#[tactic(auto, unfolding(crate::specs::Fronts::type_alias_list))]
fn read_type_alias_list<'a>(
    alloc: Global,
    bytes: &mut Cursor<'a, BundleReason>,
) -> Result<Vec<TypeAlias<'a>>, ReadError<BundleReason>>
    ensures read { Reads type_alias_list
        (λ v. map type_alias_tree v.items) bytes.old bytes.new result }
    ensures end { bytes.new.end ≡ bytes.old.end }
{
    let count = read_short(bytes)?;
    read_type_aliases(alloc, bytes, count)
}

/// Reads the contents of a section of aliases of types.
#[tactic(auto, using(cm_binary_grammar::proofs::WholeLaws::ends_fails), unfolding(crate::specs::Fronts::type_alias_data))]
fn read_type_alias_data(
    alloc: Global,
    contents: &[u8],
) -> Result<Vec<TypeAlias<'_>>, ReadError<BundleReason>>
    ensures { Gives (λ v. map type_alias_tree v.items) result
        (type_alias_data.reads (end.Whole reasons.SizeMismatch) contents.now) }
{
    let mut bytes = Cursor::new(contents, End::Whole(BundleReason::SizeMismatch));
    let aliases = read_type_alias_list(alloc, &mut bytes)?;
    bytes.finish(BundleReason::Surplus)?;
    Ok(aliases)
}

/// Whether these contents of a section are imports of functions and instances.
pub fn are_imports(alloc: Global, contents: &[u8]) -> Result<bool, AllocError>
    ensures { IfOk result (λ b. b ≡ are_imports contents.now) }
{
    match read_import_data(alloc, contents) {
        Ok(_) => Ok(true),
        Err(ReadError::Fault(_)) => Ok(false),
        Err(ReadError::Memory) => Err(AllocError),
    }
}

/// Whether these contents of a section are aliases of types of instances.
pub fn are_type_aliases(alloc: Global, contents: &[u8]) -> Result<bool, AllocError>
    ensures { IfOk result (λ b. b ≡ are_type_aliases contents.now) }
{
    match read_type_alias_data(alloc, contents) {
        Ok(_) => Ok(true),
        Err(ReadError::Fault(_)) => Ok(false),
        Err(ReadError::Memory) => Err(AllocError),
    }
}

/// Appends the imports in the contents of a section.
fn add_imports<'a>(
    alloc: Global,
    imports: &mut Vec<BundleImport<'a>>,
    contents: &'a [u8],
) -> Result<(), AllocError>
    ensures imports { OnOk result (map import_tree imports.new.items
        ≡ map import_tree imports.old.items ++ imports_in contents.now) }
    ensures few { OnOk result (length imports.new.items ≤ length imports.old.items + 2 ^ 32) }
{
    match read_import_data(alloc, contents) {
        Ok(own) => imports.extend_from_slice(&own),
        Err(ReadError::Fault(_)) => Ok(()),
        Err(ReadError::Memory) => Err(AllocError),
    }
}

/// What a front imports, in order, not copied. A section of a group that is not one of imports of
/// functions and instances has none: a bundle that is read or written has no such section.
pub fn imports_of<'a>(
    alloc: Global,
    front: &[ImportGroup<'a>],
) -> Result<Vec<BundleImport<'a>>, AllocError>
    ensures imports { IfOk result (λ v. map import_tree v.items
        ≡ imports_of (map group_tree front.now)) }
    ensures few { IfOk result (λ v. length v.items ≤ length front.now * 2 ^ 32) }
{
    let mut imports = Vec::new(alloc);
    for group in front {
        add_imports(alloc, &mut imports, group.imports)?;
    }
    Ok(imports)
}

/// What a front imports, each under its name, as it is passed on to parts.
pub fn supplies_of<'a>(
    alloc: Global,
    front: &[ImportGroup<'a>],
) -> Result<Vec<Supply<'a>>, AllocError>
    ensures supplies { IfOk result (λ v. map supply_tree v.items
        ≡ all_passed_on (map group_tree front.now)) }
    ensures few { IfOk result (λ v. length v.items ≤ length front.now * 2 ^ 32) }
{
    let imports = imports_of(alloc, front)?;
    passed_on(alloc, &imports)
}

/// These imports, each under its name, as they are passed on to parts.
fn passed_on<'a>(alloc: Global, imports: &[BundleImport<'a>]) -> Result<Vec<Supply<'a>>, AllocError>
    ensures supplies { IfOk result (λ v. map supply_tree v.items
        ≡ map passed_on (map import_tree imports.now)) }
    ensures count { IfOk result (λ v. length v.items ≡ length imports.now) }
{
    let mut supplies = Vec::new(alloc);
    for import in imports {
        let BundleImport { name, sort, .. } = *import;
        let export = PartExport {
            part: 0,
            sort,
            name,
        };
        supplies.push(Supply { name, export })?;
    }
    Ok(supplies)
}
