//! The sorts and names of imports and arguments, and that none stands twice.

ghost use Rattle.std.specs.Prelude.{◌≡◌, ◌++◌, [], IfOk, OnOk, map};
ghost use Rattle.cm_names.specs.Keys.{key_view};
ghost use Rattle.cm_names.specs.Listed.{listed};
ghost use Rattle.cm_shims_plain.specs.Trees.{shim_section_tree};
ghost use Rattle.cm_shims_plain.specs.Names.{argument_key, first_twice, import_key, import_keys};
ghost use Rattle.cm_shims_plain.specs.Names.{is_first, section_keys, sort_key, sort_of, twice_from};

use crate::parts::{Argument, ShimImport, ShimSection};
use cm_binary_model::InstanceExportSort;
use cm_names::Keys;
use cm_types::ExportDesc;
use std::alloc::{AllocError, Global};

/// The number of a sort among the keys of imports and arguments.
pub(crate) fn sort_key(sort: InstanceExportSort) -> usize
    ensures { result ≡ sort_key sort }
{
    match sort {
        InstanceExportSort::Func => 1,
        InstanceExportSort::Type => 3,
    }
}

/// The sort of what is imported.
fn sort_of(desc: ExportDesc) -> InstanceExportSort
    ensures { result ≡ sort_of desc }
{
    match desc {
        ExportDesc::Func(_) => InstanceExportSort::Func,
        ExportDesc::Type(_) => InstanceExportSort::Type,
    }
}

/// The sorts and names of arguments.
pub(crate) fn argument_keys<'a>(
    alloc: Global,
    args: &'a [Argument],
) -> Result<Vec<(usize, &'a str)>, AllocError>
    ensures { IfOk result (λ v. map key_view v.items ≡ map argument_key args.now) }
{
    let mut keys = Vec::new(alloc);
    for arg in args {
        keys.push((sort_key(arg.sort), arg.name.as_str()))?;
    }
    Ok(keys)
}

/// Adds the sorts and names of imports.
fn add_keys<'a>(
    keys: &mut Vec<(usize, &'a str)>,
    imports: &'a [ShimImport],
) -> Result<(), AllocError>
    ensures { OnOk result (map key_view keys.new.items
        ≡ map key_view keys.old.items ++ map import_key imports.now) }
{
    for import in imports {
        keys.push((sort_key(sort_of(import.desc)), import.name.as_str()))?;
    }
    Ok(())
}

/// Adds those of a section of a shim.
fn add_section_keys<'a>(
    keys: &mut Vec<(usize, &'a str)>,
    section: &'a ShimSection,
) -> Result<(), AllocError>
    ensures { OnOk result (map key_view keys.new.items
        ≡ map key_view keys.old.items ++ section_keys (shim_section_tree section.now)) }
{
    match section {
        ShimSection::Shared(_) | ShimSection::Exports(_) => Ok(()),
        ShimSection::Imports(imports) => add_keys(keys, imports),
    }
}

/// The sorts and names of the imports of a shim.
fn import_keys<'a>(
    alloc: Global,
    shim: &'a [ShimSection],
) -> Result<Vec<(usize, &'a str)>, AllocError>
    ensures { IfOk result (λ v. map key_view v.items
        ≡ import_keys (map shim_section_tree shim.now)) }
{
    let mut keys = Vec::new(alloc);
    for section in shim {
        add_section_keys(&mut keys, section)?;
    }
    Ok(keys)
}

/// Whether the first key that is this one stands at this place.
fn is_first(keys: &Keys<'_>, place: usize, sort: usize, name: &str) -> bool
    ensures { result ≡ is_first (listed keys.now) place (sort, name.now) }
{
    match keys.find(sort, name) {
        Some(first) => first == place,
        None => false,
    }
}

/// The place of the first of these keys that stood before, which the table lists.
pub(crate) fn first_twice(table: &Keys<'_>, keys: &[(usize, &str)]) -> Option<usize>
    requires { listed table.now ≡ map key_view keys.now }
    ensures { result ≡ first_twice (map key_view keys.now) }
{
    for (place, (sort, name)) in keys.iter().enumerate() {
        if !is_first(table, place, *sort, name) {
            return Some(place);
        }
    }
    None
}

/// The number of the first import of a shim whose sort and name stood before.
pub(crate) fn import_twice(alloc: Global, shim: &[ShimSection]) -> Result<Option<usize>, AllocError>
    ensures { IfOk result (λ i. i ≡ first_twice (import_keys (map shim_section_tree shim.now))) }
{
    let table = Keys::new(alloc, import_keys(alloc, shim)?)?;
    Ok(first_twice(&table, &import_keys(alloc, shim)?))
}
