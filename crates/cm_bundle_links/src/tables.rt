//! The exports of components, by sort and name.

ghost use Rattle.std.specs.Prelude.{◌≡◌, IfOk, List, map};
ghost use Rattle.cm_names.specs.Keys.{key_view};
ghost use Rattle.cm_names.specs.Listed.{listed};
ghost use Rattle.cm_types.specs.Types.{FuncTy, Ty};
ghost use Rattle.cm_types_arena.specs.Externs.{extern_desc_of};
ghost use Rattle.cm_match_serving.specs.cm_validate_entries.ComponentSpaces.{export_def};
ghost use Rattle.cm_match_serving.specs.cm_validate_entries.ComponentSpaces.{exported_def};
ghost use Rattle.cm_bundle.specs.Bundled.{export_sort, import_sort};
ghost use Rattle.cm_bundle_links.specs.Tables.{key_of, sort_number};

use cm_bundle::Sort;
use cm_match_serving::{ExportEntry, ExportedEntry};
use cm_names::Keys;
use cm_types_arena::ExternDesc;
use std::alloc::{AllocError, Global};

/// The number of a sort in keys.
pub(crate) fn sort_number(sort: Sort) -> usize
    ensures { result ≡ sort_number sort }
{
    match sort {
        Sort::Func => 0,
        Sort::Instance => 1,
    }
}

/// The sort of an import.
pub(crate) fn import_sort(desc: &ExternDesc) -> Sort
    ensures { (types : List Ty) (funcs : List FuncTy)
        → result ≡ import_sort (extern_desc_of types funcs desc.now) }
{
    match desc {
        ExternDesc::Func(_) => Sort::Func,
        ExternDesc::Instance { .. } => Sort::Instance,
    }
}

/// The sort of an export.
fn export_sort(def: &ExportedEntry<'_>) -> Sort
    ensures { (types : List Ty) (funcs : List FuncTy)
        → result ≡ export_sort (exported_def types funcs def.now) }
{
    match def {
        ExportedEntry::Func(_) => Sort::Func,
        ExportedEntry::Instance(_) => Sort::Instance,
    }
}

/// An export as a key: its sort and its name.
fn key_of<'b>(export: &'b ExportEntry<'_>) -> (usize, &'b str)
    ensures { (types : List Ty) (funcs : List FuncTy)
        → key_view result ≡ key_of (export_def types funcs export.now) }
{
    (sort_number(export_sort(&export.def)), export.name.as_str())
}

/// The keys of exports.
fn keys_of<'b>(
    alloc: Global,
    exports: &'b [ExportEntry<'_>],
) -> Result<Vec<(usize, &'b str)>, AllocError>
    ensures { (types : List Ty) (funcs : List FuncTy) → IfOk result (λ v.
        map key_view v.items ≡ map (λ e. key_of (export_def types funcs e)) exports.now) }
{
    let mut keys = Vec::with_capacity(alloc, exports.len())?;
    for export in exports {
        keys.push(key_of(export))?;
    }
    Ok(keys)
}

/// The exports of a component, by sort and name.
pub(crate) fn table_of<'b>(
    alloc: Global,
    exports: &'b [ExportEntry<'_>],
) -> Result<Keys<'b>, AllocError>
    ensures { (types : List Ty) (funcs : List FuncTy) → IfOk result (λ k.
        listed k ≡ map (λ e. key_of (export_def types funcs e)) exports.now) }
{
    let keys = keys_of(alloc, exports)?;
    Keys::new(alloc, keys)
}
