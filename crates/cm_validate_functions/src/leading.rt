//! Tables of the names that lead to core functions.

ghost use Rattle.std.specs.Prelude.{◌≡◌, IfOk, List, length, map, slice_get};
ghost use Rattle.std.specs.Option.{option_map};
ghost use Rattle.cm_names.specs.Keys.{key_view};
ghost use Rattle.cm_types.specs.Types.{FuncTy, Ty};
ghost use Rattle.cm_types_arena.specs.Externs.{extern_desc_of, extern_of};
ghost use Rattle.cm_validate_spaces.specs.Checked.{spaces_in};
ghost use Rattle.cm_validate_spaces.specs.Made.{core_func_def};
ghost use Rattle.cm_validate_functions.specs.Leading.{import_item_name, item_name};
ghost use Rattle.cm_validate_functions.specs.Leading.{lowered_import, lowered_item};
ghost use Rattle.cm_validate_functions.specs.Tables.{import_key, item_key, number_key};

use crate::names::FuncName;
use cm_names::Keys;
use cm_types_arena::{Extern, ExternDesc, InstanceType, Item};
use cm_validate_spaces::{Checked, CoreFuncEntry, ExportEntry, MadeFunc};
use std::alloc::{AllocError, Global};

/// A number as a key, if there is one.
pub(crate) fn number_key(number: Option<usize>) -> (usize, &'static str)
    ensures { key_view result ≡ number_key number }
{
    match number {
        Some(number) => (number, ""),
        None => (0, "-"),
    }
}

/// A core function as a key, if there is one.
pub(crate) fn func_key(func: Option<u32>) -> (usize, &'static str)
    ensures { key_view result ≡ number_key func }
{
    match func {
        Some(func) => (func as usize, ""),
        None => (0, "-"),
    }
}

/// The names of exports.
#[tactic(auto, using(crate::proofs::KeyLaws::shows_laws))]
fn export_names<'b>(
    alloc: Global,
    exports: &'b [ExportEntry<'_>],
) -> Result<Vec<(usize, &'b str)>, AllocError>
    ensures { IfOk result (λ v. map key_view v.items ≡ map (λ e. (0, e.name.now)) exports.now) }
{
    let mut keys = Vec::with_capacity(alloc, exports.len())?;
    for export in exports {
        keys.push((0, export.name.as_str()))?;
    }
    Ok(keys)
}

/// The names of imports.
#[tactic(auto, using(crate::proofs::KeyLaws::shows_laws))]
fn import_names<'b>(
    alloc: Global,
    imports: &'b [Extern],
) -> Result<Vec<(usize, &'b str)>, AllocError>
    ensures { IfOk result (λ v. map key_view v.items ≡ map (λ i. (0, i.name)) imports.now) }
{
    let mut keys = Vec::with_capacity(alloc, imports.len())?;
    for import in imports {
        keys.push((0, import.name.as_str()))?;
    }
    Ok(keys)
}

/// The item of a number, if the type of an instance has one.
fn item_at(ty: &InstanceType, item: usize) -> Option<&Item>
    ensures { option_map (λ i. i.now) result ≡ slice_get ty.now.items.items item }
{
    ty.items.get(item)
}

/// The name of an item of what is imported, where that is an instance that has one of the number.
#[tactic(auto, using(crate::proofs::LeadingLaws::name_of_item))]
fn name_of_item(desc: &ExternDesc, item: usize) -> Option<&str>
    ensures { (types : List Ty) (funcs : List FuncTy) → option_map (λ n. n.now) result
        ≡ item_name item (extern_desc_of types funcs desc.now) }
{
    match desc {
        ExternDesc::Func(_) => None,
        ExternDesc::Instance { ty, .. } => match item_at(ty, item) {
            None => None,
            Some(item) => Some(item.name.as_str()),
        },
    }
}

/// The name of an item of an import.
pub(crate) fn item_name(imports: &[Extern], import: usize, item: usize) -> Option<&str>
    ensures { (types : List Ty) (funcs : List FuncTy) → option_map (λ n. n.now) result
        ≡ import_item_name (map (extern_of types funcs) imports.now) import item }
{
    match imports.get(import) {
        None => None,
        Some(import) => name_of_item(&import.desc, item),
    }
}

/// The import of a function that a core function lowers.
fn lowered_import(func: CoreFuncEntry<'_>) -> Option<usize>
    ensures { (funcs : List FuncTy) → result ≡ lowered_import (core_func_def funcs func.entry) }
{
    match func {
        CoreFuncEntry::Made(
            MadeFunc::Lowered {
                import,
                item: None,
                ..
            },
        ) => Some(import),
        _ => None,
    }
}

/// The item of an import that a core function lowers, by the number of the import and the name of
/// the item.
fn lowered_item<'b>(imports: &'b [Extern], func: CoreFuncEntry<'_>) -> Option<(usize, &'b str)>
    ensures { (types : List Ty) (funcs : List FuncTy) → option_map key_view result
        ≡ lowered_item (map (extern_of types funcs) imports.now)
        (core_func_def funcs func.entry) }
{
    match func {
        CoreFuncEntry::Made(
            MadeFunc::Lowered {
                import,
                item: Some(item),
                ..
            },
        ) => match item_name(imports, import, item) {
            None => None,
            Some(name) => Some((import, name)),
        },
        _ => None,
    }
}

/// The same as a key, where the number of no import stands for the other core functions.
fn item_key<'b>(imports: &'b [Extern], func: CoreFuncEntry<'_>) -> (usize, &'b str)
    ensures { (types : List Ty) (funcs : List FuncTy) → key_view result
        ≡ item_key (map (extern_of types funcs) imports.now) (core_func_def funcs func.entry) }
{
    match lowered_item(imports, func) {
        Some(item) => item,
        None => (imports.len(), ""),
    }
}

/// The imports of functions that the core functions of a component lower, each at the place of its
/// core function.
#[tactic(auto, using(crate::proofs::KeyLaws::index_laws))]
fn lowered_imports(
    alloc: Global,
    checked: &Checked<'_>,
    count: u32,
) -> Result<Vec<(usize, &'static str)>, AllocError>
    requires { count ≡ length (spaces_in checked.now).core_funcs }
    ensures { IfOk result (λ v.
        map key_view v.items ≡ map import_key (spaces_in checked.now).core_funcs) }
{
    let mut keys = Vec::with_capacity(alloc, count as usize)?;
    for index in 0..count {
        let Some(func) = checked.core(index) else {
            unreachable!()
        };
        keys.push(number_key(lowered_import(func)))?;
    }
    Ok(keys)
}

/// The items of imports that the core functions of a component lower, each at the place of its core
/// function.
#[tactic(auto, using(crate::proofs::KeyLaws::index_laws))]
fn lowered_items<'b>(
    alloc: Global,
    checked: &'b Checked<'_>,
    count: u32,
) -> Result<Vec<(usize, &'b str)>, AllocError>
    requires { count ≡ length (spaces_in checked.now).core_funcs }
    ensures { IfOk result (λ v. map key_view v.items
        ≡ map (item_key (spaces_in checked.now).imports) (spaces_in checked.now).core_funcs) }
{
    let imports = checked.imports();
    let mut keys = Vec::with_capacity(alloc, count as usize)?;
    for index in 0..count {
        let Some(func) = checked.core(index) else {
            unreachable!()
        };
        keys.push(item_key(imports, func))?;
    }
    Ok(keys)
}

/// The names of a component that lead to its core functions.
#[derive(Drop)]
pub(crate) struct Names<'b> {
    exports: Keys<'b>,
    imports: Keys<'b>,
    /// By the numbers of imports, without a name.
    lowered: Keys<'static>,
    /// By the numbers of imports and the names of items.
    items: Keys<'b>,
}

impl<'b> Names<'b> {
    ghost use Rattle.cm_validate_model.specs.Spaces.{Spaces};
    ghost use Rattle.cm_validate_functions.specs.FuncNames.{name_parts};
    ghost use Rattle.cm_validate_functions.specs.Leading.{export_named, lowered_in};
    ghost use Rattle.cm_validate_functions.specs.Kept.{AreNamesOf};

    /// The names of a component that has so many core functions.
    pub(crate) fn of(
        alloc: Global,
        checked: &'b Checked<'_>,
        count: u32,
    ) -> Result<Names<'b>, AllocError>
        requires { count ≡ length (spaces_in checked.now).core_funcs }
        ensures { IfOk result (AreNamesOf (spaces_in checked.now)) }
    {
        let exported = export_names(alloc, checked.exports())?;
        let exports = Keys::new(alloc, exported)?;
        let imported = import_names(alloc, checked.imports())?;
        let imports = Keys::new(alloc, imported)?;
        let of_imports = lowered_imports(alloc, checked, count)?;
        let lowered = Keys::new(alloc, of_imports)?;
        let of_items = lowered_items(alloc, checked, count)?;
        let items = Keys::new(alloc, of_items)?;
        Ok(Names {
            exports,
            imports,
            lowered,
            items,
        })
    }

    /// The number of the export of a name.
    pub(crate) fn export(&self, name: &str) -> Option<usize>
        ensures { (s : Spaces) → AreNamesOf s self.now → result ≡ export_named s name.now }
    {
        self.exports.find(0, name)
    }

    /// The first core function that lowers the import of a name.
    fn lowered_func(&self, name: &str) -> Option<usize>
        ensures { (s : Spaces) → AreNamesOf s self.now → result ≡ lowered_in s None name.now }
    {
        match self.imports.find(0, name) {
            None => None,
            Some(import) => self.lowered.find(import, ""),
        }
    }

    /// The first core function that lowers an item of the import of a name.
    fn lowered_item(&self, interface: &str, name: &str) -> Option<usize>
        ensures { (s : Spaces) → AreNamesOf s self.now
            → result ≡ lowered_in s (Some interface.now) name.now }
    {
        match self.imports.find(0, interface) {
            None => None,
            Some(import) => self.items.find(import, name),
        }
    }

    /// The first core function that lowers what a name names.
    pub(crate) fn lowered(&self, name: FuncName<'_>) -> Option<usize>
        ensures { (s : Spaces) → AreNamesOf s self.now → result
            ≡ lowered_in s (name_parts name.entry).interface (name_parts name.entry).name }
    {
        match name.interface {
            None => self.lowered_func(name.name),
            Some(interface) => self.lowered_item(interface, name.name),
        }
    }
}
