//! Copies of items in which each index of a type is replaced by its place in the plain component.

ghost use Rattle.std.specs.Prelude.{◌≡◌, ℕ, IfOk, map};
ghost use Rattle.std.specs.Option.{option_map};
ghost use Rattle.cm_types.specs.declared.def_types.CaseType.{CaseType};
ghost use Rattle.cm_types.specs.declared.def_types.LabeledValType.{LabeledValType};
ghost use Rattle.cm_types.specs.declared.def_types.ValType.{ValType};
ghost use Rattle.cm_types.specs.DefTypes.{DeclarationTree, declaration_tree, def_type_tree};
ghost use Rattle.cm_types.specs.DefTypes.{def_val_type_tree, func_type_tree, DefTypeTree};
ghost use Rattle.cm_types.specs.DefTypes.{declared_type_tree};
ghost use Rattle.cm_binary_model.specs.declared.instances.InlineExport.{InlineExport};
ghost use Rattle.cm_binary_model.specs.Trees.{AliasTree, CanonTree, alias_tree, canon_tree};
ghost use Rattle.cm_shims_plain.specs.Renumbered.{copied, renumbered_alias, renumbered_canon};
ghost use Rattle.cm_shims_plain.specs.Renumbered.{renumbered_case, renumbered_index};
ghost use Rattle.cm_shims_plain.specs.Renumbered.{renumbered_declaration, renumbered_def};
ghost use Rattle.cm_shims_plain.specs.Renumbered.{renumbered_export, renumbered_field};
ghost use Rattle.cm_shims_plain.specs.Renumbered.{renumbered_func};
ghost use Rattle.cm_shims_plain.specs.Renumbered.{renumbered_outer, renumbered_val};
ghost use Rattle.cm_shims_plain.specs.Renumbered.{renumbered_value};
ghost use Rattle.cm_shims_plain.specs.Spaces.{place, types_of};

use crate::spaces::TypeSpace;
use cm_binary_model::{Alias, Canon, InlineExport, InstanceExportSort};
use cm_types::{
    CaseType, Declaration, DefType, DefValType, FuncType, LabeledValType, OuterType, ValType,
};
use std::alloc::{AllocError, Global};

/// An item that is copied with other indices of types.
pub(crate) trait Renumbered: Drop + Sized {
    // An item as contracts see it.
    ghost Tree: { Type 0 };

    ghost tree: { Self → Tree };

    // The item with other indices of types.
    ghost by: { (ℕ → ℕ) → Tree → Tree };

    /// The item with the places of its types in place of their indices. `AllocError` comes where
    /// there is no memory for it.
    fn renumbered(&self, alloc: Global, types: &TypeSpace) -> Result<Self, AllocError>
        ensures { IfOk result (λ x. tree x ≡ by (place (types_of types.now)) (tree self.now)) };
}

/// The items with the places of their types in place of their indices.
pub(crate) fn renumbered_all<T: Renumbered>(
    alloc: Global,
    items: &[T],
    types: &TypeSpace,
) -> Result<Vec<T>, AllocError>
    ensures { IfOk result (λ v. map T.tree v.items
        ≡ map (T.by (place (types_of types.now))) (map T.tree items.now)) }
{
    let mut copies = Vec::new(alloc);
    for item in items {
        copies.push(item.renumbered(alloc, types)?)?;
    }
    Ok(copies)
}

fn renumbered_val(ty: ValType, types: &TypeSpace) -> ValType
    ensures { result ≡ renumbered_val (place (types_of types.now)) ty }
{
    match ty {
        ValType::Primitive(primitive) => ValType::Primitive(primitive),
        ValType::Index(index) => ValType::Index(types.place(index)),
    }
}

fn renumbered_optional(ty: Option<ValType>, types: &TypeSpace) -> Option<ValType>
    ensures { result ≡ option_map (renumbered_val (place (types_of types.now))) ty }
{
    match ty {
        Some(ty) => Some(renumbered_val(ty, types)),
        None => None,
    }
}

impl Renumbered for ValType {
    ghost Tree = { ValType };

    ghost tree = { λ t. t };

    ghost by = { renumbered_val };

    fn renumbered(&self, _alloc: Global, types: &TypeSpace) -> Result<Self, AllocError> {
        Ok(renumbered_val(*self, types))
    }
}

impl Renumbered for LabeledValType {
    ghost Tree = { LabeledValType };

    ghost tree = { λ x. x };

    ghost by = { renumbered_field };

    fn renumbered(&self, _alloc: Global, types: &TypeSpace) -> Result<Self, AllocError> {
        let label = self.label.clone()?;
        let ty = renumbered_val(self.ty, types);
        Ok(LabeledValType { label, ty })
    }
}

impl Renumbered for CaseType {
    ghost Tree = { CaseType };

    ghost tree = { λ x. x };

    ghost by = { renumbered_case };

    fn renumbered(&self, _alloc: Global, types: &TypeSpace) -> Result<Self, AllocError> {
        let label = self.label.clone()?;
        let payload = renumbered_optional(self.payload, types);
        Ok(CaseType { label, payload })
    }
}

fn renumbered_value(
    alloc: Global,
    value: &DefValType,
    types: &TypeSpace,
) -> Result<DefValType, AllocError>
    ensures { IfOk result (λ v. def_val_type_tree v
        ≡ renumbered_value (place (types_of types.now)) (def_val_type_tree value.now)) }
{
    match value {
        DefValType::Primitive(primitive) => Ok(DefValType::Primitive(*primitive)),
        DefValType::Record(fields) => {
            Ok(DefValType::Record(renumbered_all(alloc, fields, types)?))
        }
        DefValType::Variant(cases) => Ok(DefValType::Variant(renumbered_all(alloc, cases, types)?)),
        DefValType::List(element) => Ok(DefValType::List(renumbered_val(*element, types))),
        DefValType::FixedList { element, length } => Ok(DefValType::FixedList {
            element: renumbered_val(*element, types),
            length: *length,
        }),
        DefValType::Tuple(parts) => Ok(DefValType::Tuple(renumbered_all(alloc, parts, types)?)),
        DefValType::Flags(labels) => Ok(DefValType::Flags(labels.clone()?)),
        DefValType::Enum(labels) => Ok(DefValType::Enum(labels.clone()?)),
        DefValType::Option(some) => Ok(DefValType::Option(renumbered_val(*some, types))),
        DefValType::Result { ok, error } => Ok(DefValType::Result {
            ok: renumbered_optional(*ok, types),
            error: renumbered_optional(*error, types),
        }),
        DefValType::Own(resource) => Ok(DefValType::Own(types.place(*resource))),
        DefValType::Borrow(resource) => Ok(DefValType::Borrow(types.place(*resource))),
    }
}

fn renumbered_func(
    alloc: Global,
    func: &FuncType,
    types: &TypeSpace,
) -> Result<FuncType, AllocError>
    ensures { IfOk result (λ f. func_type_tree f
        ≡ renumbered_func (place (types_of types.now)) (func_type_tree func.now)) }
{
    let params = renumbered_all(alloc, &func.params, types)?;
    let result = renumbered_optional(func.result, types);
    Ok(FuncType { params, result })
}

/// A type of a component around, `count` components outwards from the one of these types.
fn renumbered_outer(count: u32, outer: OuterType, types: &TypeSpace) -> OuterType
    ensures { result ≡ renumbered_outer count (place (types_of types.now)) outer }
{
    if outer.count == count {
        OuterType {
            count: outer.count,
            index: types.place(outer.index),
        }
    } else {
        outer
    }
}

/// What the types of instances declare, with the places of these types outside of them.
fn renumbered_declarations(
    alloc: Global,
    declarations: Vec<Declaration>,
    types: &TypeSpace,
) -> Result<Vec<Declaration>, AllocError>
    ensures { IfOk result (λ v. map declaration_tree v.items
        ≡ map (renumbered_declaration (place (types_of types.now)))
        (map declaration_tree declarations.items)) }
{
    let mut copies = Vec::with_capacity(alloc, declarations.len())?;
    for declaration in declarations {
        copies.push(renumbered_declaration(declaration, types))?;
    }
    Ok(copies)
}

fn renumbered_declaration(declaration: Declaration, types: &TypeSpace) -> Declaration
    ensures { declaration_tree result
        ≡ renumbered_declaration (place (types_of types.now)) (declaration_tree declaration) }
{
    match declaration {
        Declaration::Type(ty) => Declaration::Type(ty),
        Declaration::OuterType(outer) => Declaration::OuterType(renumbered_outer(1, outer, types)),
        Declaration::Export(export) => Declaration::Export(export),
    }
}

/// A type definition with the places of its types in place of their indices. `AllocError` comes
/// where there is no memory for it.
pub(crate) fn renumbered_def(
    alloc: Global,
    def: DefType,
    types: &TypeSpace,
) -> Result<DefType, AllocError>
    ensures { IfOk result (λ d. def_type_tree d
        ≡ renumbered_def (place (types_of types.now)) (def_type_tree def)) }
{
    match def {
        DefType::Value(value) => Ok(DefType::Value(renumbered_value(alloc, &value, types)?)),
        DefType::Func(func) => Ok(DefType::Func(renumbered_func(alloc, &func, types)?)),
        DefType::Resource(destructor) => Ok(DefType::Resource(destructor)),
        DefType::Instance(declarations) => Ok(DefType::Instance(renumbered_declarations(
            alloc,
            declarations,
            types,
        )?)),
    }
}

/// A value type or the type of a function, copied with the places of its types in place of their
/// indices; none for another type. `AllocError` comes where there is no memory for it.
pub(crate) fn renumbered_copy(
    alloc: Global,
    def: &DefType,
    types: &TypeSpace,
) -> Result<Option<DefType>, AllocError>
    ensures { IfOk result (λ o. option_map def_type_tree o
        ≡ copied (place (types_of types.now)) (def_type_tree def.now)) }
{
    match def {
        DefType::Value(value) => Ok(Some(DefType::Value(renumbered_value(alloc, value, types)?))),
        DefType::Func(func) => Ok(Some(DefType::Func(renumbered_func(alloc, func, types)?))),
        DefType::Resource(_) | DefType::Instance(_) => Ok(None),
    }
}

/// The index of a definition of a sort: of those that there are only types are renumbered.
fn renumbered_index(sort: InstanceExportSort, index: u32, types: &TypeSpace) -> u32
    ensures { result ≡ renumbered_index (place (types_of types.now)) sort index }
{
    match sort {
        InstanceExportSort::Func => index,
        InstanceExportSort::Type => types.place(index),
    }
}

impl Renumbered for InlineExport {
    ghost Tree = { InlineExport };

    ghost tree = { λ e. e };

    ghost by = { renumbered_export };

    fn renumbered(&self, _alloc: Global, types: &TypeSpace) -> Result<Self, AllocError> {
        let name = self.name.clone()?;
        let sort = self.sort;
        let index = renumbered_index(sort, self.index, types);
        Ok(InlineExport { name, sort, index })
    }
}

/// An alias with the places of these types.
pub(crate) fn renumbered_alias(alias: Alias, types: &TypeSpace) -> Alias
    ensures { alias_tree result
        ≡ renumbered_alias (place (types_of types.now)) (alias_tree alias) }
{
    match alias {
        Alias::InstanceExport {
            sort,
            instance,
            name,
        } => Alias::InstanceExport {
            sort,
            instance,
            name,
        },
        Alias::CoreInstanceExport {
            sort,
            instance,
            name,
        } => Alias::CoreInstanceExport {
            sort,
            instance,
            name,
        },
        Alias::OuterType(outer) => Alias::OuterType(renumbered_outer(0, outer, types)),
    }
}

fn renumbered_canon(canon: Canon, types: &TypeSpace) -> Canon
    ensures { canon_tree result
        ≡ renumbered_canon (place (types_of types.now)) (canon_tree canon) }
{
    match canon {
        Canon::Lift {
            core_func,
            options,
            ty,
        } => Canon::Lift {
            core_func,
            options,
            ty: types.place(ty),
        },
        Canon::Lower { func, options } => Canon::Lower { func, options },
        Canon::ResourceNew { resource } => Canon::ResourceNew {
            resource: types.place(resource),
        },
        Canon::ResourceDrop { resource } => Canon::ResourceDrop {
            resource: types.place(resource),
        },
        Canon::ResourceRep { resource } => Canon::ResourceRep {
            resource: types.place(resource),
        },
    }
}

/// Canonical definitions with the places of these types.
pub(crate) fn renumbered_canons(
    alloc: Global,
    canons: Vec<Canon>,
    types: &TypeSpace,
) -> Result<Vec<Canon>, AllocError>
    ensures { IfOk result (λ v. map canon_tree v.items
        ≡ map (renumbered_canon (place (types_of types.now))) (map canon_tree canons.items)) }
{
    let mut copies = Vec::with_capacity(alloc, canons.len())?;
    for canon in canons {
        copies.push(renumbered_canon(canon, types))?;
    }
    Ok(copies)
}
