//! The names in an item, found in its text.

use crate::adding::put;
use crate::entry::{Entry, What};
use crate::mention::{Mention, Role};
use cm_types::Label;
use cm_wit_projects_reading::{Include, Kept, ResourceItem, TypeItem};
use cm_wit_reading::{Case, Func, Path, ResourceFunc, TypeDef, Typed, Use, UsedName, WitType};
use std::alloc::{AllocError, Global};

/// Adds the names of a type.
#[cycle(types)]
fn add_type<'a>(out: &mut Vec<Mention<'a>>, role: Role, ty: &'a WitType) -> Result<(), AllocError> {
    match ty {
        WitType::Primitive(_) => Ok(()),
        WitType::Named(name) => put(out, Mention::other(role, name.as_str())),
        WitType::Borrow(name) => put(out, Mention::other(Role::Borrowed, name.as_str())),
        WitType::List(element) => add_type(out, role, element),
        WitType::FixedList { element, .. } => add_type(out, role, element),
        WitType::Option(payload) => add_type(out, role, payload),
        WitType::Tuple(types) => add_types(out, role, types),
        WitType::Result { ok, error } => {
            add_payload(out, role, ok)?;
            add_payload(out, role, error)
        }
    }
}

#[cycle(types)]
fn add_payload<'a>(
    out: &mut Vec<Mention<'a>>,
    role: Role,
    ty: &'a Option<Box<WitType>>,
) -> Result<(), AllocError> {
    match ty {
        Some(ty) => add_type(out, role, ty),
        None => Ok(()),
    }
}

#[cycle(types)]
fn add_types<'a>(
    out: &mut Vec<Mention<'a>>,
    role: Role,
    types: &'a [WitType],
) -> Result<(), AllocError> {
    for ty in types {
        add_type(out, role, ty)?;
    }
    Ok(())
}

/// Adds the names of fields or parameters, and those of their types.
fn add_typed<'a>(out: &mut Vec<Mention<'a>>, list: &'a [Typed]) -> Result<(), AllocError> {
    for typed in list {
        put(out, Mention::other(Role::Member, typed.name.as_str()))?;
        add_type(out, Role::Named, &typed.ty)?;
    }
    Ok(())
}

fn add_case<'a>(out: &mut Vec<Mention<'a>>, case: &'a Case) -> Result<(), AllocError> {
    put(out, Mention::other(Role::Member, case.name.as_str()))?;
    add_payload(out, Role::Named, &case.ty)
}

fn add_cases<'a>(out: &mut Vec<Mention<'a>>, cases: &'a [Case]) -> Result<(), AllocError> {
    for case in cases {
        add_case(out, case)?;
    }
    Ok(())
}

fn add_members<'a>(out: &mut Vec<Mention<'a>>, names: &'a [Label]) -> Result<(), AllocError> {
    for name in names {
        put(out, Mention::other(Role::Member, name.as_str()))?;
    }
    Ok(())
}

fn add_func<'a>(out: &mut Vec<Mention<'a>>, func: &'a Func) -> Result<(), AllocError> {
    add_typed(out, &func.params)?;
    match &func.result {
        Some(ty) => add_type(out, Role::Answered, ty),
        None => Ok(()),
    }
}

fn add_kept_func<'a>(out: &mut Vec<Mention<'a>>, func: &'a Kept<Func>) -> Result<(), AllocError> {
    match func {
        Kept::Read(func) => add_func(out, func),
        Kept::LeftOut(_) => Ok(()),
    }
}

fn add_def<'a>(out: &mut Vec<Mention<'a>>, def: &'a TypeDef) -> Result<(), AllocError> {
    match def {
        TypeDef::Alias(ty) => add_type(out, Role::Named, ty),
        TypeDef::Record(fields) => add_typed(out, fields),
        TypeDef::Variant(cases) => add_cases(out, cases),
        TypeDef::Enum(names) => add_members(out, names),
        TypeDef::Flags(names) => add_members(out, names),
        TypeDef::Resource(_) => Ok(()),
    }
}

fn add_type_item<'a>(out: &mut Vec<Mention<'a>>, item: &'a TypeItem) -> Result<(), AllocError> {
    match item {
        TypeItem::Def(Kept::Read(def)) => add_def(out, def),
        TypeItem::Def(Kept::LeftOut(_)) => Ok(()),
        TypeItem::Resource(_) => Ok(()),
    }
}

/// Adds the names of a function of a resource; a constructor is one by the word for it.
fn add_resource_func<'a>(
    out: &mut Vec<Mention<'a>>,
    func: &'a ResourceFunc,
) -> Result<(), AllocError> {
    match func {
        ResourceFunc::Method(name, func) => {
            put(out, Mention::other(Role::Method, name.as_str()))?;
            add_func(out, func)
        }
        ResourceFunc::Static(name, func) => {
            put(out, Mention::other(Role::Method, name.as_str()))?;
            add_func(out, func)
        }
        ResourceFunc::Constructor(params) => {
            put(out, Mention::other(Role::Method, "constructor"))?;
            add_typed(out, params)
        }
    }
}

fn add_method<'a>(out: &mut Vec<Mention<'a>>, item: &'a ResourceItem) -> Result<(), AllocError> {
    match item {
        ResourceItem::Read(func) => add_resource_func(out, func),
        ResourceItem::LeftOut {
            name: Some(name),
            ..
        } => { put(out, Mention::other(Role::Method, name.as_str())) }
        ResourceItem::LeftOut { name: None, .. } => {
            put(out, Mention::other(Role::Method, "constructor"))
        }
    }
}

/// Adds the names of a path.
pub fn add_path<'a>(out: &mut Vec<Mention<'a>>, path: &'a Path) -> Result<(), AllocError> {
    match path {
        Path::Local(name) => put(out, Mention::other(Role::Path, name.as_str())),
        Path::Foreign {
            namespace,
            package,
            interface,
            ..
        } => {
            put(out, Mention::other(Role::Path, namespace.as_str()))?;
            put(out, Mention::other(Role::Path, package.as_str()))?;
            put(out, Mention::other(Role::Path, interface.as_str()))
        }
    }
}

fn add_used<'a>(out: &mut Vec<Mention<'a>>, used: &'a UsedName) -> Result<(), AllocError> {
    match &used.new_name {
        Some(new_name) => {
            put(out, Mention::other(Role::Used, used.name.as_str()))?;
            put(out, Mention::given(Role::UsedAs, new_name.as_str()))
        }
        None => put(out, Mention::given(Role::Used, used.name.as_str())),
    }
}

fn add_use<'a>(out: &mut Vec<Mention<'a>>, used: &'a Use) -> Result<(), AllocError> {
    add_path(out, &used.path)?;
    for name in &used.names {
        add_used(out, name)?;
    }
    Ok(())
}

fn add_include<'a>(out: &mut Vec<Mention<'a>>, include: &'a Include) -> Result<(), AllocError> {
    add_path(out, &include.path)?;
    for renamed in &include.renamed {
        put(out, Mention::other(Role::Included, renamed.name.as_str()))?;
        put(
            out,
            Mention::other(Role::IncludedAs, renamed.new_name.as_str()),
        )?;
    }
    Ok(())
}

/// Adds the names of an item.
fn add_entry<'a>(out: &mut Vec<Mention<'a>>, entry: &Entry<'a>) -> Result<(), AllocError> {
    match entry.what {
        What::Use(used) => add_use(out, used),
        What::Type(name, item) => {
            put(out, Mention::given(Role::Own, name.as_str()))?;
            add_type_item(out, item)
        }
        What::Method(_, item) => add_method(out, item),
        What::Func(name, func) => {
            put(out, Mention::given(Role::Own, name.as_str()))?;
            add_kept_func(out, func)
        }
        What::Path(path) => add_path(out, path),
        What::Inner(name, _) => put(out, Mention::given(Role::Own, name.as_str())),
        What::Include(include) => add_include(out, include),
    }
}

/// The names in an item, in the order in which they stand: so the place of each in the list is its
/// number from the item's first token on. Refused only where there is no memory.
pub fn mentions_of<'a>(alloc: Global, entry: &Entry<'a>) -> Result<Vec<Mention<'a>>, AllocError> {
    let mut out = Vec::new(alloc);
    add_entry(&mut out, entry)?;
    Ok(out)
}
