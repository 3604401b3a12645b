//! The mentions in interfaces.

ghost use Rattle.std.specs.Prelude.{◌≡◌, OnOk, map};
ghost use Rattle.cm_wit_reading.specs.Views.{interface_item_tree, interface_tree};
ghost use Rattle.cm_wit_reading.specs.Views.{resource_func_tree};
ghost use Rattle.cm_wit_reading.specs.Views.{type_def_tree, use_tree, used_name_tree};
ghost use Rattle.cm_wit_reading.specs.SignatureViews.{path_tree};
ghost use Rattle.cm_wit_names.specs.FileMentions.{def_marks, interface_item_marks};
ghost use Rattle.cm_wit_names.specs.FileMentions.{interface_marks, is_foreign, is_resource};
ghost use Rattle.cm_wit_names.specs.FileMentions.{item};
ghost use Rattle.cm_wit_names.specs.FileMentions.{path_marks, resource_func_marks, type_item};
ghost use Rattle.cm_wit_names.specs.FileMentions.{as_param, used_from, used_marks};
ghost use Rattle.cm_wit_names.specs.Marks.{each, one};
ghost use Rattle.cm_wit_names.specs.MentionViews.{Adds, full_name, mention_view};
ghost use Rattle.cm_wit_names.specs.MentionViews.{reference_view};

use crate::adding::{add, bare, declaring};
use crate::func_mentions::{add_cases, add_func, add_labels, add_typed};
use crate::mention::{FullName, Mention, Place, Reference};
use crate::scope::Scope;
use crate::type_mentions::add_type;
use cm_types::Label;
use cm_wit_reading::{Interface, InterfaceItem, Path, ResourceFunc, TypeDef, Use, UsedName};
use std::alloc::AllocError;

/// An item of an interface.
fn item<'a>(scope: Scope, name: FullName<'a>) -> Mention<'a>
    ensures { mention_view result ≡ item scope.number (full_name name.entry) }
{
    declaring(scope.list(), name)
}

/// A type of an interface.
fn type_item<'a>(scope: Scope, name: &'a Label) -> Mention<'a>
    ensures { mention_view result ≡ type_item scope.number name.now }
{
    let known = Some((scope.number, name));
    Mention {
        known,
        ..item(scope, FullName::Label(name))
    }
}

/// Adds a function of a resource, told apart among those of the resource.
#[tactic(auto, using(crate::proofs::AddLaws::add_laws))]
fn add_resource_func<'a>(
    out: &mut Vec<Mention<'a>>,
    scope: Scope,
    resource: Scope,
    func: &'a ResourceFunc,
) -> Result<(), AllocError>
    ensures { OnOk result
        (Adds (resource_func_marks scope.number resource.number (resource_func_tree func.now))
        out.old out.new) }
{
    match func {
        ResourceFunc::Method(name, func) => {
            add(out, item(resource, FullName::Method(name)))?;
            add_func(out, true, scope.number, func)?;
            Ok(())
        }
        ResourceFunc::Static(name, func) => {
            add(out, item(resource, FullName::Static(name)))?;
            add_func(out, false, scope.number, func)?;
            Ok(())
        }
        ResourceFunc::Constructor(params) => {
            add(out, item(resource, FullName::Constructor))?;
            add_typed(out, false, as_param(scope), params)?;
            Ok(())
        }
    }
}

/// Where the parameters of an interface's functions stand.
fn as_param(scope: Scope) -> Place
    ensures { result ≡ as_param scope.number }
{
    Place {
        scope: scope.number,
        owner: None,
        in_result: false,
    }
}

/// Adds the functions of a resource.
#[tactic(auto, using(crate::proofs::AddLaws::add_laws))]
fn add_resource_funcs<'a>(
    out: &mut Vec<Mention<'a>>,
    scope: Scope,
    resource: Scope,
    funcs: &'a [ResourceFunc],
) -> Result<(), AllocError>
    ensures { OnOk result (Adds
        (each (resource_func_marks scope.number resource.number) (map resource_func_tree funcs.now))
        out.old out.new) }
{
    for func in funcs {
        add_resource_func(out, scope, resource, func)?;
    }
    Ok(())
}

/// Adds what stands behind the name of a type, given by the number of its name.
#[tactic(auto, using(crate::proofs::AddLaws::add_laws))]
fn add_def<'a>(
    out: &mut Vec<Mention<'a>>,
    scope: Scope,
    owner: Scope,
    def: &'a TypeDef,
) -> Result<(), AllocError>
    ensures { OnOk result
        (Adds (def_marks scope.number owner.number (type_def_tree def.now)) out.old out.new) }
{
    let place = Place {
        scope: scope.number,
        owner: Some(owner.number),
        in_result: false,
    };
    match def {
        TypeDef::Alias(ty) => add_type(out, place, ty),
        TypeDef::Record(fields) => add_typed(out, false, place, fields),
        TypeDef::Variant(cases) => add_cases(out, place, cases),
        TypeDef::Enum(names) | TypeDef::Flags(names) => add_labels(out, names),
        TypeDef::Resource(funcs) => add_resource_funcs(out, scope, owner, funcs),
    }
}

/// Adds the path of a `use`.
#[tactic(auto, using(crate::proofs::AddLaws::add_laws))]
fn add_path<'a>(out: &mut Vec<Mention<'a>>, scope: Scope, path: &'a Path) -> Result<(), AllocError>
    ensures { OnOk result (Adds (path_marks scope.number (path_tree path.now)) out.old out.new) }
{
    match path {
        Path::Local(name) => {
            let mention = Mention {
                refers: Reference::Interface(name),
                owner: Some(scope.number),
                ..bare()
            };
            add(out, mention)?;
            Ok(())
        }
        Path::Foreign { .. } => {
            add(out, bare())?;
            add(out, bare())?;
            add(out, bare())?;
            Ok(())
        }
    }
}

/// What a used name refers to: what a foreign interface has is not known here.
fn used_from<'a>(path: &'a Path, name: &'a Label) -> Reference<'a>
    ensures { reference_view result ≡ used_from (path_tree path.now) name.now }
{
    match path {
        Path::Local(interface) => Reference::Used { interface, name },
        Path::Foreign { .. } => Reference::Nothing,
    }
}

fn is_foreign(path: &Path) -> bool
    ensures { result ≡ is_foreign (path_tree path.now) }
{
    matches!(path, Path::Foreign { .. })
}

/// Adds a used name, and its new name where it has one.
#[tactic(auto, using(crate::proofs::AddLaws::add_laws))]
fn add_used<'a>(
    out: &mut Vec<Mention<'a>>,
    scope: Scope,
    path: &'a Path,
    used: &'a UsedName,
) -> Result<(), AllocError>
    ensures { OnOk result
        (Adds (used_marks scope.number (path_tree path.now) used.now.name used.now.new_name)
        out.old out.new) }
{
    let refers = used_from(path, &used.name);
    let may_be_resource = is_foreign(path);
    let number = Scope::next(out).number;
    match &used.new_name {
        None => {
            let mention = Mention {
                refers,
                owner: Some(number),
                may_be_resource,
                ..type_item(scope, &used.name)
            };
            add(out, mention)?;
            Ok(())
        }
        Some(new_name) => {
            let mention = Mention {
                refers,
                owner: Some(number + 1),
                ..bare()
            };
            add(out, mention)?;
            let mention = Mention {
                may_be_resource,
                ..type_item(scope, new_name)
            };
            add(out, mention)?;
            Ok(())
        }
    }
}

/// Adds used names.
#[tactic(auto, using(crate::proofs::AddLaws::add_laws))]
fn add_used_names<'a>(
    out: &mut Vec<Mention<'a>>,
    scope: Scope,
    path: &'a Path,
    names: &'a [UsedName],
) -> Result<(), AllocError>
    ensures { OnOk result (Adds
        (each (λ x. used_marks scope.number (path_tree path.now) x.name x.new_name)
        (map used_name_tree names.now)) out.old out.new) }
{
    for used in names {
        add_used(out, scope, path, used)?;
    }
    Ok(())
}

/// Adds an item of an interface.
#[tactic(auto, using(crate::proofs::AddLaws::add_laws))]
fn add_item<'a>(
    out: &mut Vec<Mention<'a>>,
    scope: Scope,
    item: &'a InterfaceItem,
) -> Result<(), AllocError>
    ensures { OnOk result
        (Adds (interface_item_marks scope.number (interface_item_tree item.now)) out.old out.new) }
{
    match item {
        InterfaceItem::Use(Use { path, names }) => {
            add_path(out, scope, path)?;
            add_used_names(out, scope, path, names)?;
            Ok(())
        }
        InterfaceItem::Type(name, def) => {
            let own = Scope::next(out);
            let mention = Mention {
                may_be_resource: matches!(def, TypeDef::Resource(_)),
                ..type_item(scope, name)
            };
            add(out, mention)?;
            add_def(out, scope, own, def)?;
            Ok(())
        }
        InterfaceItem::Func(name, func) => {
            let mention = self::item(scope, FullName::Label(name));
            add(out, mention)?;
            add_func(out, false, scope.number, func)?;
            Ok(())
        }
    }
}

/// Adds the items of an interface.
#[tactic(auto, using(crate::proofs::AddLaws::add_laws))]
fn add_items<'a>(
    out: &mut Vec<Mention<'a>>,
    scope: Scope,
    items: &'a [InterfaceItem],
) -> Result<(), AllocError>
    ensures { OnOk result (Adds
        (each (interface_item_marks scope.number) (map interface_item_tree items.now))
        out.old out.new) }
{
    for item in items {
        add_item(out, scope, item)?;
    }
    Ok(())
}

/// Adds an interface.
#[tactic(auto, using(crate::proofs::AddLaws::add_laws))]
pub fn add_interface<'a>(
    out: &mut Vec<Mention<'a>>,
    interface: &'a Interface,
) -> Result<(), AllocError>
    ensures { OnOk result
        (Adds (interface_marks (interface_tree interface.now)) out.old out.new) }
{
    let scope = Scope::next(out);
    let name = &interface.name;
    let mention = Mention {
        known: Some((0, name)),
        ..declaring(0, FullName::Label(name))
    };
    add(out, mention)?;
    add_items(out, scope, &interface.items)?;
    Ok(())
}
