//! What interfaces have.

ghost use Rattle.std.specs.Prelude.{◌≡◌, ◌+◌, ◌<◌, ◌^◌, ◌++◌, ◌∷◌, ℕ, List, Some, IfOk, OnOk};
ghost use Rattle.std.specs.Prelude.{length, map, slice_get};
ghost use Rattle.std.specs.List.{AllByRecursion};
ghost use Rattle.cm_types_arena.specs.declared.names.Front.{Front};
ghost use Rattle.cm_wit_reading.specs.Views.{interface_item_tree, interface_tree};
ghost use Rattle.cm_wit_reading.specs.Views.{resource_func_tree, type_def_tree, used_name_tree};
ghost use Rattle.cm_wit_tables.specs.Worlds.{used_as};
ghost use Rattle.cm_wit_signature.specs.Members as spec;
ghost use Rattle.cm_wit_signature.specs.Members.{members, members_of, resource_funcs};
ghost use Rattle.cm_wit_signature.specs.MemberViews.{member_view};
ghost use Rattle.cm_wit_signature.specs.Fronts.{AreFronted, IsFronted, func_front, resource_fronts};

use cm_types::Label;
use cm_types_arena::Front;
use cm_wit_reading::{Func, Interface, InterfaceItem, ResourceFunc, TypeDef, UsedName};
use std::alloc::{AllocError, Global};

/// What an interface has of its own under a name.
#[derive(Clone, Copy)]
pub enum Member<'a> {
    /// A used type, by the name that it gets.
    Used(&'a Label),
    /// A type that it defines.
    Declared(&'a Label),
    /// A function of a resource, with the number of its name's front, from 0.
    OfResource {
        resource: &'a Label,
        func: &'a ResourceFunc,
        front: usize,
    },
    Function(&'a Label, &'a Func),
}

/// What an interface has, in the order of its text, and the fronts of its items' names.
#[derive(Drop)]
pub struct Members<'a> {
    pub list: Vec<Member<'a>>,
    pub fronts: Vec<Front>,
}

/// The name that a used type gets.
fn used_as(used: &UsedName) -> &Label
    ensures { result.now ≡ used_as (used_name_tree used.now) }
{
    match &used.new_name {
        Some(new) => new,
        None => &used.name,
    }
}

/// Adds used types.
#[tactic(auto, using(crate::proofs::ItemListLaws::list_laws))]
fn add_used<'a>(out: &mut Vec<Member<'a>>, names: &'a [UsedName]) -> Result<(), AllocError>
    ensures members { OnOk result (map member_view out.new.items ≡ map member_view out.old.items
        ++ map (λ u. spec.used (used_as u)) (map used_name_tree names.now)) }
    ensures fronted { OnOk result ((fronts : List Front)
        → AllByRecursion (IsFronted fronts) out.old.items
        → AllByRecursion (IsFronted fronts) out.new.items) }
{
    for used in names {
        out.push(Member::Used(used_as(used)))?;
    }
    Ok(())
}

/// Adds the fronts of the names of a resource's functions.
fn add_fronts(fronts: &mut Vec<Front>, resource: &Label) -> Result<(), AllocError>
    ensures { OnOk result
        (fronts.new.items ≡ fronts.old.items ++ resource_fronts resource.now) }
{
    fronts.push(Front::Method(resource.clone()?))?;
    fronts.push(Front::Static(resource.clone()?))?;
    fronts.push(Front::Constructor(resource.clone()?))?;
    Ok(())
}

/// The place of the front of a function's name among those of its resource.
fn front_place(func: &ResourceFunc) -> usize
    ensures front { (r : List ℕ) → slice_get (resource_fronts r) result
        ≡ Some (func_front r (resource_func_tree func.now)) }
    ensures few { result < 3 }
{
    match func {
        ResourceFunc::Method(..) => 0,
        ResourceFunc::Static(..) => 1,
        ResourceFunc::Constructor(_) => 2,
    }
}

/// Adds functions of a resource, the fronts of whose names have the numbers from `first` on.
#[tactic(auto, using(crate::proofs::ItemListLaws::list_laws))]
fn add_funcs<'a>(
    out: &mut Vec<Member<'a>>,
    resource: &'a Label,
    funcs: &'a [ResourceFunc],
    first: usize,
) -> Result<(), AllocError>
    requires { first + 3 < 2 ^ 64 }
    ensures members { OnOk result (map member_view out.new.items ≡ map member_view out.old.items
        ++ map (spec.of_resource resource.now) (map resource_func_tree funcs.now)) }
    ensures fronted { OnOk result ((before : List Front) → length before ≡ first
        → AllByRecursion (IsFronted (before ++ resource_fronts resource.now)) out.old.items
        → AllByRecursion (IsFronted (before ++ resource_fronts resource.now)) out.new.items) }
{
    for func in funcs {
        out.push(Member::OfResource {
            resource,
            func,
            front: first + front_place(func),
        })?;
    }
    Ok(())
}

/// Adds the functions of a resource, and the fronts of their names.
fn add_resource<'a>(
    out: &mut Members<'a>,
    resource: &'a Label,
    funcs: &'a [ResourceFunc],
) -> Result<(), AllocError>
    ensures members { OnOk result (map member_view out.new.list.items
        ≡ map member_view out.old.list.items
        ++ map (spec.of_resource resource.now) (map resource_func_tree funcs.now)) }
    ensures fronted { OnOk result (AreFronted out.old.fronts.items out.old.list.items
        → AreFronted out.new.fronts.items out.new.list.items) }
{
    let first = out.fronts.len();
    add_fronts(&mut out.fronts, resource)?;
    add_funcs(&mut out.list, resource, funcs, first)
}

/// Adds a type that is defined, and its functions, where it is a resource.
fn add_defined<'a>(
    out: &mut Members<'a>,
    name: &'a Label,
    definition: &'a TypeDef,
) -> Result<(), AllocError>
    ensures members { OnOk result (map member_view out.new.list.items
        ≡ map member_view out.old.list.items ++ spec.declared name.now
        ∷ map (spec.of_resource name.now) (resource_funcs (type_def_tree definition.now))) }
    ensures fronted { OnOk result (AreFronted out.old.fronts.items out.old.list.items
        → AreFronted out.new.fronts.items out.new.list.items) }
{
    out.list.push(Member::Declared(name))?;
    if let TypeDef::Resource(funcs) = definition {
        add_resource(out, name, funcs)?;
    }
    Ok(())
}

/// Adds what an item has.
fn add_item<'a>(out: &mut Members<'a>, item: &'a InterfaceItem) -> Result<(), AllocError>
    ensures members { OnOk result (map member_view out.new.list.items
        ≡ map member_view out.old.list.items ++ members_of (interface_item_tree item.now)) }
    ensures fronted { OnOk result (AreFronted out.old.fronts.items out.old.list.items
        → AreFronted out.new.fronts.items out.new.list.items) }
{
    match item {
        InterfaceItem::Use(used) => add_used(&mut out.list, &used.names)?,
        InterfaceItem::Type(name, definition) => add_defined(out, name, definition)?,
        InterfaceItem::Func(name, func) => out.list.push(Member::Function(name, func))?,
    }
    Ok(())
}

/// What an interface has, in the order of its text: a resource stands before its functions. The
/// fronts are that of labels alone, and those of each resource. Refused only where there is no
/// memory.
#[tactic(auto, using(crate::proofs::ItemListLaws::list_laws))]
pub fn interface_members<'a>(
    alloc: Global,
    interface: &'a Interface,
) -> Result<Members<'a>, AllocError>
    ensures members { IfOk result (λ m.
        map member_view m.list.items ≡ members (interface_tree interface.now)) }
    ensures fronted { IfOk result (λ m. AreFronted m.fronts.items m.list.items) }
{
    let list = Vec::new(alloc);
    let mut fronts = Vec::new(alloc);
    fronts.push(Front::Plain)?;
    let mut out = Members { list, fronts };
    for item in &interface.items {
        add_item(&mut out, item)?;
    }
    Ok(out)
}
