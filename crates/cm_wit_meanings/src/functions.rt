//! What functions stand for.

ghost use Rattle.std.specs.Prelude.{◌≡◌, ◌<◌, IfOk, IfErr, Some, codes, length, map};
ghost use Rattle.std.specs.Option.{option_map};
ghost use Rattle.cm_types_arena.specs.Places.{HasFuncParts, funcs_of, types_of};
ghost use Rattle.cm_types_arena.specs.TypeDefs.{func_at, func_def_type};
ghost use Rattle.cm_wit_reading.specs.SignatureViews.{func_tree, typed_tree};
ghost use Rattle.cm_wit_reading.specs.Trees.{constructor};
ghost use Rattle.cm_wit_reading.specs.Views.{resource_func_tree};
ghost use Rattle.cm_wit_meanings.specs.Faults.{IsFuncFault, IsFuncWithin};
ghost use Rattle.cm_wit_meanings.specs.Meanings.{func_meaning, resource_func_meaning, with_self};
ghost use Rattle.cm_wit_meanings.specs.Places.{ArePlaced, Extends, scope_in};
ghost use Rattle.cm_wit_meanings.specs.PartsAdded.{AddedFunc};

use crate::members::{push_fields, push_result};
use crate::{MeaningFault, Scope, push};
use cm_types::{Label, ResourceId};
use cm_types_arena::{DefFault, FieldDef, FuncDef, TypeDef, Types};
use cm_wit_reading::{Func, ResourceFunc, Typed};
use std::alloc::{AllocError, Global};

/// Adds the type of a function whose types stand in the arena, and answers its place among those of
/// functions.
#[tactic(auto, using(crate::proofs::FuncLaws::push_laws))]
fn push_func_def(alloc: Global, types: &mut Types, def: FuncDef) -> Result<usize, MeaningFault>
    requires parts { HasFuncParts (length (types_of types.old)) def }
    ensures there { IfOk result (λ p. p < length (funcs_of types.new)) }
    ensures ty { IfOk result (λ p.
        func_at (funcs_of types.new) p ≡ func_def_type (types_of types.old) def) }
    ensures within { IfOk result (λ p. IsFuncWithin (func_at (funcs_of types.new) p)) }
    ensures fault { IfErr result (IsFuncFault (Some (func_def_type (types_of types.old) def))) }
    ensures types { types_of types.new ≡ types_of types.old }
    ensures grown { Extends (funcs_of types.old) (funcs_of types.new) }
{
    match types.push_func(alloc, def) {
        Ok(place) => Ok(place),
        Err(DefFault::TooLarge) => Err(MeaningFault::TooLarge),
        Err(DefFault::NotSpellable) => unreachable!(),
        Err(DefFault::Memory) => Err(MeaningFault::Memory),
    }
}

/// Adds the types in a function, and answers these with their places.
fn func_def(
    alloc: Global,
    types: &mut Types,
    scope: &Scope<'_, '_>,
    text: &Func,
) -> Result<FuncDef, MeaningFault>
    requires placed { ArePlaced (length (types_of types.old)) scope.now.table.now }
    ensures { AddedFunc types.old types.new
        (func_meaning (scope_in (types_of types.old) scope.now) (func_tree text.now)) result }
{
    let params = push_fields(alloc, types, scope, &text.params)?;
    let answer = push_result(alloc, types, scope, &text.result)?;
    Ok(FuncDef {
        params,
        result: answer,
    })
}

/// Adds the type of a function, and the types in it, and answers its place among those of
/// functions.
///
/// The names in it are looked up in the scope. `NoSuchType` comes where one stands for no type, or
/// that of a borrow for no resource; `TooLarge` where a type in it, or its parameters as the fields
/// of a tuple, would not be within the limits; `NotSpellable` where no file could spell a type in
/// it; and `Memory` where there is no memory. Then some of the types in it may have been added;
/// earlier types, and those of functions, stay as they are. It costs the function's own length and
/// a look-up for each of its names: nothing below them is walked.
pub fn push_func(
    alloc: Global,
    types: &mut Types,
    scope: &Scope<'_, '_>,
    text: &Func,
) -> Result<usize, MeaningFault>
    requires placed { ArePlaced (length (types_of types.old)) scope.now.table.now }
    ensures there { IfOk result (λ p. p < length (funcs_of types.new)) }
    ensures meaning { IfOk result (λ p.
        func_meaning (scope_in (types_of types.old) scope.now) (func_tree text.now)
        ≡ Some (func_at (funcs_of types.new) p)) }
    ensures within { IfOk result (λ p. IsFuncWithin (func_at (funcs_of types.new) p)) }
    ensures fault { IfErr result (IsFuncFault
        (func_meaning (scope_in (types_of types.old) scope.now) (func_tree text.now))) }
    ensures grown { Extends (types_of types.old) (types_of types.new) }
    ensures funcs { Extends (funcs_of types.old) (funcs_of types.new) }
{
    let def = func_def(alloc, types, scope, text)?;
    push_func_def(alloc, types, def)
}

/// The name of the parameter that is the resource.
fn self_label(alloc: Global) -> Result<Label, AllocError>
    ensures { IfOk result (λ label. label ≡ codes "self") }
{
    match Label::parse(alloc, "self") {
        Ok(label) => Ok(label),
        Err(_) => Err(AllocError),
    }
}

/// The function with a first parameter `self`, the borrowed resource.
fn with_self(
    alloc: Global,
    types: &mut Types,
    resource: ResourceId,
    def: FuncDef,
) -> Result<FuncDef, MeaningFault>
    requires parts { HasFuncParts (length (types_of types.old)) def }
    ensures { AddedFunc types.old types.new
        (Some (with_self resource (func_def_type (types_of types.old) def))) result }
{
    let label = self_label(alloc)?;
    let ty = push(alloc, types, TypeDef::Borrow(resource))?;
    let FuncDef {
        mut params,
        result: answer,
    } = def;
    if params.insert(0, FieldDef { label, ty }).is_err() {
        return Err(MeaningFault::Memory);
    }
    Ok(FuncDef {
        params,
        result: answer,
    })
}

/// Adds the types in a method, and answers these with their places.
fn method_def(
    alloc: Global,
    types: &mut Types,
    scope: &Scope<'_, '_>,
    resource: ResourceId,
    text: &Func,
) -> Result<FuncDef, MeaningFault>
    requires placed { ArePlaced (length (types_of types.old)) scope.now.table.now }
    ensures { AddedFunc types.old types.new (option_map (with_self resource)
        (func_meaning (scope_in (types_of types.old) scope.now) (func_tree text.now))) result }
{
    let def = func_def(alloc, types, scope, text)?;
    with_self(alloc, types, resource, def)
}

/// Adds the types in a constructor with these parameters, and answers these with their places.
fn constructor_def(
    alloc: Global,
    types: &mut Types,
    scope: &Scope<'_, '_>,
    resource: ResourceId,
    texts: &[Typed],
) -> Result<FuncDef, MeaningFault>
    requires placed { ArePlaced (length (types_of types.old)) scope.now.table.now }
    ensures { AddedFunc types.old types.new
        (resource_func_meaning (scope_in (types_of types.old) scope.now) resource
        (constructor (map typed_tree texts.now))) result }
{
    let params = push_fields(alloc, types, scope, texts)?;
    let place = push(alloc, types, TypeDef::Own(resource))?;
    Ok(FuncDef {
        params,
        result: Some(place),
    })
}

/// Adds the types in a function of a resource, and answers these with their places.
fn resource_func_def(
    alloc: Global,
    types: &mut Types,
    scope: &Scope<'_, '_>,
    resource: ResourceId,
    text: &ResourceFunc,
) -> Result<FuncDef, MeaningFault>
    requires placed { ArePlaced (length (types_of types.old)) scope.now.table.now }
    ensures { AddedFunc types.old types.new
        (resource_func_meaning (scope_in (types_of types.old) scope.now) resource
        (resource_func_tree text.now)) result }
{
    match text {
        ResourceFunc::Method(_, func) => method_def(alloc, types, scope, resource, func),
        ResourceFunc::Static(_, func) => func_def(alloc, types, scope, func),
        ResourceFunc::Constructor(params) => {
            constructor_def(alloc, types, scope, resource, params)
        }
    }
}

/// Adds the type of a function of a resource, and the types in it, and answers its place among
/// those of functions. A method has a first parameter `self`, the borrowed resource, and a
/// constructor answers a handle that owns it.
///
/// Faults come as those of `push_func`.
pub fn push_resource_func(
    alloc: Global,
    types: &mut Types,
    scope: &Scope<'_, '_>,
    resource: ResourceId,
    text: &ResourceFunc,
) -> Result<usize, MeaningFault>
    requires placed { ArePlaced (length (types_of types.old)) scope.now.table.now }
    ensures there { IfOk result (λ p. p < length (funcs_of types.new)) }
    ensures meaning { IfOk result (λ p.
        resource_func_meaning (scope_in (types_of types.old) scope.now) resource
        (resource_func_tree text.now) ≡ Some (func_at (funcs_of types.new) p)) }
    ensures within { IfOk result (λ p. IsFuncWithin (func_at (funcs_of types.new) p)) }
    ensures fault { IfErr result (IsFuncFault
        (resource_func_meaning (scope_in (types_of types.old) scope.now) resource
        (resource_func_tree text.now))) }
    ensures grown { Extends (types_of types.old) (types_of types.new) }
    ensures funcs { Extends (funcs_of types.old) (funcs_of types.new) }
{
    let def = resource_func_def(alloc, types, scope, resource, text)?;
    push_func_def(alloc, types, def)
}
