//! What definitions stand for.

ghost use Rattle.std.specs.Prelude.{◌≡◌, IfOk, IfErr, Some, length, map};
ghost use Rattle.std.specs.Option.{option_map};
ghost use Rattle.cm_types.specs.Limits.{IsWithinLimits};
ghost use Rattle.cm_types.specs.Types.{cases, enum_type, flags};
ghost use Rattle.cm_types.specs.TypeTrees.{plain_from};
ghost use Rattle.cm_types_arena.specs.Places.{funcs_of, types_of};
ghost use Rattle.cm_wit_reading.specs.SignatureViews.{typed_tree};
ghost use Rattle.cm_wit_reading.specs.Views.{case_tree, type_def_tree};
ghost use Rattle.cm_wit_meanings.specs.Added.{AddedType};
ghost use Rattle.cm_wit_meanings.specs.Faults.{IsFaultIn};
ghost use Rattle.cm_wit_meanings.specs.Meanings.{case_meaning, def_meaning, each_meaning};
ghost use Rattle.cm_wit_meanings.specs.Meanings.{record_of, typed_meaning, variant_of};
ghost use Rattle.cm_wit_meanings.specs.Places.{ArePlaced, Extends, IsPlaced, meaning_in, scope_in};
ghost use Rattle.cm_wit_meanings.specs.Scopes.{as_type};
ghost use Rattle.cm_wit_meanings.specs.PartsAdded.{AddedDef, named_place};

use crate::members::{push_cases, push_fields};
use crate::{Meaning, MeaningFault, Scope, push, push_type};
use cm_types::{Label, ResourceId};
use cm_types_arena::{TypeDef as ArenaDef, Types};
use cm_wit_reading::{Case, TypeDef, Typed};
use std::alloc::Global;

/// Adds the type of records with these fields, and answers its place.
fn push_record(
    alloc: Global,
    types: &mut Types,
    scope: &Scope<'_, '_>,
    texts: &[Typed],
) -> Result<usize, MeaningFault>
    requires placed { ArePlaced (length (types_of types.old)) scope.now.table.now }
    ensures { AddedType types.old types.new (option_map record_of
        (each_meaning (typed_meaning (scope_in (types_of types.old) scope.now))
        (map typed_tree texts.now))) result }
{
    let fields = push_fields(alloc, types, scope, texts)?;
    push(alloc, types, ArenaDef::Record(fields))
}

/// Adds the type of variants with these cases, and answers its place.
fn push_variant(
    alloc: Global,
    types: &mut Types,
    scope: &Scope<'_, '_>,
    texts: &[Case],
) -> Result<usize, MeaningFault>
    requires placed { ArePlaced (length (types_of types.old)) scope.now.table.now }
    ensures { AddedType types.old types.new (option_map variant_of
        (each_meaning (case_meaning (scope_in (types_of types.old) scope.now))
        (map case_tree texts.now))) result }
{
    let cases = push_cases(alloc, types, scope, texts)?;
    push(alloc, types, ArenaDef::Variant(cases))
}

/// Adds the type of enums with these names, and answers its place.
fn push_enum(alloc: Global, types: &mut Types, names: &Vec<Label>) -> Result<usize, MeaningFault>
    ensures { AddedType types.old types.new
        (Some (cases enum_type (plain_from names.now.items))) result }
{
    let names = names.clone()?;
    push(alloc, types, ArenaDef::Enum(names))
}

/// Adds the type of flags with these names, and answers its place.
fn push_flags(alloc: Global, types: &mut Types, names: &Vec<Label>) -> Result<usize, MeaningFault>
    ensures { AddedType types.old types.new (Some (flags names.now.items)) result }
{
    let names = names.clone()?;
    push(alloc, types, ArenaDef::Flags(names))
}

/// What a name of the type at this place stands for.
fn named_place(place: Result<usize, MeaningFault>) -> Result<Meaning, MeaningFault>
    ensures { result ≡ named_place place }
{
    Ok(Meaning::Value(place?))
}

/// Adds the type that a definition stands for, and the types in it, and answers what its name
/// stands for.
fn define(
    alloc: Global,
    types: &mut Types,
    scope: &Scope<'_, '_>,
    resource: ResourceId,
    text: &TypeDef,
) -> Result<Meaning, MeaningFault>
    requires placed { ArePlaced (length (types_of types.old)) scope.now.table.now }
    ensures { AddedDef types.old types.new (def_meaning (scope_in (types_of types.old) scope.now)
        resource (type_def_tree text.now)) result }
{
    match text {
        TypeDef::Alias(text) => named_place(push_type(alloc, types, scope, text)),
        TypeDef::Record(fields) => named_place(push_record(alloc, types, scope, fields)),
        TypeDef::Variant(cases) => named_place(push_variant(alloc, types, scope, cases)),
        TypeDef::Enum(names) => named_place(push_enum(alloc, types, names)),
        TypeDef::Flags(names) => named_place(push_flags(alloc, types, names)),
        TypeDef::Resource(_) => Ok(Meaning::Resource(resource)),
    }
}

/// Adds the type that a definition stands for, and the types in it, and answers what its name
/// stands for: a type by its place, or, where it defines a resource, the resource that it is given.
///
/// The names in it are looked up in the scope. `NoSuchType` comes where one stands for no type, or
/// that of a borrow for no resource; `TooLarge` where a type would not be within the limits;
/// `NotSpellable` where no file could spell one; and `Memory` where there is no memory. Then some
/// of the types in it may have been added; earlier types stay as they are. It costs the
/// definition's own length and a look-up for each of its names: nothing below them is walked.
pub fn push_def(
    alloc: Global,
    types: &mut Types,
    scope: &Scope<'_, '_>,
    resource: ResourceId,
    text: &TypeDef,
) -> Result<Meaning, MeaningFault>
    requires placed { ArePlaced (length (types_of types.old)) scope.now.table.now }
    ensures there { IfOk result (IsPlaced (length (types_of types.new))) }
    ensures meaning { IfOk result (λ m.
        def_meaning (scope_in (types_of types.old) scope.now) resource (type_def_tree text.now)
        ≡ Some (meaning_in (types_of types.new) m)) }
    ensures within { IfOk result (λ m.
        IsWithinLimits (as_type (meaning_in (types_of types.new) m))) }
    ensures fault { IfErr result (IsFaultIn as_type
        (def_meaning (scope_in (types_of types.old) scope.now) resource (type_def_tree text.now))) }
    ensures grown { Extends (types_of types.old) (types_of types.new) }
    ensures funcs { funcs_of types.new ≡ funcs_of types.old }
{
    define(alloc, types, scope, resource, text)
}
