//! The types that type texts stand for.

ghost use Rattle.std.specs.Prelude.{◌≡◌, ◌<◌, IfOk, IfErr, Some, length, map};
ghost use Rattle.cm_types.specs.Limits.{IsWithinLimits};
ghost use Rattle.cm_types_arena.specs.Places.{funcs_of, types_of};
ghost use Rattle.cm_types_arena.specs.TypeDefs.{type_at};
ghost use Rattle.cm_wit_reading.specs.Types.{borrow, named, types_from};
ghost use Rattle.cm_wit_reading.specs.TypeViews.{payload_tree, type_tree};
ghost use Rattle.cm_wit_meanings.specs.Added.{AddedParts, AddedPayload, AddedType};
ghost use Rattle.cm_wit_meanings.specs.Faults.{IsTypeFault};
ghost use Rattle.cm_wit_meanings.specs.Meanings.{meaning, meanings, payload_meaning};
ghost use Rattle.cm_wit_meanings.specs.Places.{ArePlaced, Extends, scope_in};

use crate::fault::MeaningFault;
use crate::primitives::primitive;
use crate::pushing::add;
use crate::scope::{Meaning, Scope};
use cm_types_arena::{TypeDef, Types};
use cm_wit_reading::WitType;
use std::alloc::Global;

/// The place of the type that a name stands for.
fn push_named(
    alloc: Global,
    types: &mut Types,
    scope: &Scope<'_, '_>,
    name: &str,
) -> Result<usize, MeaningFault>
    requires placed { ArePlaced (length (types_of types.old)) scope.now.table.now }
    ensures { AddedType types.old types.new
        (meaning (scope_in (types_of types.old) scope.now) (named name.now)) result }
{
    match scope.find(name) {
        Some(Meaning::Value(place)) => Ok(place),
        Some(Meaning::Resource(resource)) => add(alloc, types, TypeDef::Own(resource)),
        None => Err(MeaningFault::NoSuchType),
    }
}

/// The place of the type of the borrowed resource that a name stands for.
fn push_borrow(
    alloc: Global,
    types: &mut Types,
    scope: &Scope<'_, '_>,
    name: &str,
) -> Result<usize, MeaningFault>
    ensures { AddedType types.old types.new
        (meaning (scope_in (types_of types.old) scope.now) (borrow name.now)) result }
{
    match scope.find(name) {
        Some(Meaning::Resource(resource)) => add(alloc, types, TypeDef::Borrow(resource)),
        Some(Meaning::Value(_)) => Err(MeaningFault::NoSuchType),
        None => Err(MeaningFault::NoSuchType),
    }
}

/// Adds the type that a text stands for, and the types in it, and answers its place: where the text
/// is a name of a type, or a primitive type, nothing is added.
///
/// The names in it are looked up in the scope. `NoSuchType` comes where one stands for no type, or
/// that of a borrow for no resource; `TooLarge` where a type would not be within the limits;
/// `NotSpellable` where no file could spell one; and `Memory` where there is no memory. Then some
/// of the types in it may have been added; earlier types stay as they are. It costs the text's own
/// length and a look-up for each of its names: nothing below them is walked.
pub fn push_type(
    alloc: Global,
    types: &mut Types,
    scope: &Scope<'_, '_>,
    text: &WitType,
) -> Result<usize, MeaningFault>
    requires placed { ArePlaced (length (types_of types.old)) scope.now.table.now }
    ensures there { IfOk result (λ p. p < length (types_of types.new)) }
    ensures meaning { IfOk result (λ p. meaning (scope_in (types_of types.old) scope.now)
        (type_tree text.now) ≡ Some (type_at (types_of types.new) p)) }
    ensures within { IfOk result (λ p. IsWithinLimits (type_at (types_of types.new) p)) }
    ensures fault { IfErr result (IsTypeFault
        (meaning (scope_in (types_of types.old) scope.now) (type_tree text.now))) }
    ensures grown { Extends (types_of types.old) (types_of types.new) }
    ensures funcs { funcs_of types.new ≡ funcs_of types.old }
{
    push_text(alloc, types, scope, text)
}

/// Adds the type that a text stands for, and the types in it, and answers its place.
#[cycle(types)]
fn push_text(
    alloc: Global,
    types: &mut Types,
    scope: &Scope<'_, '_>,
    text: &WitType,
) -> Result<usize, MeaningFault>
    requires placed { ArePlaced (length (types_of types.old)) scope.now.table.now }
    ensures { AddedType types.old types.new
        (meaning (scope_in (types_of types.old) scope.now) (type_tree text.now)) result }
{
    match text {
        WitType::Primitive(written) => Ok(types.primitive(primitive(*written))),
        WitType::Named(name) => push_named(alloc, types, scope, name.as_str()),
        WitType::Borrow(name) => push_borrow(alloc, types, scope, name.as_str()),
        WitType::List(element) => {
            let element = push_text(alloc, types, scope, element)?;
            add(alloc, types, TypeDef::List(element))
        }
        WitType::FixedList { element, length } => {
            let element = push_text(alloc, types, scope, element)?;
            let length = *length;
            add(alloc, types, TypeDef::FixedList { element, length })
        }
        WitType::Option(payload) => {
            let payload = push_text(alloc, types, scope, payload)?;
            add(alloc, types, TypeDef::Option(payload))
        }
        WitType::Tuple(parts) => {
            let parts = push_parts(alloc, types, scope, parts)?;
            add(alloc, types, TypeDef::Tuple(parts))
        }
        WitType::Result { ok, error } => {
            let ok = push_payload(alloc, types, scope, ok)?;
            let error = push_payload(alloc, types, scope, error)?;
            add(alloc, types, TypeDef::Result { ok, error })
        }
    }
}

/// Adds the type of a payload, if there is one, and answers its place; its faults are those of
/// `push_type`.
#[cycle(types)]
pub fn push_payload(
    alloc: Global,
    types: &mut Types,
    scope: &Scope<'_, '_>,
    text: &Option<Box<WitType>>,
) -> Result<Option<usize>, MeaningFault>
    requires placed { ArePlaced (length (types_of types.old)) scope.now.table.now }
    ensures { AddedPayload types.old types.new (payload_meaning
        (scope_in (types_of types.old) scope.now) (payload_tree text.now)) result }
{
    match text {
        None => Ok(None),
        Some(text) => Ok(Some(push_text(alloc, types, scope, text)?)),
    }
}

/// Adds the types that the parts of a tuple stand for, and answers their places.
#[cycle(types)]
fn push_parts(
    alloc: Global,
    types: &mut Types,
    scope: &Scope<'_, '_>,
    texts: &[WitType],
) -> Result<Vec<usize>, MeaningFault>
    requires placed { ArePlaced (length (types_of types.old)) scope.now.table.now }
    ensures { AddedParts types.old types.new (meanings (scope_in (types_of types.old) scope.now)
        (types_from (map type_tree texts.now))) result }
{
    let mut places = Vec::with_capacity(alloc, texts.len())?;
    for text in texts {
        let place = push_text(alloc, types, scope, text)?;
        if places.push(place).is_err() {
            return Err(MeaningFault::Memory);
        }
    }
    Ok(places)
}
