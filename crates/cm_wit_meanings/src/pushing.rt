//! Adding a definition to the types of an arena.

ghost use Rattle.std.specs.Prelude.{◌≡◌, ◌<◌, IfOk, IfErr, Some, length};
ghost use Rattle.cm_types.specs.Limits.{IsWithinLimits};
ghost use Rattle.cm_types_arena.specs.Places.{HasParts, funcs_of, types_of};
ghost use Rattle.cm_types_arena.specs.TypeDefs.{def_type, type_at};
ghost use Rattle.cm_wit_meanings.specs.Added.{AddedType};
ghost use Rattle.cm_wit_meanings.specs.Faults.{IsTypeFault};
ghost use Rattle.cm_wit_meanings.specs.Places.{Extends};

use crate::fault::MeaningFault;
use cm_types_arena::{DefFault, TypeDef, Types};
use std::alloc::Global;

/// Adds a type, and answers its place; its faults are those of `push`.
pub fn add(alloc: Global, types: &mut Types, def: TypeDef) -> Result<usize, MeaningFault>
    requires parts { HasParts (length (types_of types.old)) def }
    ensures { AddedType types.old types.new (Some (def_type (types_of types.old) def)) result }
{
    match types.push(alloc, def) {
        Ok(place) => Ok(place),
        Err(DefFault::TooLarge) => Err(MeaningFault::TooLarge),
        Err(DefFault::NotSpellable) => Err(MeaningFault::NotSpellable),
        Err(DefFault::Memory) => Err(MeaningFault::Memory),
    }
}

/// Adds a type, and answers its place.
///
/// `TooLarge` comes where it would not be within the limits, else `NotSpellable` where no file can
/// spell it, and `Memory` where there is no memory for it; the types then stay as they are.
pub fn push(alloc: Global, types: &mut Types, def: TypeDef) -> Result<usize, MeaningFault>
    requires parts { HasParts (length (types_of types.old)) def }
    ensures there { IfOk result (λ p. p < length (types_of types.new)) }
    ensures ty { IfOk result (λ p.
        type_at (types_of types.new) p ≡ def_type (types_of types.old) def) }
    ensures within { IfOk result (λ p. IsWithinLimits (type_at (types_of types.new) p)) }
    ensures fault { IfErr result (IsTypeFault (Some (def_type (types_of types.old) def))) }
    ensures grown { Extends (types_of types.old) (types_of types.new) }
    ensures funcs { funcs_of types.new ≡ funcs_of types.old }
{
    add(alloc, types, def)
}
