//! What holds of all types of an arena.

ghost use Rattle.std.specs.Prelude.{◌≡◌, ◌<◌, length, true};
ghost use Rattle.cm_types.specs.Limits.{IsWithinLimits};
ghost use Rattle.cm_types.specs.Spellable.{is_spellable};
ghost use Rattle.cm_types_arena.specs.Places.{types_of};
ghost use Rattle.cm_types_arena.specs.TypeDefs.{type_at};

use crate::types::Types;

/// The type at a place is within the limits, and one that a file can spell.
pub fn types_are_lawful(types: &Types, place: usize)
    requires { place < length (types_of types.now) }
    ensures within { IsWithinLimits (type_at (types_of types.now) place) }
    ensures spellable { is_spellable (type_at (types_of types.now) place) ≡ true }
{}
