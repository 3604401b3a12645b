//! What is known of the types of one arena.

ghost use Rattle.std.specs.Prelude.{◌≡◌, IfOk, Some};
ghost use Rattle.cm_types_arena.specs.Replaced.{Standing, replaced, replaced_func};
ghost use Rattle.cm_types_arena.specs.declared.types.Types.{Types};
ghost use Rattle.cm_types_numbers.specs.Numbering.{Extends, Numbering, number, number_func};
ghost use Rattle.cm_types_numbers.specs.Numbering.{numbering};
ghost use Rattle.cm_types_numbers.specs.Moved.{brought_func, brought_type};
ghost use Rattle.cm_types_numbers.specs.PlacedTables.{KnowsPlaced};

use crate::Numbers;
use crate::funcs::KnownFuncs;
use crate::laws::numbers_stay;
use crate::moves::{Brought, MovedFunc, Through};
use crate::types::KnownTypes;
use cm_types_arena::laws::replacing;
use cm_types_arena::{Replacement, Types};
use std::alloc::{AllocError, Global};

/// The numbers of types of one arena, as items bring them and as one table of numbers has them,
/// each resource in them replaced by what stands for it: for as long as the same stand for them.
#[derive(Drop)]
pub struct KnownPlaced {
    types: KnownTypes,
    funcs: KnownFuncs,
}

impl KnownPlaced {
    /// No number is known yet.
    pub fn new(alloc: Global) -> KnownPlaced
        ensures { (t : Numbering) (s : Standing) (types : Types)
            → KnowsPlaced t s types result }
    {
        KnownPlaced {
            types: KnownTypes::new(alloc),
            funcs: KnownFuncs::new(alloc),
        }
    }

    /// The number of a type that an item brings, once each resource in it is replaced by what
    /// stands for it; behind the last place stands `bool`. A type that has no number gets the next.
    ///
    /// Of the types in it each costs its own length once for each way in which its resources are
    /// moved, and then a search for what is known. `AllocError` comes where there is no memory; the
    /// types that have a number keep it, and what is known stays right.
    pub fn number_type<R: Replacement>(
        &mut self,
        alloc: Global,
        numbers: &mut Numbers,
        replacement: &R,
        types: &Types,
        brought: Brought,
    ) -> Result<usize, AllocError>
        requires { KnowsPlaced (numbering numbers.old)
            (R.replacement replacement.now) types.now self.old }
        ensures number { IfOk result (λ n. number (numbering numbers.new)
            (replaced (R.replacement replacement.now) (brought_type types.now brought))
            ≡ Some n) }
        ensures known { KnowsPlaced (numbering numbers.new)
            (R.replacement replacement.now) types.now self.new }
        ensures kept { Extends (numbering numbers.old) (numbering numbers.new) }
    {
        replacing();
        numbers_stay();
        let through = Through {
            replacement,
            moves: brought.moves(),
        };
        self.types
            .number_type(alloc, numbers, &through, types, brought.ty.place)
    }

    /// The number of the type of a function that an item brings, once each resource in it is
    /// replaced by what stands for it; behind the last place stands that of a function with neither
    /// parameters nor a result. A type that has no number gets the next.
    ///
    /// It costs its own length once for each way in which its resources are moved, and what
    /// `number_type` says of the types in it. `AllocError` comes where there is no memory; the
    /// types that have a number keep it, and what is known stays right.
    pub fn number_func_type<R: Replacement>(
        &mut self,
        alloc: Global,
        numbers: &mut Numbers,
        replacement: &R,
        types: &Types,
        brought: Brought,
    ) -> Result<usize, AllocError>
        requires { KnowsPlaced (numbering numbers.old)
            (R.replacement replacement.now) types.now self.old }
        ensures number { IfOk result (λ n. number_func (numbering numbers.new)
            (replaced_func (R.replacement replacement.now) (brought_func types.now brought))
            ≡ Some n) }
        ensures known { KnowsPlaced (numbering numbers.new)
            (R.replacement replacement.now) types.now self.new }
        ensures kept { Extends (numbering numbers.old) (numbering numbers.new) }
    {
        replacing();
        numbers_stay();
        let place = brought.ty.place;
        let moves = brought.moves();
        let func = MovedFunc { moves, place };
        if let Some(number) = self.funcs.get(func) {
            return Ok(number);
        }
        let through = Through { replacement, moves };
        let number = self
            .types
            .number_func_type(alloc, numbers, &through, types, place)?;
        self.funcs.note(func, number)?;
        Ok(number)
    }
}
