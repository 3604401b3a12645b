//! The numbers of types that are known already, for each move.

ghost use Rattle.std.specs.Prelude.{◌≡◌, IfOk, List, Some};
ghost use Rattle.cm_types.specs.Types.{Ty};
ghost use Rattle.cm_types_arena.specs.Replaced.{Standing, replaced, replaced_func};
ghost use Rattle.cm_types_arena.specs.Places.{funcs_of, types_of};
ghost use Rattle.cm_types_arena.specs.TypeDefs.{func_at, type_at};
ghost use Rattle.cm_types_numbers.specs.Numbering.{Extends, Numbering, number, number_func};
ghost use Rattle.cm_types_numbers.specs.Numbering.{numbering};
ghost use Rattle.cm_types_numbers.specs.Moved.{moved_through};
ghost use Rattle.cm_types_numbers.specs.PlacedTables.{KnowsTypes};

use crate::laws::numbers_stay;
use crate::moves::{Moves, Through};
use crate::{Known, Numbers};
use cm_types_arena::{Replacement, Types};
use std::alloc::{AllocError, Global};
use std::collections::BTreeMap;

/// For each way to move resources, the numbers of types by their places, their resources moved so.
#[derive(Drop)]
pub(crate) struct KnownTypes {
    tables: BTreeMap<Moves, Known>,
}

impl KnownTypes {
    pub(crate) fn new(alloc: Global) -> KnownTypes
        ensures { (t : Numbering) (s : Standing) (ts : List Ty) → KnowsTypes t s ts result }
    {
        KnownTypes {
            tables: BTreeMap::new(alloc),
        }
    }

    /// The number of the type at a place, its resources moved and then replaced.
    pub(crate) fn number_type<R: Replacement>(
        &mut self,
        alloc: Global,
        numbers: &mut Numbers,
        through: &Through<'_, R>,
        types: &Types,
        place: usize,
    ) -> Result<usize, AllocError>
        requires { KnowsTypes (numbering numbers.old)
            (R.replacement through.now.replacement.now) (types_of types.now) self.old }
        ensures number { IfOk result (λ n. number (numbering numbers.new)
            (replaced
            (λ r. R.replacement through.now.replacement.now (moved_through through.now.moves r))
            (type_at (types_of types.now) place)) ≡ Some n) }
        ensures known { KnowsTypes (numbering numbers.new)
            (R.replacement through.now.replacement.now) (types_of types.now) self.new }
        ensures kept { Extends (numbering numbers.old) (numbering numbers.new) }
    {
        numbers_stay();
        if let Some(known) = self.tables.get_mut(&through.moves) {
            return numbers.number_type(alloc, through, types, known, place);
        }
        let mut known = Known::new(alloc);
        let number = numbers.number_type(alloc, through, types, &mut known, place)?;
        self.tables.insert(through.moves, known)?;
        Ok(number)
    }

    /// The number of the type of a function at a place, its resources moved and then replaced.
    pub(crate) fn number_func_type<R: Replacement>(
        &mut self,
        alloc: Global,
        numbers: &mut Numbers,
        through: &Through<'_, R>,
        types: &Types,
        place: usize,
    ) -> Result<usize, AllocError>
        requires { KnowsTypes (numbering numbers.old)
            (R.replacement through.now.replacement.now) (types_of types.now) self.old }
        ensures number { IfOk result (λ n. number_func (numbering numbers.new)
            (replaced_func
            (λ r. R.replacement through.now.replacement.now (moved_through through.now.moves r))
            (func_at (funcs_of types.now) place)) ≡ Some n) }
        ensures known { KnowsTypes (numbering numbers.new)
            (R.replacement through.now.replacement.now) (types_of types.now) self.new }
        ensures kept { Extends (numbering numbers.old) (numbering numbers.new) }
    {
        numbers_stay();
        if let Some(known) = self.tables.get_mut(&through.moves) {
            return numbers.number_func_type(alloc, through, types, known, place);
        }
        let mut known = Known::new(alloc);
        let number = numbers.number_func_type(alloc, through, types, &mut known, place)?;
        self.tables.insert(through.moves, known)?;
        Ok(number)
    }
}
