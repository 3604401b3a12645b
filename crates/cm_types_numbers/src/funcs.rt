//! The numbers of types of functions that are known already.

ghost use Rattle.std.specs.Prelude.{◌≡◌, List, Some};
ghost use Rattle.cm_types.specs.Types.{FuncTy};
ghost use Rattle.cm_types_arena.specs.Replaced.{Standing, replaced_func};
ghost use Rattle.cm_types_arena.specs.TypeDefs.{func_at};
ghost use Rattle.cm_types_numbers.specs.Numbering.{Numbering, number_func};
ghost use Rattle.cm_types_numbers.specs.Moved.{moved_through};
ghost use Rattle.cm_types_numbers.specs.PlacedTables.{KnowsFuncs, known_func};

use crate::moves::MovedFunc;
use std::alloc::{AllocError, Global};
use std::collections::BTreeMap;

/// The numbers of types of functions by their places, their resources moved.
#[derive(Drop)]
pub(crate) struct KnownFuncs {
    numbers: BTreeMap<MovedFunc, usize>,
}

impl KnownFuncs {
    pub(crate) fn new(alloc: Global) -> KnownFuncs
        ensures { (t : Numbering) (s : Standing) (fs : List FuncTy) → KnowsFuncs t s fs result }
    {
        KnownFuncs {
            numbers: BTreeMap::new(alloc),
        }
    }

    /// The number of a function's type, if it is known.
    pub(crate) fn get(&self, func: MovedFunc) -> Option<usize>
        ensures { result ≡ known_func self.now func }
    {
        self.numbers.get(&func).copied()
    }

    /// Keeps the number of a function's type.
    pub(crate) fn note(&mut self, func: MovedFunc, number: usize) -> Result<(), AllocError>
        ensures { (t : Numbering) (s : Standing) (fs : List FuncTy) → KnowsFuncs t s fs self.old
            → number_func t (replaced_func (λ r. s (moved_through func.moves r))
            (func_at fs func.place)) ≡ Some number → KnowsFuncs t s fs self.new }
    {
        self.numbers.insert(func, number)?;
        Ok(())
    }
}
