//! The numbers of types that are known already.

ghost use Rattle.std.specs.Prelude.{◌≡◌, ℕ, List, Some};
ghost use Rattle.std.specs.BTreeMap.{IsEmpty};
ghost use Rattle.cm_types.specs.Types.{Ty};
ghost use Rattle.cm_types_arena.specs.Replaced.{Standing, replaced};
ghost use Rattle.cm_types_arena.specs.TypeDefs.{type_at};
ghost use Rattle.cm_types_numbers.specs.Knowing.{Knows, known_number};
ghost use Rattle.cm_types_numbers.specs.Numbering.{Numbering, number};

use std::alloc::{AllocError, Global};
use std::collections::BTreeMap;

/// The numbers of types of one arena by their places, as one table has them, each resource in them
/// replaced by what stands for it: for as long as the same stand for them.
#[derive(Drop)]
pub struct Known {
    numbers: BTreeMap<usize, usize>,
}

impl Known {
    /// No number is known yet.
    pub fn new(alloc: Global) -> Known
        ensures { (t : Numbering) (s : Standing) (ts : List Ty) → Knows t s ts result }
    {
        Known {
            numbers: BTreeMap::new(alloc),
        }
    }

    /// The number of the type at a place, if it is known.
    pub(crate) fn get(&self, place: usize) -> Option<usize>
        ensures { result ≡ known_number self.now place }
    {
        self.numbers.get(&place).copied()
    }

    /// Keeps the number of the type at a place.
    pub(crate) fn note(&mut self, place: usize, known: usize) -> Result<(), AllocError>
        ensures { (t : Numbering) (s : Standing) (ts : List Ty) → Knows t s ts self.old
            → number t (replaced s (type_at ts place)) ≡ Some known → Knows t s ts self.new }
    {
        self.numbers.insert(place, known)?;
        Ok(())
    }
}
