//! Whether what is compared fits.

ghost use Rattle.std.specs.Prelude.{◌≡◌, ◌↔◌, IfOk, IsTrue, List, OnOk};
ghost use Rattle.cm_types_arena.specs.Replaced.{replaced, replaced_func};
ghost use Rattle.cm_types_numbers.specs.Moved.{brought_func, brought_type};
ghost use Rattle.cm_wit_conforms.specs.Comparisons.{Entry};
ghost use Rattle.cm_wit_conforms.specs.Conformance.{Fits};
ghost use Rattle.cm_wit_conforms.specs.Judging.{AreKnown, AreSides, marks_of};
ghost use Rattle.cm_wit_conforms.specs.Views.{comparison_of};
ghost use Rattle.cm_wit_conforms.specs.declared.judge.Side.{Side as Sided};

use crate::comparisons::Comparison;
use crate::pairs::{Pairs, mark};
use cm_types::{ResourceId, same_resource};
use cm_types_arena::{Replacement, Types};
use cm_types_numbers::laws::numbers_stay;
use cm_types_numbers::placed_laws::known_stays;
use cm_types_numbers::{Brought, KnownPlaced, Numbers};
use std::alloc::{AllocError, Global};

/// The types of one side, with the pairs of its resources.
#[derive(Clone, Copy)]
pub(crate) struct Side<'a> {
    pub(crate) types: &'a Types,
    pub(crate) pairs: &'a Pairs,
    /// What resources that belong to no pair are marked by.
    pub(crate) mark: u32,
}

/// Where types are compared, the pair that a resource belongs to stands for it, or else a mark of
/// its side.
impl<'a> Replacement for Side<'a> {
    ghost use Rattle.cm_wit_conforms.specs.Judging.{marks_of};

    ghost replacement = { marks_of };

    fn replace(&self, id: ResourceId) -> ResourceId {
        mark(self.mark, self.pairs.pair(id))
    }
}

/// The numbers of the types of both sides, and which are known already, so that each type is
/// numbered once for each way in which its resources are moved.
#[derive(Drop)]
pub(crate) struct Tables {
    numbers: Numbers,
    have: KnownPlaced,
    world: KnownPlaced,
}

impl Tables {
    pub(crate) fn new(alloc: Global) -> Tables
        ensures { (have world : Sided) → AreKnown have world result }
    {
        Tables {
            numbers: Numbers::new(alloc),
            have: KnownPlaced::new(alloc),
            world: KnownPlaced::new(alloc),
        }
    }

    /// Whether two types are equal, the resources in them marked.
    fn same_types(
        &mut self,
        alloc: Global,
        have: &Side<'_>,
        x: Brought,
        world: &Side<'_>,
        y: Brought,
    ) -> Result<bool, AllocError>
        requires { AreKnown have.now world.now self.old }
        ensures same { IfOk result (λ same. IsTrue same
            ↔ (replaced (marks_of have.now) (brought_type have.now.types.now x)
            ≡ replaced (marks_of world.now) (brought_type world.now.types.now y))) }
        ensures known { OnOk result (AreKnown have.now world.now self.new) }
    {
        numbers_stay();
        known_stays();
        let left = self
            .have
            .number_type(alloc, &mut self.numbers, have, have.types, x)?;
        let right = self
            .world
            .number_type(alloc, &mut self.numbers, world, world.types, y)?;
        self.numbers.tell_apart();
        Ok(left == right)
    }

    /// Whether two types of functions are equal, the resources in them marked.
    fn same_funcs(
        &mut self,
        alloc: Global,
        have: &Side<'_>,
        f: Brought,
        world: &Side<'_>,
        g: Brought,
    ) -> Result<bool, AllocError>
        requires { AreKnown have.now world.now self.old }
        ensures same { IfOk result (λ same. IsTrue same
            ↔ (replaced_func (marks_of have.now) (brought_func have.now.types.now f)
            ≡ replaced_func (marks_of world.now) (brought_func world.now.types.now g))) }
        ensures known { OnOk result (AreKnown have.now world.now self.new) }
    {
        numbers_stay();
        known_stays();
        let left = self
            .have
            .number_func_type(alloc, &mut self.numbers, have, have.types, f)?;
        let right = self
            .world
            .number_func_type(alloc, &mut self.numbers, world, world.types, g)?;
        self.numbers.tell_apart();
        Ok(left == right)
    }

    /// Whether what is compared fits. Refused only where there is no memory.
    pub(crate) fn fits(
        &mut self,
        alloc: Global,
        have: &Side<'_>,
        world: &Side<'_>,
        what: Comparison,
    ) -> Result<bool, AllocError>
        requires { AreKnown have.now world.now self.old }
        ensures fits { IfOk result (λ fits. (all : List Entry)
            → AreSides all have.now world.now → IsTrue fits
            ↔ Fits all (comparison_of have.now.types.now world.now.types.now what)) }
        ensures known { OnOk result (AreKnown have.now world.now self.new) }
    {
        match what {
            Comparison::Nothing => Ok(false),
            Comparison::Sorts => Ok(false),
            Comparison::Funcs(f, g) => self.same_funcs(alloc, have, f, world, g),
            Comparison::Types(x, y) => self.same_types(alloc, have, x, world, y),
            Comparison::Resources(a, b) => Ok(same_resource(have.replace(a), world.replace(b))),
        }
    }
}
