//! Types of a scope that are copied where definitions use them.

use crate::copies::push_replaced;
use crate::scope::TypeScope;
use cm_types::{MAX_NODES, ValType};
use cm_types_arena::laws::what_stays;
use cm_types_arena::placed_laws::unmoved;
use cm_types_arena::{Move, Placed};
use std::alloc::{AllocError, Global};

impl TypeScope {
    ghost use Rattle.std.specs.Prelude.{◌≡◌, ◌<◌, ℕ, IfOk, OnOk, Some, length, nat_le, true};
    ghost use Rattle.cm_types.specs.declared.def_types.ValType.{ValType as Used};
    ghost use Rattle.cm_types.specs.declared.limits.TheConstants.{MAX_NODES};
    ghost use Rattle.cm_types_arena.specs.TypeDefs.{type_at};
    ghost use Rattle.cm_types_arena.specs.Placed.{moved_by};
    ghost use Rattle.cm_types_arena.specs.Replaced.{replaced};
    ghost use Rattle.cm_validate_types.specs.TypeScopes.{arena_funcs, arena_types, own_types};
    ghost use Rattle.cm_validate_types.specs.SettledScopes.{StaysSettled};
    ghost use Rattle.cm_validate_types.specs.TypeScopes.{HasGrown, types_around};
    ghost use Rattle.cm_validate_types.specs.Uses.{are_uses_unmoved, is_use_unmoved};
    ghost use Rattle.cm_validate_types.specs.Uses.{nodes_together};

    /// Whether these types together have no more nodes than one type may have, by what is known of
    /// each: the look goes no further than to where they have more.
    pub(crate) fn are_within(&self, uses: &[ValType]) -> bool
        ensures { result ≡ nat_le (nodes_together (own_types self.now) uses.now) MAX_NODES }
    {
        what_stays();
        let mut nodes = 0;
        for ty in uses {
            nodes += u64::from(self.types.summary(self.value_place(*ty)).nodes);
            if nodes > u64::from(MAX_NODES) {
                return false;
            }
        }
        true
    }

    /// A place of the arena that has the type of another place with its resources moved.
    fn copied(&mut self, alloc: Global, place: usize, by: Move) -> Result<usize, AllocError>
        requires { place < length (arena_types self.old) }
        ensures there { IfOk result (λ copy. copy < length (arena_types self.new)) }
        ensures ty { IfOk result (λ copy. type_at (arena_types self.new) copy
            ≡ replaced (moved_by (Some by)) (type_at (arena_types self.new) place)) }
        ensures entries { self.new.own.entries.items ≡ self.old.own.entries.items }
        ensures own { own_types self.new ≡ own_types self.old }
        ensures around { types_around self.new ≡ types_around self.old }
        ensures grown { HasGrown self.old self.new }
        ensures stays { StaysSettled self.old self.new }
    {
        push_replaced(&mut self.types, alloc, place, &by)
    }

    /// Gives a value type that is used a place of its own, with no resource moved: a copy stands
    /// under its index from then on, so that it is made once.
    fn settle(&mut self, alloc: Global, ty: ValType) -> Result<(), AllocError>
        ensures settled { OnOk result (is_use_unmoved self.new.own.entries.items ty ≡ true) }
        ensures others { (u : Used) → is_use_unmoved self.old.own.entries.items u ≡ true
            → is_use_unmoved self.new.own.entries.items u ≡ true }
        ensures own { own_types self.new ≡ own_types self.old }
        ensures around { types_around self.new ≡ types_around self.old }
        ensures grown { HasGrown self.old self.new }
        ensures stays { StaysSettled self.old self.new }
    {
        unmoved();
        let index = match ty {
            ValType::Primitive(_) => return Ok(()),
            ValType::Index(index) => index as usize,
        };
        match self.own.moved_value(index) {
            None => Ok(()),
            Some((place, by)) => {
                let copy = self.copied(alloc, place, by)?;
                self.own.put_value(index, Placed::at(copy));
                Ok(())
            }
        }
    }

    /// Gives each of these types a place of its own, with no resource moved.
    #[tactic(auto, using(crate::proofs::GrowLaws::grown_on, crate::proofs::GrowLaws::same))]
    pub(crate) fn settle_all(&mut self, alloc: Global, uses: &[ValType]) -> Result<(), AllocError>
        ensures settled { OnOk result
            (are_uses_unmoved self.new.own.entries.items uses.now ≡ true) }
        ensures own { own_types self.new ≡ own_types self.old }
        ensures around { types_around self.new ≡ types_around self.old }
        ensures grown { HasGrown self.old self.new }
        ensures stays { StaysSettled self.old self.new }
    {
        for ty in uses {
            self.settle(alloc, *ty)?;
        }
        Ok(())
    }
}
