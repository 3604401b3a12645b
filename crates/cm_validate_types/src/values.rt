//! Definitions of value types.

use crate::entries::TypeEntry;
use crate::scope::TypeScope;
use crate::uses::uses;
use cm_types::DefValType;
use cm_types_arena::laws::what_stays;
use cm_types_arena::placed_laws::unmoved;
use cm_types_arena::{DefFault, Placed, TypeDef};
use cm_validate_core::parts_fault;
use cm_validate_model::ValidReason;
use cm_validate_model::laws::least_of_both;
use std::alloc::{AllocError, Global};

impl TypeScope {
    ghost use Rattle.std.specs.Prelude.{◌≡◌, ◌++◌, ◌∷◌, [], IfOk, IsErrOf, MatchOption, OnErr};
    ghost use Rattle.std.specs.Prelude.{OnOk, length, true};
    ghost use Rattle.cm_types.specs.DefTypes.{def_val_type_tree};
    ghost use Rattle.cm_types.specs.Limits.{IsWithinLimits};
    ghost use Rattle.cm_types.specs.Spellable.{is_spellable};
    ghost use Rattle.cm_types_arena.specs.Places.{HasParts};
    ghost use Rattle.cm_types_arena.specs.TypeDefs.{def_type};
    ghost use Rattle.cm_types_arena.specs.declared.types.DefFault.TheVariants as def_fault;
    ghost use Rattle.cm_validate_model.specs.Definitions.{sorts_of, value};
    ghost use Rattle.cm_validate_model.specs.Reasons.{least};
    ghost use Rattle.cm_validate_model.specs.Scopes.{value_def_of};
    ghost use Rattle.cm_validate_model.specs.TypeRules.{limits_broken, parts_broken};
    ghost use Rattle.cm_validate_model.specs.TypeRules.{value_def_broken};
    ghost use Rattle.cm_validate_types.specs.TypeScopes.{arena_funcs, arena_types, own_types};
    ghost use Rattle.cm_validate_types.specs.SettledScopes.{StaysSettled};
    ghost use Rattle.cm_validate_types.specs.TypeScopes.{HasGrown, types_around};

    /// Adds a type to the arena alone, and answers its place.
    fn push_type(&mut self, alloc: Global, def: TypeDef) -> Result<usize, DefFault>
        requires parts { HasParts (length (arena_types self.old)) def }
        requires spellable { is_spellable (def_type (arena_types self.old) def) ≡ true }
        ensures place { IfOk result (λ place. place ≡ length (arena_types self.old)) }
        ensures pushed { OnOk result (arena_types self.new
            ≡ arena_types self.old ++ def_type (arena_types self.old) def ∷ []) }
        ensures within { OnOk result (IsWithinLimits (def_type (arena_types self.old) def)) }
        ensures too_large { IsErrOf result def_fault.TooLarge
            → ¬ (IsWithinLimits (def_type (arena_types self.old) def)) }
        ensures spelled { ¬ (IsErrOf result def_fault.NotSpellable) }
        ensures funcs { arena_funcs self.new ≡ arena_funcs self.old }
        ensures own { own_types self.new ≡ own_types self.old }
        ensures around { types_around self.new ≡ types_around self.old }
        ensures grown { HasGrown self.old self.new }
        ensures stays { StaysSettled self.old self.new }
    {
        self.types.push(alloc, def)
    }

    /// Adds a value type to the arena and to the types of its own, unless it is over the limits.
    fn add_value(&mut self, alloc: Global, def: TypeDef) -> Result<Option<ValidReason>, AllocError>
        requires parts { HasParts (length (arena_types self.old)) def }
        requires spellable { is_spellable (def_type (arena_types self.old) def) ≡ true }
        ensures fault { IfOk result (λ r.
            r ≡ least (limits_broken (def_type (arena_types self.old) def))) }
        ensures added { IfOk result (λ r. MatchOption r
            (own_types self.new
            ≡ own_types self.old ++ value (def_type (arena_types self.old) def) ∷ [])
            (λ _. own_types self.new ≡ own_types self.old)) }
        ensures kept { OnErr result (own_types self.new ≡ own_types self.old) }
        ensures around { types_around self.new ≡ types_around self.old }
        ensures grown { HasGrown self.old self.new }
        ensures stays { StaysSettled self.old self.new }
    {
        unmoved();
        let place = match self.push_type(alloc, def) {
            Ok(place) => place,
            Err(DefFault::TooLarge) => return Ok(Some(ValidReason::TooLarge)),
            Err(DefFault::NotSpellable) => unreachable!(),
            Err(DefFault::Memory) => return Err(AllocError),
        };
        self.add(TypeEntry::Value(Placed::at(place)))?;
        Ok(None)
    }

    /// `define_value`, where the parts of the definition violate no rule.
    fn define_parts(
        &mut self,
        alloc: Global,
        def: &DefValType,
    ) -> Result<Option<ValidReason>, AllocError>
        requires parts { parts_broken (sorts_of (own_types self.old))
            (def_val_type_tree def.now) ≡ [] }
        ensures fault { IfOk result (λ r.
            r ≡ least (value_def_broken (own_types self.old) (def_val_type_tree def.now))) }
        ensures defined { IfOk result (λ r. MatchOption r
            (own_types self.new ≡ own_types self.old
            ++ value_def_of (own_types self.old) (def_val_type_tree def.now) ∷ [])
            (λ _. own_types self.new ≡ own_types self.old)) }
        ensures kept { OnErr result (own_types self.new ≡ own_types self.old) }
        ensures around { types_around self.new ≡ types_around self.old }
        ensures grown { HasGrown self.old self.new }
        ensures stays { StaysSettled self.old self.new }
    {
        unmoved();
        what_stays();
        let uses = uses(alloc, def)?;
        if !self.are_within(&uses) {
            return Ok(Some(ValidReason::TooLarge));
        }
        self.settle_all(alloc, &uses)?;
        let placed = self.arena_def(alloc, def)?;
        self.add_value(alloc, placed)
    }

    /// Adds a value type as a definition says it, and answers none; or the least reason to refuse
    /// the definition, and then adds nothing. What it names by index are types of this scope's own.
    ///
    /// It costs the definition's own length and a look-up for each of its labels: nothing below a
    /// part is walked. Only a type that an import moved is copied, where its handles are of
    /// resources that the import counts anew, each node once; the copy stands under its index from
    /// then on, so no later definition copies it again. Nothing is copied where the types that the
    /// definition uses have more than 10,000 nodes together, so one definition copies no more.
    ///
    /// `AllocError` comes where there is no memory; its own types are then as they were. Whatever
    /// comes, what an import moved stays counted as it was: in the types of instances too.
    pub fn define_value(
        &mut self,
        alloc: Global,
        def: &DefValType,
    ) -> Result<Option<ValidReason>, AllocError>
        ensures fault { IfOk result (λ r.
            r ≡ least (value_def_broken (own_types self.old) (def_val_type_tree def.now))) }
        ensures defined { IfOk result (λ r. MatchOption r
            (own_types self.new ≡ own_types self.old
            ++ value_def_of (own_types self.old) (def_val_type_tree def.now) ∷ [])
            (λ _. own_types self.new ≡ own_types self.old)) }
        ensures kept { OnErr result (own_types self.new ≡ own_types self.old) }
        ensures around { types_around self.new ≡ types_around self.old }
        ensures grown { HasGrown self.old self.new }
        ensures stays { StaysSettled self.old self.new }
    {
        least_of_both();
        match parts_fault(alloc, self.sorts(), def)? {
            Some(fault) => Ok(Some(fault)),
            None => self.define_parts(alloc, def),
        }
    }
}
