//! Definitions of the types of functions.

use crate::entries::TypeEntry;
use crate::scope::TypeScope;
use crate::uses::{param_uses, with_result};
use cm_types::{FuncType, ValType};
use cm_types_arena::laws::what_stays;
use cm_types_arena::placed_laws::unmoved;
use cm_types_arena::{DefFault, FuncDef, Placed};
use cm_validate_core::{broken_unless, lesser, params_fault, uses_fault};
use cm_validate_model::ValidReason;
use cm_validate_model::laws::least_of_both;
use std::alloc::{AllocError, Global};

impl TypeScope {
    ghost use Rattle.std.specs.Prelude.{◌≡◌, ◌++◌, ◌∷◌, [], IfOk, IsErrOf, MatchOption, OnErr};
    ghost use Rattle.std.specs.Prelude.{OnOk, length};
    ghost use Rattle.std.specs.Option.{option_map};
    ghost use Rattle.cm_types.specs.DefTypes.{func_type_tree};
    ghost use Rattle.cm_types.specs.Limits.{IsWithinLimits};
    ghost use Rattle.cm_types_arena.specs.Places.{HasFuncParts};
    ghost use Rattle.cm_types_arena.specs.TypeDefs.{func_def_type, params_type};
    ghost use Rattle.cm_types_arena.specs.declared.types.DefFault.TheVariants as def_fault;
    ghost use Rattle.cm_validate_model.specs.Definitions.{func_type, sorts_of};
    ghost use Rattle.cm_validate_model.specs.Reasons.{if_found, least};
    ghost use Rattle.cm_validate_model.specs.Scopes.{func_def_of};
    ghost use Rattle.cm_validate_model.specs.TypeRules.{func_def_broken, limits_broken};
    ghost use Rattle.cm_validate_model.specs.TypeRules.{no_borrow_broken, uses_broken};
    ghost use Rattle.cm_validate_types.specs.Expansion.{func_or_bool, value_or_bool};
    ghost use Rattle.cm_validate_types.specs.TypeScopes.{arena_funcs, arena_types, own_types};
    ghost use Rattle.cm_validate_types.specs.SettledScopes.{StaysSettled};
    ghost use Rattle.cm_validate_types.specs.TypeScopes.{HasGrown, types_around};

    /// Adds the type of a function to the arena alone, and answers its place.
    fn push_func(&mut self, alloc: Global, def: FuncDef) -> Result<usize, DefFault>
        requires parts { HasFuncParts (length (arena_types self.old)) def }
        ensures place { IfOk result (λ place. place ≡ length (arena_funcs self.old)) }
        ensures pushed { OnOk result (arena_funcs self.new
            ≡ arena_funcs self.old ++ func_def_type (arena_types self.old) def ∷ []) }
        ensures within { OnOk result
            (IsWithinLimits (params_type (func_def_type (arena_types self.old) def))) }
        ensures too_large { IsErrOf result def_fault.TooLarge
            → ¬ (IsWithinLimits (params_type (func_def_type (arena_types self.old) def))) }
        ensures spelled { ¬ (IsErrOf result def_fault.NotSpellable) }
        ensures types { arena_types self.new ≡ arena_types self.old }
        ensures own { own_types self.new ≡ own_types self.old }
        ensures around { types_around self.new ≡ types_around self.old }
        ensures grown { HasGrown self.old self.new }
        ensures stays { StaysSettled self.old self.new }
    {
        self.types.push_func(alloc, def)
    }

    /// Adds the type of a function to the arena and to the types of its own, unless its parameters
    /// are over the limits.
    fn add_func(&mut self, alloc: Global, def: FuncDef) -> Result<Option<ValidReason>, AllocError>
        requires parts { HasFuncParts (length (arena_types self.old)) def }
        ensures fault { IfOk result (λ r. r ≡ least
            (limits_broken (params_type (func_def_type (arena_types self.old) def)))) }
        ensures added { IfOk result (λ r. MatchOption r
            (own_types self.new
            ≡ own_types self.old ++ func_type (func_def_type (arena_types self.old) def) ∷ [])
            (λ _. own_types self.new ≡ own_types self.old)) }
        ensures kept { OnErr result (own_types self.new ≡ own_types self.old) }
        ensures around { types_around self.new ≡ types_around self.old }
        ensures grown { HasGrown self.old self.new }
        ensures stays { StaysSettled self.old self.new }
    {
        unmoved();
        let place = match self.push_func(alloc, def) {
            Ok(place) => place,
            Err(DefFault::TooLarge) => return Ok(Some(ValidReason::TooLarge)),
            Err(DefFault::NotSpellable) => unreachable!(),
            Err(DefFault::Memory) => return Err(AllocError),
        };
        self.add(TypeEntry::Func(Placed::at(place)))?;
        Ok(None)
    }

    /// Whether a result holds a borrow, as what is known of its type tells.
    fn borrow_fault(&self, payload: Option<ValType>) -> Option<ValidReason>
        ensures { result ≡ least
            (if_found no_borrow_broken (option_map (value_or_bool (own_types self.now)) payload)) }
    {
        what_stays();
        match payload {
            None => None,
            Some(ty) => {
                let known = self.types.summary(self.value_place(ty));
                broken_unless(!known.holds_borrow, ValidReason::BorrowInResult)
            }
        }
    }

    /// `define_func`, where the definition violates no rule but a limit on its parameters.
    fn define_known(
        &mut self,
        alloc: Global,
        def: &FuncType,
    ) -> Result<Option<ValidReason>, AllocError>
        requires uses { uses_broken (sorts_of (own_types self.old)) (func_type_tree def.now) ≡ [] }
        ensures fault { IfOk result (λ r. r ≡ least (limits_broken
            (params_type (func_or_bool (own_types self.old) (func_type_tree def.now))))) }
        ensures defined { IfOk result (λ r. MatchOption r
            (own_types self.new ≡ own_types self.old
            ++ func_def_of (own_types self.old) (func_type_tree def.now) ∷ [])
            (λ _. own_types self.new ≡ own_types self.old)) }
        ensures kept { OnErr result (own_types self.new ≡ own_types self.old) }
        ensures around { types_around self.new ≡ types_around self.old }
        ensures grown { HasGrown self.old self.new }
        ensures stays { StaysSettled self.old self.new }
    {
        unmoved();
        let params = param_uses(alloc, def)?;
        if !self.are_within(&params) {
            return Ok(Some(ValidReason::TooLarge));
        }
        let uses = with_result(params, def.result)?;
        self.settle_all(alloc, &uses)?;
        let placed = self.arena_func(alloc, def)?;
        self.add_func(alloc, placed)
    }

    /// `define_func`, where each type that the definition uses is there.
    fn define_used(
        &mut self,
        alloc: Global,
        def: &FuncType,
    ) -> Result<Option<ValidReason>, AllocError>
        requires uses { uses_broken (sorts_of (own_types self.old)) (func_type_tree def.now) ≡ [] }
        ensures fault { IfOk result (λ r.
            r ≡ least (func_def_broken (own_types self.old) (func_type_tree def.now))) }
        ensures defined { IfOk result (λ r. MatchOption r
            (own_types self.new ≡ own_types self.old
            ++ func_def_of (own_types self.old) (func_type_tree def.now) ∷ [])
            (λ _. own_types self.new ≡ own_types self.old)) }
        ensures kept { OnErr result (own_types self.new ≡ own_types self.old) }
        ensures around { types_around self.new ≡ types_around self.old }
        ensures grown { HasGrown self.old self.new }
        ensures stays { StaysSettled self.old self.new }
    {
        what_stays();
        let twice = params_fault(alloc, def)?;
        match lesser(twice, self.borrow_fault(def.result)) {
            Some(fault) => Ok(Some(fault)),
            None => self.define_known(alloc, def),
        }
    }

    /// Adds the type of a function as a definition says it, and answers none; or the least reason
    /// to refuse the definition, and then adds nothing. What it names by index are types of this
    /// scope's own. It costs the definition's own length and a look-up for each of its labels; a
    /// type that an import moved is copied as `define_value` says, and the result beside the
    /// parameters.
    ///
    /// `AllocError` comes where there is no memory; its own types are then as they were. Whatever
    /// comes, what an import moved stays counted as it was: in the types of instances too.
    pub fn define_func(
        &mut self,
        alloc: Global,
        def: &FuncType,
    ) -> Result<Option<ValidReason>, AllocError>
        ensures fault { IfOk result (λ r.
            r ≡ least (func_def_broken (own_types self.old) (func_type_tree def.now))) }
        ensures defined { IfOk result (λ r. MatchOption r
            (own_types self.new ≡ own_types self.old
            ++ func_def_of (own_types self.old) (func_type_tree def.now) ∷ [])
            (λ _. own_types self.new ≡ own_types self.old)) }
        ensures kept { OnErr result (own_types self.new ≡ own_types self.old) }
        ensures around { types_around self.new ≡ types_around self.old }
        ensures grown { HasGrown self.old self.new }
        ensures stays { StaysSettled self.old self.new }
    {
        least_of_both();
        match uses_fault(self.sorts(), def) {
            Some(fault) => Ok(Some(fault)),
            None => self.define_used(alloc, def),
        }
    }
}
