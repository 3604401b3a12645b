//! The types of functions in the arena of types.

use crate::building::build_fields;
use crate::funcs::{FuncDef, FuncEntry};
use crate::summaries::Summary;
use crate::types::{DefFault, Types};
use cm_types::{Func, TypeTree};
use std::alloc::{AllocError, Global};
use std::rc::Rc;

impl Types {
    ghost use Rattle.std.specs.Prelude.{◌≡◌, ◌<◌, ◌++◌, ◌∷◌, [], IfOk, OnOk, OnErr, IsErrOf};
    ghost use Rattle.std.specs.Prelude.{length, map};
    ghost use Rattle.std.specs.List.{AllByRecursion};
    ghost use Rattle.std.specs.Option.{SomeIff, option_map};
    ghost use Rattle.cm_types.specs.Funcs.{func_of, tree_type};
    ghost use Rattle.cm_types.specs.Limits.{IsWithinLimits};
    ghost use Rattle.cm_types_arena.specs.Arena.{IsFuncEntry, field_types};
    ghost use Rattle.cm_types_arena.specs.Places.{HasFuncParts, funcs_of, types_of};
    ghost use Rattle.cm_types_arena.specs.Summaries.{summary_of};
    ghost use Rattle.cm_types_arena.specs.TypeDefs.{IsBelow, func_at, func_def_type, params_type};
    ghost use Rattle.cm_types_arena.specs.TypeDefs.{type_at};
    ghost use Rattle.cm_types_arena.specs.declared.types.DefFault.TheVariants as def_fault;

    /// How many types of functions there are.
    pub fn func_count(&self) -> usize
        ensures { result ≡ length (funcs_of self.now) }
    {
        self.funcs.len()
    }

    /// The type of a function at a place.
    pub fn func(&self, place: usize) -> &Func
        requires { place < length (funcs_of self.now) }
        ensures { func_of result.now ≡ func_at (funcs_of self.now) place }
    {
        &self.funcs[place].func
    }

    /// The type of a function at a place, shared. `AllocError` comes where it is shared too often
    /// to be counted.
    pub fn share_func(&self, place: usize) -> Result<Rc<Func>, AllocError>
        requires { place < length (funcs_of self.now) }
        ensures { IfOk result (λ func. func_of func.value ≡ func_at (funcs_of self.now) place) }
    {
        self.funcs[place].func.clone()
    }

    /// The places of the types of a function's parameters, in order.
    pub fn func_params(&self, place: usize) -> &[usize]
        requires { place < length (funcs_of self.now) }
        ensures there { AllByRecursion (λ p. p < length (types_of self.now)) result.now }
        ensures params { field_types (func_at (funcs_of self.now) place).params
            ≡ map (type_at (types_of self.now)) result.now }
    {
        &self.funcs[place].params
    }

    /// The place of the type of a function's result, if it has one.
    pub fn func_result(&self, place: usize) -> Option<usize>
        requires { place < length (funcs_of self.now) }
        ensures there { IsBelow (length (types_of self.now)) result }
        ensures answer { (func_at (funcs_of self.now) place).result
            ≡ option_map (type_at (types_of self.now)) result }
    {
        self.funcs[place].result
    }

    /// What is known of a function's parameters, as the fields of a tuple.
    pub fn params_summary(&self, place: usize) -> Summary
        requires { place < length (funcs_of self.now) }
        ensures { result ≡ summary_of (params_type (func_at (funcs_of self.now) place)) }
    {
        self.funcs[place].summary
    }

    /// Adds the type of a function, and answers its place among those of functions.
    ///
    /// `TooLarge` comes where its parameters would not be within the limits as the fields of a
    /// tuple, and `Memory` where there is no memory for it; the types then stay as they are.
    pub fn push_func(&mut self, alloc: Global, def: FuncDef) -> Result<usize, DefFault>
        requires parts { HasFuncParts (length (types_of self.old)) def }
        ensures place { IfOk result (λ place. place ≡ length (funcs_of self.old)) }
        ensures pushed { OnOk result (funcs_of self.new
            ≡ funcs_of self.old ++ func_def_type (types_of self.old) def ∷ []) }
        ensures kept { OnErr result (funcs_of self.new ≡ funcs_of self.old) }
        ensures types { types_of self.new ≡ types_of self.old }
        ensures within { OnOk result
            (IsWithinLimits (params_type (func_def_type (types_of self.old) def))) }
        ensures too_large { IsErrOf result def_fault.TooLarge
            → ¬ (IsWithinLimits (params_type (func_def_type (types_of self.old) def))) }
        ensures spellable { ¬ (IsErrOf result def_fault.NotSpellable) }
    {
        let entry = self.func_entry(alloc, def)?;
        let place = self.funcs.len();
        match self.funcs.push(entry) {
            Ok(()) => Ok(place),
            Err(_) => Err(DefFault::Memory),
        }
    }

    /// The entry that stands for a function's type.
    fn func_entry(&self, alloc: Global, def: FuncDef) -> Result<FuncEntry, DefFault>
        requires parts { HasFuncParts (length (types_of self.now)) def }
        ensures entry { IfOk result (λ e. IsFuncEntry (types_of self.now) e) }
        ensures ty { IfOk result (λ e.
            func_of e.func.value ≡ func_def_type (types_of self.now) def) }
        ensures within { OnOk result
            (IsWithinLimits (params_type (func_def_type (types_of self.now) def))) }
        ensures too_large { IsErrOf result def_fault.TooLarge
            → ¬ (IsWithinLimits (params_type (func_def_type (types_of self.now) def))) }
        ensures spellable { ¬ (IsErrOf result def_fault.NotSpellable) }
    {
        let params = match def.param_places(alloc) {
            Ok(params) => params,
            Err(AllocError) => return Err(DefFault::Memory),
        };
        let summary = match self.func_def_summary(&def, &params) {
            Some(summary) => summary,
            None => return Err(DefFault::TooLarge),
        };
        let answer = def.result;
        match self.build_func(alloc, def) {
            Ok(func) => Ok(FuncEntry {
                func,
                params,
                result: answer,
                summary,
            }),
            Err(AllocError) => Err(DefFault::Memory),
        }
    }

    /// The type of a function, which shares the nodes of the types in it.
    fn build_func(&self, alloc: Global, def: FuncDef) -> Result<Rc<Func>, AllocError>
        requires parts { HasFuncParts (length (types_of self.now)) def }
        requires within { IsWithinLimits (params_type (func_def_type (types_of self.now) def)) }
        ensures { IfOk result (λ func.
            func_of func.value ≡ func_def_type (types_of self.now) def) }
    {
        let answer = self.func_answer(def.result)?;
        let params = build_fields(alloc, &self.entries, def.params)?;
        let func = Func {
            params,
            result: answer,
        };
        Ok(Rc::new(alloc, func)?)
    }

    /// The type of a function's result, shared.
    fn func_answer(&self, place: Option<usize>) -> Result<Option<TypeTree>, AllocError>
        requires { IsBelow (length (types_of self.now)) place }
        ensures { IfOk result (λ tree.
            option_map tree_type tree ≡ option_map (type_at (types_of self.now)) place) }
    {
        match place {
            Some(place) => Ok(Some(self.tree(place)?)),
            None => Ok(None),
        }
    }

    /// What is known of a function's parameters with types at these places, as the fields of a
    /// tuple, if they are within the limits.
    fn func_def_summary(&self, def: &FuncDef, params: &[usize]) -> Option<Summary>
        requires parts { params.now ≡ map (λ f. f.ty) def.now.params.items }
        ensures { SomeIff result
            (IsWithinLimits (params_type (func_def_type (types_of self.now) def.now)))
            (summary_of (params_type (func_def_type (types_of self.now) def.now))) }
    {
        let together = self.summary_together(params)?;
        together.above(1)
    }
}
