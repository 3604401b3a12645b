//! The lifts that a component exports, found by the core functions that they use.

ghost use Rattle.std.specs.Prelude.{◌≡◌, [], IfOk, List, map};
ghost use Rattle.cm_names.specs.Keys.{key_view};
ghost use Rattle.cm_types.specs.Types.{FuncTy};
ghost use Rattle.cm_validate_functions.specs.Kept.{lift_def};
ghost use Rattle.cm_validate_functions.specs.Lifts.{allocating, lifting, post_return};
ghost use Rattle.cm_validate_functions.specs.Options.{first_in, post_return_in, realloc_in};
ghost use Rattle.cm_validate_functions.specs.Tables.{number_key};

use crate::leading::func_key;
use crate::lifts::{Lift, exported_lifts};
use crate::options::{post_return, realloc};
use cm_names::Keys;
use cm_validate_spaces::Checked;
use std::alloc::{AllocError, Global};

/// Lifts, with tables of the core functions that they use.
#[derive(Drop)]
pub(crate) struct LiftTables<'a> {
    lifts: Vec<Lift<'a>>,
    lifted: Keys<'static>,
    post_returns: Keys<'static>,
    allocators: Keys<'static>,
}

/// The core functions that lifts lift.
#[tactic(auto, using(crate::proofs::KeyLaws::shows_laws))]
fn lifted_keys(alloc: Global, lifts: &[Lift<'_>]) -> Result<Vec<(usize, &'static str)>, AllocError>
    ensures { IfOk result (λ v. map key_view v.items
        ≡ map (λ l. (l.core_func, [])) lifts.now) }
{
    let mut keys = Vec::with_capacity(alloc, lifts.len())?;
    for lift in lifts {
        keys.push(func_key(Some(lift.core_func)))?;
    }
    Ok(keys)
}

/// The core functions that are called once the results of lifts were read.
#[tactic(auto, using(crate::proofs::KeyLaws::shows_laws))]
fn post_return_keys(
    alloc: Global,
    lifts: &[Lift<'_>],
) -> Result<Vec<(usize, &'static str)>, AllocError>
    ensures { IfOk result (λ v. map key_view v.items
        ≡ map (λ l. number_key (first_in post_return_in l.options.now)) lifts.now) }
{
    let mut keys = Vec::with_capacity(alloc, lifts.len())?;
    for lift in lifts {
        keys.push(func_key(post_return(lift.options)))?;
    }
    Ok(keys)
}

/// The core functions by which lifts have memory allocated.
#[tactic(auto, using(crate::proofs::KeyLaws::shows_laws))]
fn allocator_keys(
    alloc: Global,
    lifts: &[Lift<'_>],
) -> Result<Vec<(usize, &'static str)>, AllocError>
    ensures { IfOk result (λ v. map key_view v.items
        ≡ map (λ l. number_key (first_in realloc_in l.options.now)) lifts.now) }
{
    let mut keys = Vec::with_capacity(alloc, lifts.len())?;
    for lift in lifts {
        keys.push(func_key(realloc(lift.options)))?;
    }
    Ok(keys)
}

impl<'a> LiftTables<'a> {
    ghost use Rattle.std.specs.Prelude.{slice_get};
    ghost use Rattle.std.specs.List.{find};
    ghost use Rattle.std.specs.Option.{option_map};
    ghost use Rattle.cm_validate_spaces.specs.Checked.{funcs_in, spaces_in};
    ghost use Rattle.cm_validate_functions.specs.Kept.{AreLiftsOf};
    ghost use Rattle.cm_validate_functions.specs.Lifts.{LiftDef, lifts_of, uses};

    /// The lifts that a component exports.
    pub(crate) fn of(alloc: Global, checked: &Checked<'a>) -> Result<LiftTables<'a>, AllocError>
        ensures { IfOk result
            (AreLiftsOf (funcs_in checked.now) (lifts_of (spaces_in checked.now))) }
    {
        let lifts = exported_lifts(alloc, checked)?;
        let of_lifted = lifted_keys(alloc, &lifts)?;
        let lifted = Keys::new(alloc, of_lifted)?;
        let of_post_returns = post_return_keys(alloc, &lifts)?;
        let post_returns = Keys::new(alloc, of_post_returns)?;
        let of_allocators = allocator_keys(alloc, &lifts)?;
        let allocators = Keys::new(alloc, of_allocators)?;
        Ok(LiftTables {
            lifts,
            lifted,
            post_returns,
            allocators,
        })
    }

    /// The lift at a place, from 0.
    fn at(&self, place: usize) -> Option<Lift<'a>>
        ensures { result ≡ slice_get self.now.lifts.items place }
    {
        self.lifts.get(place).copied()
    }

    /// The first lift that lifts a core function.
    pub(crate) fn lifting(&self, func: u32) -> Option<Lift<'a>>
        ensures { (funcs : List FuncTy) (all : List LiftDef) → AreLiftsOf funcs all self.now
            → option_map (lift_def funcs) result ≡ find (uses lifting func) all }
    {
        match self.lifted.find(func as usize, "") {
            None => None,
            Some(place) => self.at(place),
        }
    }

    /// The first lift that has a core function called once its result was read.
    pub(crate) fn returning(&self, func: u32) -> Option<Lift<'a>>
        ensures { (funcs : List FuncTy) (all : List LiftDef) → AreLiftsOf funcs all self.now
            → option_map (lift_def funcs) result ≡ find (uses post_return func) all }
    {
        match self.post_returns.find(func as usize, "") {
            None => None,
            Some(place) => self.at(place),
        }
    }

    /// The first lift that has memory allocated by a core function.
    pub(crate) fn allocating(&self, func: u32) -> Option<Lift<'a>>
        ensures { (funcs : List FuncTy) (all : List LiftDef) → AreLiftsOf funcs all self.now
            → option_map (lift_def funcs) result ≡ find (uses allocating func) all }
    {
        match self.allocators.find(func as usize, "") {
            None => None,
            Some(place) => self.at(place),
        }
    }
}
