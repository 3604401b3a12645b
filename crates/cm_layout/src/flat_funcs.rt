//! The core signatures of functions.

ghost use Rattle.std.specs.Prelude.{◌≡◌, ◌∷◌, [], IfOk, OnOk, if◌then◌else◌, length};
ghost use Rattle.cm_types.specs.Funcs.{func_of};
ghost use Rattle.cm_types.specs.declared.core_value.CoreKind.TheVariants.{I32};
ghost use Rattle.cm_layout.specs.Flattening.{flat_of_fields, flat_of_payload};
ghost use Rattle.cm_layout.specs.FlatFuncs.{flat_func, flat_func_of};

use crate::flattening::{join_fields, join_flat};
use crate::{head, head_of_params};
use cm_types::{CoreKind, Func, MAX_FLAT_PARAMS, MAX_FLAT_RESULTS};
use std::alloc::{AllocError, Global};

/// Which core function: the one that a component lifts, or the one that it gets for a function that
/// it lowers.
#[derive(Clone, Copy, Debug, PartialEq, Eq)]
pub enum Side {
    Lift,
    Lower,
}

/// The signature of a core function.
#[derive(Drop)]
pub struct FlatFunc {
    pub params: Vec<CoreKind>,
    pub results: Vec<CoreKind>,
    /// Whether the parameters are passed as one pointer to their tuple in memory.
    pub spilled_params: bool,
    /// Whether the result is passed in memory: a lifted function answers a pointer to it, a lowered
    /// one takes the pointer as its last parameter and answers nothing.
    pub spilled_result: bool,
}

/// The core signature of a function. More than 16 flat parameters are one pointer to their tuple. A
/// result of more than 1 flat value is answered by a pointer to it where the function is lifted; a
/// lowered function takes that pointer as its last parameter and answers nothing. `AllocError`
/// comes where there is no memory for the lists (CanonicalABI.md, "Flattening").
pub fn flatten_func(alloc: Global, func: &Func, side: Side) -> Result<FlatFunc, AllocError>
    ensures { IfOk result (λ f. flat_func_of f ≡ flat_func side (func_of func.now)) }
{
    let spilled_params = params_width(func) > MAX_FLAT_PARAMS;
    let spilled_result = result_width(func) > MAX_FLAT_RESULTS;
    let mut params = flat_params(alloc, func, spilled_params)?;
    let mut results = Vec::new(alloc);
    if !spilled_result {
        join_result(&mut results, func)?;
    } else if side == Side::Lift {
        results.push(CoreKind::I32)?;
    } else {
        params.push(CoreKind::I32)?;
    }
    Ok(FlatFunc {
        params,
        results,
        spilled_params,
        spilled_result,
    })
}

/// How many core values pass the parameters, if all are passed.
fn params_width(func: &Func) -> usize
    ensures { result ≡ length (flat_of_fields (func_of func.now).params) }
{
    head_of_params(func).width as usize
}

/// How many core values pass the result, if all are passed.
fn result_width(func: &Func) -> usize
    ensures { result ≡ length (flat_of_payload (func_of func.now).result) }
{
    match &func.result {
        Some(ty) => head(ty).width as usize,
        None => 0,
    }
}

/// The parameters, or a pointer to them where they are spilled.
fn flat_params(alloc: Global, func: &Func, is_spilled: bool) -> Result<Vec<CoreKind>, AllocError>
    ensures { IfOk result (λ v. v.items
        ≡ (if is_spilled then I32 ∷ [] else flat_of_fields (func_of func.now).params)) }
{
    let mut kinds = Vec::new(alloc);
    if is_spilled {
        kinds.push(CoreKind::I32)?;
    } else {
        join_fields(&mut kinds, 0, &func.params)?;
    }
    Ok(kinds)
}

/// Puts the result's core values into an empty list.
fn join_result(kinds: &mut Vec<CoreKind>, func: &Func) -> Result<(), AllocError>
    requires { kinds.old.items ≡ [] }
    ensures { OnOk result (kinds.new.items ≡ flat_of_payload (func_of func.now).result) }
{
    if let Some(ty) = &func.result {
        join_flat(kinds, 0, &ty.root)?;
    }
    Ok(())
}
