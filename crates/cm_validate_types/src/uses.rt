//! The value types that definitions use.

ghost use Rattle.std.specs.Prelude.{◌≡◌, ◌++◌, IfOk, map, option_to_list};
ghost use Rattle.std.specs.List.{flat_map};
ghost use Rattle.cm_types.specs.DefTypes.{def_val_type_tree, func_type_tree};
ghost use Rattle.cm_validate_types.specs.Uses.{params_of, uses_of};

use cm_types::{CaseType, DefValType, FuncType, LabeledValType, ValType};
use std::alloc::{AllocError, Global};

fn field_uses(alloc: Global, fields: &[LabeledValType]) -> Result<Vec<ValType>, AllocError>
    ensures { IfOk result (λ uses. uses.items ≡ map (λ f. f.ty) fields.now) }
{
    fields.iter().map(|field| field.ty).collect(alloc)
}

fn case_uses(alloc: Global, cases: &[CaseType]) -> Result<Vec<ValType>, AllocError>
    ensures { IfOk result (λ uses.
        uses.items ≡ flat_map (λ c. option_to_list c.payload) cases.now) }
{
    let mut uses = Vec::new(alloc);
    for case in cases {
        if let Some(ty) = case.payload {
            uses.push(ty)?;
        }
    }
    Ok(uses)
}

/// The value types that a definition uses, in order. `AllocError` comes where there is no memory
/// for them.
pub(crate) fn uses(alloc: Global, def: &DefValType) -> Result<Vec<ValType>, AllocError>
    ensures { IfOk result (λ uses. uses.items ≡ uses_of (def_val_type_tree def.now)) }
{
    match def {
        DefValType::Record(fields) => field_uses(alloc, fields),
        DefValType::Variant(cases) => case_uses(alloc, cases),
        DefValType::Tuple(types) => Vec::from_slice(alloc, types),
        DefValType::List(ty) | DefValType::Option(ty) => Vec::from_slice(alloc, &[*ty]),
        DefValType::FixedList { element, .. } => Vec::from_slice(alloc, &[*element]),
        DefValType::Result { ok, error } => result_uses(alloc, *ok, *error),
        DefValType::Primitive(_)
        | DefValType::Flags(_)
        | DefValType::Enum(_)
        | DefValType::Own(_)
        | DefValType::Borrow(_) => Ok(Vec::new(alloc)),
    }
}

fn result_uses(
    alloc: Global,
    ok: Option<ValType>,
    error: Option<ValType>,
) -> Result<Vec<ValType>, AllocError>
    ensures { IfOk result (λ uses. uses.items ≡ option_to_list ok ++ option_to_list error) }
{
    let mut uses = Vec::new(alloc);
    if let Some(ty) = ok {
        uses.push(ty)?;
    }
    if let Some(ty) = error {
        uses.push(ty)?;
    }
    Ok(uses)
}

/// These and the value type of a result, if there is one.
pub(crate) fn with_result(
    uses: Vec<ValType>,
    answer: Option<ValType>,
) -> Result<Vec<ValType>, AllocError>
    ensures { IfOk result (λ all. all.items ≡ uses.items ++ option_to_list answer) }
{
    let mut uses = uses;
    if let Some(ty) = answer {
        uses.push(ty)?;
    }
    Ok(uses)
}

/// The value types of a function's parameters, in order.
pub(crate) fn param_uses(alloc: Global, func: &FuncType) -> Result<Vec<ValType>, AllocError>
    ensures { IfOk result (λ uses. uses.items ≡ params_of (func_type_tree func.now)) }
{
    field_uses(alloc, &func.params)
}
