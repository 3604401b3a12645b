//! Why the parameters and the result of a function are refused.

ghost use Rattle.std.specs.Prelude.{◌≡◌, IfOk};
ghost use Rattle.cm_types.specs.DefTypes.{func_type_tree};
ghost use Rattle.cm_validate_model.specs.Reasons.{least};
ghost use Rattle.cm_validate_model.specs.TypeRules.{params_broken, uses_broken};

use crate::labels::fields_are_distinct;
use crate::parts::{fields_fault, payload_fault};
use crate::reasons::{broken_unless, lesser};
use cm_types::FuncType;
use cm_validate_model::laws::least_of_both;
use cm_validate_model::{TypeSort, ValidReason};
use std::alloc::{AllocError, Global};

/// Why the types that a function uses are refused, after types of these sorts: `NoSuchIndex` where
/// one of them is not there, else `WrongSort` where one is no value type.
pub fn uses_fault(sorts: &[TypeSort], func: &FuncType) -> Option<ValidReason>
    ensures { result ≡ least (uses_broken sorts.now (func_type_tree func.now)) }
{
    least_of_both();
    let params = fields_fault(sorts, &func.params);
    lesser(params, payload_fault(sorts, func.result))
}

/// Why the labels of a function's parameters are refused: `DuplicateName` where two are the same
/// without ASCII case. `AllocError` comes where there is no memory to compare them.
pub fn params_fault(alloc: Global, func: &FuncType) -> Result<Option<ValidReason>, AllocError>
    ensures { IfOk result (λ r. r ≡ least (params_broken (func_type_tree func.now))) }
{
    let distinct = fields_are_distinct(alloc, &func.params)?;
    Ok(broken_unless(distinct, ValidReason::DuplicateName))
}
