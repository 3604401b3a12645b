//! Why the parts of a value type are refused.

ghost use Rattle.std.specs.Prelude.{◌≡◌, ◌++◌, IfOk, map, nat_le, nat_lt, length};
ghost use Rattle.std.specs.List.{flat_map};
ghost use Rattle.cm_types.specs.DefTypes.{def_val_type_tree};
ghost use Rattle.cm_validate_model.specs.declared.fault.ValidReason.TheVariants as reason;
ghost use Rattle.cm_validate_model.specs.Reasons.{least, unless};
ghost use Rattle.cm_validate_model.specs.TypeRules.{emptiness_broken, labels_broken, parts_broken};
ghost use Rattle.cm_validate_model.specs.TypeRules.{payload_broken, value_broken};

use crate::labels::{are_distinct, cases_are_distinct, fields_are_distinct};
use crate::reasons::{broken_unless, index_fault, lesser};
use cm_types::{CaseType, DefValType, Label, LabeledValType, MAX_FLAGS, ValType};
use cm_validate_model::laws::least_of_both;
use cm_validate_model::{TypeSort, ValidReason};
use std::alloc::{AllocError, Global};

/// Why a value type is refused where it is used: an index has to name a value type.
pub fn value_fault(sorts: &[TypeSort], ty: ValType) -> Option<ValidReason>
    ensures { result ≡ least (value_broken sorts.now ty) }
{
    match ty {
        ValType::Primitive(_) => None,
        ValType::Index(index) => index_fault(sorts, index, TypeSort::Value),
    }
}

/// Why a payload or a result, which may be left out, is refused where it is used.
pub fn payload_fault(sorts: &[TypeSort], payload: Option<ValType>) -> Option<ValidReason>
    ensures { result ≡ least (payload_broken sorts.now payload) }
{
    match payload {
        None => None,
        Some(ty) => value_fault(sorts, ty),
    }
}

/// Why the types of fields, or of parameters, are refused.
pub(crate) fn fields_fault(sorts: &[TypeSort], fields: &[LabeledValType]) -> Option<ValidReason>
    ensures { result ≡ least (flat_map (λ f. value_broken sorts.now f.ty) fields.now) }
{
    least_of_both();
    let mut fault = None;
    for field in fields {
        fault = lesser(fault, value_fault(sorts, field.ty));
    }
    fault
}

/// Why the payloads of cases are refused.
fn cases_fault(sorts: &[TypeSort], cases: &[CaseType]) -> Option<ValidReason>
    ensures { result ≡ least (flat_map (λ c. payload_broken sorts.now c.payload) cases.now) }
{
    least_of_both();
    let mut fault = None;
    for case in cases {
        fault = lesser(fault, payload_fault(sorts, case.payload));
    }
    fault
}

/// Why the types of a tuple's fields are refused.
fn types_fault(sorts: &[TypeSort], types: &[ValType]) -> Option<ValidReason>
    ensures { result ≡ least (flat_map (value_broken sorts.now) types.now) }
{
    least_of_both();
    let mut fault = None;
    for ty in types {
        fault = lesser(fault, value_fault(sorts, *ty));
    }
    fault
}

fn record_fault(
    alloc: Global,
    sorts: &[TypeSort],
    fields: &[LabeledValType],
) -> Result<Option<ValidReason>, AllocError>
    ensures { IfOk result (λ r. r ≡ least
        (flat_map (λ f. value_broken sorts.now f.ty) fields.now
        ++ emptiness_broken fields.now
        ++ labels_broken (map (λ f. f.label) fields.now))) }
{
    least_of_both();
    let distinct = fields_are_distinct(alloc, fields)?;
    let types = fields_fault(sorts, fields);
    let empty = broken_unless(!fields.is_empty(), ValidReason::EmptyType);
    let twice = broken_unless(distinct, ValidReason::DuplicateName);
    Ok(lesser(lesser(types, empty), twice))
}

fn variant_fault(
    alloc: Global,
    sorts: &[TypeSort],
    cases: &[CaseType],
) -> Result<Option<ValidReason>, AllocError>
    ensures { IfOk result (λ r. r ≡ least
        (flat_map (λ c. payload_broken sorts.now c.payload) cases.now
        ++ emptiness_broken cases.now
        ++ labels_broken (map (λ c. c.label) cases.now))) }
{
    least_of_both();
    let distinct = cases_are_distinct(alloc, cases)?;
    let types = cases_fault(sorts, cases);
    let empty = broken_unless(!cases.is_empty(), ValidReason::EmptyType);
    let twice = broken_unless(distinct, ValidReason::DuplicateName);
    Ok(lesser(lesser(types, empty), twice))
}

fn flags_fault(alloc: Global, labels: &[Label]) -> Result<Option<ValidReason>, AllocError>
    ensures { IfOk result (λ r. r ≡ least
        (emptiness_broken labels.now
        ++ unless (nat_le (length labels.now) MAX_FLAGS) reason.TooManyFlags
        ++ labels_broken labels.now)) }
{
    least_of_both();
    let distinct = are_distinct(alloc, labels)?;
    let empty = broken_unless(!labels.is_empty(), ValidReason::EmptyType);
    let many = broken_unless(labels.len() <= MAX_FLAGS, ValidReason::TooManyFlags);
    let twice = broken_unless(distinct, ValidReason::DuplicateName);
    Ok(lesser(lesser(empty, many), twice))
}

fn enum_fault(alloc: Global, labels: &[Label]) -> Result<Option<ValidReason>, AllocError>
    ensures { IfOk result (λ r.
        r ≡ least (emptiness_broken labels.now ++ labels_broken labels.now)) }
{
    least_of_both();
    let distinct = are_distinct(alloc, labels)?;
    let empty = broken_unless(!labels.is_empty(), ValidReason::EmptyType);
    let twice = broken_unless(distinct, ValidReason::DuplicateName);
    Ok(lesser(empty, twice))
}

fn tuple_fault(sorts: &[TypeSort], types: &[ValType]) -> Option<ValidReason>
    ensures { result ≡ least
        (flat_map (value_broken sorts.now) types.now ++ emptiness_broken types.now) }
{
    least_of_both();
    let empty = broken_unless(!types.is_empty(), ValidReason::EmptyType);
    lesser(types_fault(sorts, types), empty)
}

fn fixed_list_fault(sorts: &[TypeSort], element: ValType, length: u32) -> Option<ValidReason>
    ensures { result ≡ least
        (value_broken sorts.now element ++ unless (nat_lt 0 length) reason.EmptyType) }
{
    least_of_both();
    let empty = broken_unless(length > 0, ValidReason::EmptyType);
    lesser(value_fault(sorts, element), empty)
}

fn result_fault(
    sorts: &[TypeSort],
    ok: Option<ValType>,
    error: Option<ValType>,
) -> Option<ValidReason>
    ensures { result ≡ least
        (payload_broken sorts.now ok ++ payload_broken sorts.now error) }
{
    least_of_both();
    lesser(payload_fault(sorts, ok), payload_fault(sorts, error))
}

/// Why a definition of a value type is refused, its limits aside, after types of these sorts: the
/// reason with the smallest number, or none. `AllocError` comes where there is no memory to compare
/// labels; each is folded and looked up once.
pub fn parts_fault(
    alloc: Global,
    sorts: &[TypeSort],
    def: &DefValType,
) -> Result<Option<ValidReason>, AllocError>
    ensures { IfOk result (λ r. r ≡ least (parts_broken sorts.now (def_val_type_tree def.now))) }
{
    match def {
        DefValType::Primitive(_) => Ok(None),
        DefValType::Record(fields) => record_fault(alloc, sorts, fields),
        DefValType::Variant(cases) => variant_fault(alloc, sorts, cases),
        DefValType::List(ty) | DefValType::Option(ty) => Ok(value_fault(sorts, *ty)),
        DefValType::FixedList { element, length } => {
            Ok(fixed_list_fault(sorts, *element, *length))
        }
        DefValType::Tuple(types) => Ok(tuple_fault(sorts, types)),
        DefValType::Flags(labels) => flags_fault(alloc, labels),
        DefValType::Enum(labels) => enum_fault(alloc, labels),
        DefValType::Result { ok, error } => Ok(result_fault(sorts, *ok, *error)),
        DefValType::Own(index) | DefValType::Borrow(index) => {
            Ok(index_fault(sorts, *index, TypeSort::Resource))
        }
    }
}
