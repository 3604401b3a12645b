//! The numbers of the cases in values.

ghost use Rattle.cm_abi_model.specs.Parts.{AllCasesFit, CasesFit};
ghost use Rattle.cm_types.specs.ValueTrees.{boxed_value, payload_value, value_of, values_of};

use cm_types::Value;

/// The numbers of the cases in a value are numbers of 32 bits. It takes no memory and changes
/// nothing.
#[cycle(fitting)]
fn case_fits(value: &Value)
    ensures { CasesFit (value_of value.now) }
{
    match value {
        Value::List(values) | Value::Fields(values) => cases_fit(values),
        Value::Case { index, payload } => payload_fits(*index, payload),
        _ => {}
    }
}

/// The number of a case, and those in what it carries.
#[cycle(fitting)]
fn payload_fits(index: u32, payload: &Option<Box<Value>>)
    ensures { CasesFit (payload_value index (boxed_value payload.now)) }
{
    if let Some(value) = payload {
        case_fits(value);
    }
}

/// Whether the cases of each of some values are counted in 32 bits.
#[cycle(fitting)]
pub(crate) fn cases_fit(values: &[Value])
    ensures { AllCasesFit (values_of values.now) }
{
    for value in values {
        case_fits(value);
    }
}
