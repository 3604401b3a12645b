//! The checks that read no more than core values.

ghost use Rattle.std.specs.Prelude.{◌≡◌, ◌↔◌, IsTrue, map};
ghost use Rattle.cm_types.specs.CoreValues.{kind_of};
ghost use Rattle.cm_machine_model.specs.Step.{AreOf};
ghost use Rattle.cm_machine_parts.specs.Checks.{IsOneI32};

use cm_types::{CoreKind, CoreValue};

/// Whether a core value is of this kind.
fn is_of(value: CoreValue, kind: CoreKind) -> bool
    ensures { IsTrue result ↔ (kind_of value ≡ kind) }
{
    matches!(value, CoreValue::I32(_)) == matches!(kind, CoreKind::I32)
}

/// Whether core values are of these kinds, one for one.
pub fn are_of(kinds: &[CoreKind], values: &[CoreValue]) -> bool
    ensures { IsTrue result ↔ AreOf kinds.now values.now }
{
    if kinds.len() != values.len() {
        return false;
    }
    for i in 0..kinds.len() {
        if !is_of(values[i], kinds[i]) {
            return false;
        }
    }
    true
}

/// The one number of 32 bits that core values are, or `None` where they are something else.
pub fn one_i32(values: &[CoreValue]) -> Option<u32>
    ensures { IsOneI32 values.now result }
{
    match values {
        [CoreValue::I32(number)] => Some(*number),
        _ => None,
    }
}
