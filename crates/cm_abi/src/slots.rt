//! Core values from the numbers in slots.

ghost use Rattle.std.specs.Prelude.{◌≡◌, ◌≤◌, [], length, map, vec_capacity};
ghost use Rattle.cm_types.specs.CoreValues.{kind_of};
ghost use Rattle.cm_abi_model.specs.Numbers.{slot_number};
ghost use Rattle.cm_abi.specs.Kinds.{AreNumbersOf, IsNumberOf};

use cm_types::{CoreKind, CoreValue};

/// The core value of a kind with a number.
fn core_value(kind: CoreKind, number: u64) -> CoreValue
    requires fits { IsNumberOf kind number }
    ensures kind { kind_of result ≡ kind }
    ensures number { slot_number result ≡ number }
{
    match kind {
        CoreKind::I32 => CoreValue::I32(number as u32),
        CoreKind::I64 => CoreValue::I64(number),
    }
}

/// The core values of these kinds with these numbers, put where there is room for them.
pub(crate) fn put_core_values(kinds: &[CoreKind], numbers: &[u64], values: &mut Vec<CoreValue>)
    requires none { values.old.items ≡ [] }
    requires space { length kinds.now ≤ vec_capacity values.old }
    requires fit { AreNumbersOf kinds.now numbers.now }
    ensures kinds { map kind_of values.new.items ≡ kinds.now }
    ensures numbers { map slot_number values.new.items ≡ numbers.now }
{
    for (i, kind) in kinds.iter().enumerate() {
        values.push_reserved(core_value(*kind, numbers[i]));
    }
}
