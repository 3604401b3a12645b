//! Numbers in core values.

ghost use Rattle.std.specs.Prelude.{◌≡◌, ◌<◌, List, length, map, slice_index, ℕ};
ghost use Rattle.cm_types.specs.CoreValues.{kind_of};
ghost use Rattle.cm_abi_model.specs.Numbers.{slot_number};
ghost use Rattle.cm_abi_model.specs.Receives.{AreNumbers};
ghost use Rattle.cm_abi_model.specs.Stores.{Holds, IsBeside, Placed};
ghost use Rattle.cm_abi_store.specs.Kinds.{FitKinds, kind_limit};

use cm_types::CoreValue;

/// A number as a core value of the kind of another.
fn of_kind(value: CoreValue, number: u64) -> CoreValue
    requires fits { number < kind_limit (kind_of value) }
    ensures kind { kind_of result ≡ kind_of value }
    ensures number { slot_number result ≡ number }
{
    match value {
        CoreValue::I32(_) => CoreValue::I32(number as u32),
        CoreValue::I64(_) => CoreValue::I64(number),
    }
}

/// Puts numbers into core values, one for one, each of which keeps its kind. Each number fits the
/// kind of its core value. What the numbers hold, the core values hold then; it takes no memory.
pub fn put_numbers(numbers: &[u64], slots: &mut [CoreValue])
    requires length { length slots.old ≡ length numbers.now }
    requires fits { FitKinds (map kind_of slots.old) numbers.now }
    ensures { (puts : List Placed) → Holds numbers.now puts
        → ((k : ℕ) → IsBeside k puts → slice_index numbers.now k ≡ 0)
        → AreNumbers (map kind_of slots.old) slots.new puts }
{
    for i in 0..slots.len() {
        slots[i] = of_kind(slots[i], numbers[i]);
    }
}
