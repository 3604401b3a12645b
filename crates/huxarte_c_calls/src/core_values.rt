//! Core values by numbers.

ghost use Rattle.std.specs.Prelude.{◌≡◌, IfOk, length, map};
ghost use Rattle.cm_abi_model.specs.Numbers.{slot_number};
ghost use Rattle.cm_types.specs.CoreValues.{kind_of};
ghost use Rattle.huxarte_c_calls.specs.HandedOver.{core_value_of, core_values_of};

use cm_types::{CoreKind, CoreValue};
use std::alloc::{AllocError, Global};

/// A core value of a kind with this number, whose low 32 bits count for one of 32 bits.
fn core_value(kind: CoreKind, number: u64) -> CoreValue
    ensures value { result ≡ core_value_of kind number }
    ensures kind { kind_of result ≡ kind }
{
    match kind {
        CoreKind::I32 => CoreValue::I32((number % (1 << 32)) as u32),
        CoreKind::I64 => CoreValue::I64(number),
    }
}

/// Core values of these kinds with these numbers, one for one.
pub(crate) fn core_values(
    alloc: Global,
    kinds: &[CoreKind],
    numbers: &[u64],
) -> Result<Vec<CoreValue>, AllocError>
    requires { length numbers.now ≡ length kinds.now }
    ensures { IfOk result (λ vs. vs.items ≡ core_values_of kinds.now numbers.now) }
{
    let mut values = Vec::new(alloc);
    for (i, kind) in kinds.iter().enumerate() {
        values.push(core_value(*kind, numbers[i]))?;
    }
    Ok(values)
}

/// A core value of each kind, with 0 in it.
pub(crate) fn zeros(alloc: Global, kinds: &[CoreKind]) -> Result<Vec<CoreValue>, AllocError>
    ensures { IfOk result (λ vs. map kind_of vs.items ≡ kinds.now) }
{
    let mut values = Vec::new(alloc);
    for kind in kinds {
        values.push(core_value(*kind, 0))?;
    }
    Ok(values)
}

/// The number of a core value.
fn slot_number(value: CoreValue) -> u64
    ensures { result ≡ slot_number value }
{
    match value {
        CoreValue::I32(number) => u64::from(number),
        CoreValue::I64(number) => number,
    }
}

/// Puts the numbers of core values into slots, one for one.
pub(crate) fn put_values(slots: &mut [u64], values: &[CoreValue])
    requires { length slots.old ≡ length values.now }
    ensures { slots.new ≡ map slot_number values.now }
{
    for i in 0..slots.len() {
        slots[i] = slot_number(values[i]);
    }
}
