//! Core values, known by their place from 0; those that are not there are 0.

ghost use Rattle.std.specs.Prelude.{◌≡◌, ◌*◌, ◌^◌, ◌<◌, drop};
ghost use Rattle.cm_abi_model.specs.Numbers.{slot_at, wrapped_at};
ghost use Rattle.cm_abi_load.specs.Sizes.{IsNumberSize};

use cm_types::CoreValue;

/// The number in a slot, whatever its kind.
fn slot_at(slots: &[CoreValue], at: usize) -> u64
    ensures { result ≡ slot_at slots.now at }
{
    match slots.get(at) {
        Some(CoreValue::I32(number)) => u64::from(*number),
        Some(CoreValue::I64(number)) => *number,
        None => 0,
    }
}

/// The number in a slot, wanted in so many bytes: what is above them is left out.
#[tactic(auto, using(crate::proofs::SlotLemmas::slots))]
pub fn wrapped_at(slots: &[CoreValue], bytes: u32, at: usize) -> u64
    requires size { IsNumberSize bytes }
    ensures value { result ≡ wrapped_at bytes slots.now at }
    ensures fits { result < 2 ^ (8 * bytes) }
{
    let number = slot_at(slots, at);
    match bytes {
        1 => number % 0x100,
        2 => number % 0x1_0000,
        4 => number % 0x1_0000_0000,
        _ => number,
    }
}

/// The number in a slot, wanted in 32 bits.
pub fn number_32(slots: &[CoreValue], at: usize) -> u32
    ensures { result ≡ wrapped_at 4 slots.now at }
{
    (slot_at(slots, at) % 0x1_0000_0000) as u32
}

/// The slots behind so many.
pub fn behind(slots: &[CoreValue], width: u32) -> &[CoreValue]
    ensures { result.now ≡ drop width slots.now }
{
    match slots.get(width as usize..) {
        Some(rest) => rest,
        None => &[],
    }
}
