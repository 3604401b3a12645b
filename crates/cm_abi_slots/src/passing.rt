//! Core values that are numbers alone, passed at once.

ghost use Rattle.std.specs.Prelude.{◌≡◌, ◌%◌, ◌^◌, ◌<◌, IfErr, IfOk, IsOk, List, OnOk};
ghost use Rattle.std.specs.Prelude.{length, map};
ghost use Rattle.cm_types.specs.Types.{Fields};
ghost use Rattle.cm_types.specs.Values.{Val};
ghost use Rattle.cm_types.specs.CoreValues.{kind_of};
ghost use Rattle.cm_layout.specs.Flattening.{flat_of_fields};
ghost use Rattle.cm_abi_model.specs.Denotes.{Denotes};
ghost use Rattle.cm_abi_model.specs.LiftStops.{LiftStops};
ghost use Rattle.cm_abi_model.specs.Numbers.{as_signed};
ghost use Rattle.cm_abi_model.specs.Stores.{from_signed};
ghost use Rattle.cm_abi_model.specs.Views.{View, Way};
ghost use Rattle.cm_abi_slots.specs.Passing.{FitsKind, IsFine, PassesNumbers, number_by, passed_by};
ghost use Rattle.cm_abi_slots.specs.Steps.{AreStepsOf};

use crate::steps::SlotStep;
use cm_abi_model::AbiFault;
use cm_types::CoreValue;

/// The low 8 bits of a number, widened with their sign.
#[tactic(auto, using(crate::proofs::NumberLemmas::widened_8))]
fn signed_8(number: u32) -> u32
    ensures { result ≡ from_signed 4 (as_signed 1 (number % 2 ^ 8)) }
{
    let low = number % 0x100;
    if low < 0x80 { low } else { low + 0xFFFF_FF00 }
}

/// The low 16 bits of a number, widened with their sign.
#[tactic(auto, using(crate::proofs::NumberLemmas::widened_16))]
fn signed_16(number: u32) -> u32
    ensures { result ≡ from_signed 4 (as_signed 2 (number % 2 ^ 16)) }
{
    let low = number % 0x1_0000;
    if low < 0x8000 { low } else { low + 0xFFFF_0000 }
}

/// The low bits of a number, so many of them.
#[tactic(auto, using(crate::proofs::NumberLemmas::flags))]
fn low_bits(number: u32, bits: u32) -> u32
    ensures { result ≡ number % 2 ^ bits }
{
    if bits >= 32 {
        number
    } else {
        number % (1 << bits)
    }
}

/// What a number becomes by a step.
///
/// It fails with `BadChar` where it has to be a Unicode scalar and is none.
fn number_by(step: SlotStep, number: u32) -> Result<u32, AbiFault>
    ensures number { IfOk result (λ n. n ≡ number_by step number) }
    ensures fine { OnOk result (IsFine step (CoreValue.I32 number)) }
    ensures fault { IfErr result (λ f. (f ≡ AbiFault.BadChar)
        × (IsFine step (CoreValue.I32 number) → ⊥)) }
{
    match step {
        SlotStep::Keep => Ok(number),
        SlotStep::Truth => Ok(u32::from(number != 0)),
        SlotStep::Low8 => Ok(number % 0x100),
        SlotStep::Low16 => Ok(number % 0x1_0000),
        SlotStep::Signed8 => Ok(signed_8(number)),
        SlotStep::Signed16 => Ok(signed_16(number)),
        SlotStep::Flags(labels) => Ok(low_bits(number, labels)),
        SlotStep::Char => match char::from_u32(number) {
            Some(_) => Ok(number),
            None => Err(AbiFault::BadChar),
        },
    }
}

/// Passes a core value by its step, in place; a number of 32 bits that stays is not written.
///
/// It fails with `BadChar` where it has to be a Unicode scalar and is none.
#[inline(always)]
fn pass_slot(step: SlotStep, slot: &mut CoreValue) -> Result<(), AbiFault>
    ensures fits { FitsKind slot.old }
    ensures passed { OnOk result (slot.new ≡ passed_by step slot.old) }
    ensures fine { OnOk result (IsFine step slot.old) }
    ensures fault { IfErr result (λ f.
        (f ≡ AbiFault.BadChar) × (IsFine step slot.old → ⊥) × (slot.new ≡ slot.old)) }
{
    match *slot {
        CoreValue::I32(number) => {
            if let SlotStep::Keep = step {
                return Ok(());
            }
            *slot = CoreValue::I32(number_by(step, number)?);
        }
        CoreValue::I64(number) => *slot = CoreValue::I64(number),
    }
    Ok(())
}

/// Passes core values by their steps, each in place: what they denote by the types of a call is
/// lifted and lowered again.
///
/// Where the core values are of the kinds that pass the types, and the steps are those of the
/// types: it succeeds exactly where the core values denote a value, and then they become what
/// passes it to any receiver (CanonicalABI.md, "Lifting and Lowering Values"). Else the answer is
/// the first fault of lifting, `BadChar`, at the first number that has to be a Unicode scalar and
/// is none; of the core values no more is known then than their kinds. No core value changes its
/// kind, and no memory is taken. The caller gives a step for each core value.
pub fn pass_slots(steps: &[SlotStep], slots: &mut [CoreValue]) -> Result<(), AbiFault>
    requires { length slots.old ≡ length steps.now }
    ensures passed { (w : View) (way : Way) (types : Fields) → AreStepsOf way types steps.now
        → map kind_of slots.old ≡ flat_of_fields types
        → OnOk result ((v : Val) × PassesNumbers w way types slots.old slots.new v) }
    ensures stops { (w : View) (way : Way) (types : Fields) → AreStepsOf way types steps.now
        → map kind_of slots.old ≡ flat_of_fields types
        → IfErr result (λ f. LiftStops w way types slots.old f) }
    ensures only { (w : View) (way : Way) (types : Fields) (v : Val)
        → AreStepsOf way types steps.now → map kind_of slots.old ≡ flat_of_fields types
        → Denotes w way types slots.old v → IsOk result }
    ensures kinds { map kind_of slots.new ≡ map kind_of slots.old }
{
    for i in 0..slots.len() {
        pass_slot(steps[i], &mut slots[i])?;
    }
    Ok(())
}
