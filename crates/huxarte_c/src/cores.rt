//! Core values in numbers.

ghost use Rattle.std.specs.Prelude.{◌≡◌, IfErr, IfOk, OnOk, map};
ghost use Rattle.huxarte_c.specs.Cores.{value_of};
ghost use Rattle.huxarte_c.specs.Cores.{AreKinds, IsCoresFault, core_at, core_of, placed};

use crate::refusal::SetRefusal;
use cm_types::CoreValue;
use std::alloc::Global;

/// No event has more core values (CanonicalABI.md, `MAX_FLAT_PARAMS`).
pub const HUX_MAX_CORE: usize = 16;

/// A core value (CanonicalABI.md, "Flattening").
#[repr(C)]
#[derive(Clone, Copy)]
pub struct HuxCore {
    /// The number, without a sign of its own: one of 32 bits in the low half, above which is 0 in
    /// what the library writes, and nothing counts in what it reads.
    pub bits: u64,
    /// 0 for a number of 32 bits, 1 for one of 64.
    pub kind: u32,
}

impl HuxCore {
    /// A core value in numbers.
    fn of(value: CoreValue) -> HuxCore
        ensures { result ≡ core_of value }
    {
        match value {
            CoreValue::I32(number) => HuxCore {
                bits: u64::from(number),
                kind: 0,
            },
            CoreValue::I64(number) => HuxCore {
                bits: number,
                kind: 1,
            },
        }
    }

    /// The core value of these numbers: of kind 0 one of 32 bits, else one of 64.
    fn value(self) -> CoreValue
        ensures { result ≡ value_of self }
    {
        if self.kind == 0 {
            CoreValue::I32((self.bits % (1 << 32)) as u32)
        } else {
            CoreValue::I64(self.bits)
        }
    }
}

/// The core values of these numbers, in order.
///
/// `NoKind` has the place of the first that has no kind; `Memory` comes where there is none for the
/// list, which takes none where it is empty.
pub(crate) fn values_of(alloc: Global, cores: &[HuxCore]) -> Result<Vec<CoreValue>, SetRefusal>
    ensures values { IfOk result (λ vs. vs.items ≡ map value_of cores.now) }
    ensures kinds { OnOk result (AreKinds cores.now) }
    ensures refused { IfErr result (IsCoresFault cores.now) }
{
    let mut values = Vec::new(alloc);
    for (place, core) in cores.iter().enumerate() {
        if core.kind > 1 {
            return Err(SetRefusal::NoKind(place));
        }
        let Ok(()) = values.push(core.value()) else {
            return Err(SetRefusal::Memory);
        };
    }
    Ok(values)
}

/// The core value at a place in numbers, 0 of 32 bits where there is none.
fn core_at(values: &[CoreValue], place: usize) -> HuxCore
    ensures { result ≡ core_at values.now place }
{
    match values.get(place).copied() {
        Some(value) => HuxCore::of(value),
        None => HuxCore { bits: 0, kind: 0 },
    }
}

/// Core values in numbers, in an array; behind them stands 0 of 32 bits.
pub(crate) fn placed(values: &[CoreValue]) -> [HuxCore; HUX_MAX_CORE]
    ensures { result ≡ placed values.now }
{
    [
        core_at(values, 0),
        core_at(values, 1),
        core_at(values, 2),
        core_at(values, 3),
        core_at(values, 4),
        core_at(values, 5),
        core_at(values, 6),
        core_at(values, 7),
        core_at(values, 8),
        core_at(values, 9),
        core_at(values, 10),
        core_at(values, 11),
        core_at(values, 12),
        core_at(values, 13),
        core_at(values, 14),
        core_at(values, 15),
    ]
}
