//! What a call passes, looked at by its checks.

ghost use Rattle.std.specs.Prelude.{◌≡◌};
ghost use Rattle.cm_types.specs.Types.{Ty};
ghost use Rattle.cm_layout.specs.Layouts.{layout_of};
ghost use Rattle.cm_layout.specs.Shapes.{layout_at};
ghost use Rattle.cm_abi_model.specs.Views.{flat_limit};
ghost use Rattle.cm_abi_model.specs.Ways.{way_of};
ghost use Rattle.cm_abi_load.specs.Outcomes.{state_of};
ghost use Rattle.cm_abi_load.specs.Reading.{source_of};
ghost use Rattle.cm_abi_running.specs.Checking.{passed_checked, spilled_checked};
ghost use Rattle.cm_abi_programs.specs.Checks.{checks_of, passed_checks_of};
ghost use Rattle.cm_abi_programs.specs.Coded.{checks_in};
ghost use Rattle.cm_abi_running.specs.Looks.{Looks};

use crate::looking::look_at;
use crate::looking_flat::look_at_flat;
use cm_abi_lift::{Passed, Recorder};
use cm_abi_load::laws::numbers_are_sized;
use cm_abi_load::slots::number_32;
use cm_abi_load::{Maker, Progress, Reader, Stop};
use cm_abi_model::{AbiFault, PartKind, PartRecord};
use cm_abi_programs::Check;
use cm_layout::Layout;
use cm_layout::laws::layouts;

/// Looks at the tuple of the values that are passed, by the checks of what passes it: in its core
/// values, or, where they are too many, at a pointer, where its own bytes are the first part
/// (CanonicalABI.md, "Lifting and Lowering Values", `lift_flat_values`). It keeps the record of
/// each part and each handle that is met.
///
/// At that pointer it stops with `Misaligned` where it is not aligned with the tuple, else with
/// `PointerBounds` where the tuple passes the end of the memory; else at the first fault of the
/// values in reading order, or with `Memory` where there is none for what is kept.
#[inline(always)]
pub fn look_at_passed(
    reader: &Reader<'_, Recorder>,
    passed: &Passed<'_>,
    checks: &[Check],
    progress: &mut Progress,
    records: &mut Vec<PartRecord>,
) -> Result<(), Stop>
    requires layout { (t : Ty) × (layout_of passed.now.layout.now ≡ layout_at t) }
    requires checks { checks_in checks.now
        ≡ passed_checks_of (flat_limit (way_of passed.now.way)) (layout_of passed.now.layout.now) }
    ensures { Looks
        (passed_checked (source_of reader.now.giver) reader.now.maker.target
        (flat_limit (way_of passed.now.way)) (layout_of passed.now.layout.now).head
        (checks_in checks.now) passed.now.slots.now (state_of progress.old))
        records.old.items records.new.items (state_of progress.old) (state_of progress.new) result }
{
    layouts();
    numbers_are_sized();
    if passed.layout.head.width as usize > passed.way.flat_limit() {
        let pointer = number_32(passed.slots, 0);
        look_at_spilled(reader, passed.layout, checks, pointer, progress, records)
    } else {
        look_at_flat(reader, checks, passed.slots, progress, records)
    }
}

/// Looks by its checks at the value at a pointer, of which its own bytes are the first part.
#[inline(always)]
fn look_at_spilled(
    reader: &Reader<'_, Recorder>,
    layout: &Layout,
    checks: &[Check],
    pointer: u32,
    progress: &mut Progress,
    records: &mut Vec<PartRecord>,
) -> Result<(), Stop>
    requires layout { (t : Ty) × (layout_of layout.now ≡ layout_at t) }
    requires checks { checks_in checks.now ≡ checks_of (layout_of layout.now).shape }
    ensures { Looks
        (spilled_checked (source_of reader.now.giver) reader.now.maker.target
        (layout_of layout.now).head (checks_in checks.now) pointer (state_of progress.old))
        records.old.items records.new.items (state_of progress.old) (state_of progress.new) result }
{
    layouts();
    numbers_are_sized();
    if pointer % layout.head.align != 0 {
        return Err(Stop::Fault(AbiFault::Misaligned));
    }
    if u64::from(pointer) + u64::from(layout.head.size) > reader.giver.memory.len() as u64 {
        return Err(Stop::Fault(AbiFault::PointerBounds));
    }
    let whole = PartRecord {
        at: pointer,
        count: 1,
        size: u64::from(layout.head.size),
        align: layout.head.align,
        kind: PartKind::Elements,
    };
    Recorder::keep(records, whole)?;
    look_at(reader, checks, pointer as usize, progress, records)
}
