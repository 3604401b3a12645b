//! What a call passes.

ghost use Rattle.std.specs.Prelude.{◌≡◌, ◌^◌, ◌<◌, length};
ghost use Rattle.cm_types.specs.Types.{Ty};
ghost use Rattle.cm_layout.specs.Layouts.{layout_of};
ghost use Rattle.cm_layout.specs.Shapes.{layout_at};
ghost use Rattle.cm_types.specs.ValueTrees.{value_of};
ghost use Rattle.cm_abi_model.specs.Views.{flat_limit};
ghost use Rattle.cm_abi_model.specs.Ways.{way_of};
ghost use Rattle.cm_abi_load.specs.Making.{Makes};
ghost use Rattle.cm_abi_load.specs.Outcomes.{Reads, state_of};
ghost use Rattle.cm_abi_load.specs.Reading.{source_of};
ghost use Rattle.cm_abi_lift.specs.FlatReading.{read_passed, read_spilled};
ghost use Rattle.cm_abi_lift.specs.FlatRecords.{passed_records, spilled_records};

use crate::walk::make_flat;
use cm_abi_load::laws::{handles_stay_met, numbers_are_sized};
use cm_abi_load::slots::number_32;
use cm_abi_load::{Giver, Maker, Progress, Reader, Stop, Trees, make_value};
use cm_abi_model::{AbiFault, PartKind, PartRecord, Way};
use cm_layout::Layout;
use cm_layout::laws::layouts;
use cm_types::{CoreValue, Value};

/// What a call passes: values as core values.
#[derive(Clone, Copy)]
pub struct Passed<'a> {
    /// Which way the values go, which says how many core values pass them at most.
    pub way: Way,
    /// The layout of the tuple of their types.
    pub layout: &'a Layout,
    /// The core values: those of the values one after another, or where they are too many one, a
    /// pointer to their tuple in memory.
    pub slots: &'a [CoreValue],
}

/// The tuple of the values that are passed, as a tree.
pub(crate) fn read_passed(
    giver: &Giver<'_>,
    passed: &Passed<'_>,
    progress: &mut Progress,
) -> Result<Value, Stop>
    requires layout { (t : Ty) × (layout_of passed.now.layout.now ≡ layout_at t) }
    ensures { Reads value_of result (state_of progress.new)
        (read_passed (source_of giver.now) (flat_limit (way_of passed.now.way))
        (layout_of passed.now.layout.now) passed.now.slots.now (state_of progress.old)) }
{
    let reader = Reader {
        giver: *giver,
        maker: Trees,
    };
    make_passed(&reader, passed, progress, &mut ())
}

/// What is made of the tuple of the values that are passed: of their core values, or, where they
/// are too many, of the tuple at a pointer, whose own bytes are the first part
/// (CanonicalABI.md, "Lifting and Lowering Values", `lift_flat_values`).
///
/// At that pointer it stops with `Misaligned` where it is not aligned with the tuple, else with
/// `PointerBounds` where the tuple passes the end of the memory; else at the first fault of the
/// values in reading order, or with `Memory` where there is none for what is made or kept.
pub fn make_passed<M: Maker>(
    reader: &Reader<'_, M>,
    passed: &Passed<'_>,
    progress: &mut Progress,
    kept: &mut M::Kept,
) -> Result<M::Made, Stop>
    requires layout { (t : Ty) × (layout_of passed.now.layout.now ≡ layout_at t) }
    ensures { Makes M.stands M.keeps M.allocates
        (passed_records (source_of reader.now.giver) (M.target reader.now.maker)
        (flat_limit (way_of passed.now.way)) (layout_of passed.now.layout.now) passed.now.slots.now)
        (read_passed (source_of reader.now.giver) (flat_limit (way_of passed.now.way))
        (layout_of passed.now.layout.now) passed.now.slots.now (state_of progress.old))
        kept.old kept.new (state_of progress.old) (state_of progress.new) result }
{
    layouts();
    numbers_are_sized();
    if passed.layout.head.width as usize > passed.way.flat_limit() {
        make_spilled(
            reader,
            passed.layout,
            number_32(passed.slots, 0),
            progress,
            kept,
        )
    } else {
        make_flat(reader, passed.layout, passed.slots, progress, kept)
    }
}

/// What is made of the value at a pointer, of which its own bytes are the first part.
#[tactic(auto, unfolding(crate::specs::FlatReading::read_spilled))]
fn make_spilled<M: Maker>(
    reader: &Reader<'_, M>,
    layout: &Layout,
    pointer: u32,
    progress: &mut Progress,
    kept: &mut M::Kept,
) -> Result<M::Made, Stop>
    requires layout { (t : Ty) × (layout_of layout.now ≡ layout_at t) }
    ensures { Makes M.stands M.keeps M.allocates
        (spilled_records (source_of reader.now.giver) (M.target reader.now.maker)
        (layout_of layout.now) pointer)
        (read_spilled (source_of reader.now.giver) (layout_of layout.now) pointer
        (state_of progress.old))
        kept.old kept.new (state_of progress.old) (state_of progress.new) result }
{
    layouts();
    numbers_are_sized();
    handles_stay_met();
    if pointer % layout.head.align != 0 {
        return Err(Stop::Fault(AbiFault::Misaligned));
    }
    if u64::from(pointer) + u64::from(layout.head.size) > reader.giver.memory.len() as u64 {
        return Err(Stop::Fault(AbiFault::PointerBounds));
    }
    let tuple = PartRecord {
        at: pointer,
        count: 1,
        size: u64::from(layout.head.size),
        align: layout.head.align,
        kind: PartKind::Elements,
    };
    M::keep(kept, tuple)?;
    make_value(reader, layout, pointer as usize, progress, kept)
}
