//! Values in core values: one walk down a layout, whatever is made of them. What is behind a
//! pointer is read from memory.

ghost use Rattle.std.specs.Prelude.{◌≡◌, ◌^◌, ◌<◌, [], IfSome, List, length, map};
ghost use Rattle.cm_types.specs.declared.core_value.CoreValue.{CoreValue as Slot};
ghost use Rattle.cm_types.specs.Values.{parts as values_in_place};
ghost use Rattle.cm_layout.specs.Layouts.{layout_of, nothings, part_of, payload_of};
ghost use Rattle.cm_layout.specs.Shapes.{parts_from, payloads_from};
ghost use Rattle.cm_abi_model.specs.declared.encoding.StringEncoding.{StringEncoding as Encoded};
ghost use Rattle.cm_abi_model.specs.Numbers.{wrapped_at as wrapped};
ghost use Rattle.cm_abi_load.specs.Making.{Makes};
ghost use Rattle.cm_abi_load.specs.Outcomes.{State, mapped, state_of};
ghost use Rattle.cm_abi_load.specs.Reading.{Source, leaf_value as value_of_leaf, source_of};
ghost use Rattle.cm_abi_load.specs.Records.{held, payload as payload_in};
ghost use Rattle.cm_abi_load.specs.Sized.{IsSizedLeaf, core_size as size_of_core};
ghost use Rattle.cm_abi_lift.specs.FlatReading.{ArePartsFlatReadable};
ghost use Rattle.cm_abi_lift.specs.FlatReading.{ArePayloadsFlatReadable, IsFlatReadable};
ghost use Rattle.cm_abi_lift.specs.FlatReading.{IsFlatReadableLayout, read_flat, read_flat_case};
ghost use Rattle.cm_abi_lift.specs.FlatReading.{read_flat_each, read_flat_parts, read_flat_payload};
ghost use Rattle.cm_abi_lift.specs.FlatRecords.{flat_records, flat_records_each};
ghost use Rattle.cm_abi_lift.specs.FlatRecords.{flat_records_of_cases, flat_records_of_fields};
ghost use Rattle.cm_abi_lift.specs.FlatRecords.{flat_records_of_payload};

use cm_abi_load::laws::handles_stay_met;
use cm_abi_load::slots::{behind, number_32, wrapped_at};
use cm_abi_load::{
    Maker, Progress, Reader, Stop, core_size, is_plain_leaf, leaf_value, make_handle, make_list,
};
use cm_abi_model::AbiFault;
use cm_layout::{Form, Layout, Leaf, Part, Payload};
use cm_types::{CoreValue, Value};

/// What is made of the value that a layout has in the first of these core values, part after part
/// in reading order; those that are not there are 0. What is behind a pointer is read from memory.
///
/// Each handle and each tag of a string that is met is added to `progress`, the bytes of each
/// string and list are taken from those that may still come, and the record of each is kept. It
/// stops at the first fault, as [`cm_abi_load::make_value`] does, and with `Memory` where there is
/// no memory for what is made or kept.
#[cycle(walking)]
pub(crate) fn make_flat<M: Maker>(
    reader: &Reader<'_, M>,
    layout: &Layout,
    slots: &[CoreValue],
    progress: &mut Progress,
    kept: &mut M::Kept,
) -> Result<M::Made, Stop>
    requires ready { IsFlatReadable (layout_of layout.now).shape }
    ensures { Makes M.stands M.keeps M.allocates
        (flat_records (source_of reader.now.giver) (M.target reader.now.maker)
        (layout_of layout.now).shape slots.now)
        (read_flat (source_of reader.now.giver) (layout_of layout.now).shape slots.now
        (state_of progress.old))
        kept.old kept.new (state_of progress.old) (state_of progress.new) result }
{
    match &layout.form {
        Form::Leaf(leaf) => make_leaf::<M>(*leaf, slots),
        Form::String => {
            let pointer = number_32(slots, 0);
            let tagged = number_32(slots, 1);
            reader
                .maker
                .text(&reader.giver, pointer, tagged, progress, kept)
        }
        Form::List(element) => {
            let pointer = number_32(slots, 0);
            let count = number_32(slots, 1);
            make_list(reader, element, pointer, count, progress, kept)
        }
        Form::FixedList { element, length } => {
            make_fixed_list(reader, element, *length, slots, progress, kept)
        }
        Form::Fields(parts) => make_fields(reader, parts, slots, progress, kept),
        Form::Cases { payloads, .. } => {
            let index = number_32(slots, 0);
            make_case(reader, payloads, index, behind(slots, 1), progress, kept)
        }
        Form::Enum { count, .. } => make_enum::<M>(number_32(slots, 0), *count),
        Form::Handle(wanted) => {
            make_handle::<M>(reader.giver.table, *wanted, number_32(slots, 0), progress)
        }
    }
}

/// What is made of a leaf in the first core value; a number is not looked at where that makes no
/// difference.
///
/// It stops with `BadChar` at a number that is no Unicode scalar, for a char.
fn make_leaf<M: Maker>(leaf: Leaf, slots: &[CoreValue]) -> Result<M::Made, Stop>
    requires sized { IsSizedLeaf leaf }
    ensures { (s : State) (k : M.Kept) → Makes M.stands M.keeps M.allocates (λ v. [])
        (value_of_leaf leaf (wrapped (size_of_core leaf) slots.now 0) s) k k s s result }
{
    if is_plain_leaf(leaf) {
        if let Some(made) = M::unread() {
            return Ok(made);
        }
    }
    let value = leaf_value(leaf, wrapped_at(slots, core_size(leaf), 0))?;
    Ok(M::make(value))
}

/// What is made of the case of this number of an enum of so many.
///
/// It stops with `BadCase` past the last one.
fn make_enum<M: Maker>(index: u32, count: usize) -> Result<M::Made, Stop>
    ensures { (w : Source) (target : Encoded) (slots : List Slot) (s : State) (k : M.Kept)
        → Makes M.stands M.keeps M.allocates (flat_records_of_cases w target (nothings count) slots)
        (read_flat_case w (nothings count) index index slots s) k k s s result }
{
    if (index as usize) < count {
        Ok(M::make(Value::Case {
            index,
            payload: None,
        }))
    } else {
        Err(Stop::Fault(AbiFault::BadCase))
    }
}

/// What is made of a list of fixed length in the first of these core values.
#[cycle(walking)]
fn make_fixed_list<M: Maker>(
    reader: &Reader<'_, M>,
    element: &Layout,
    count: u32,
    slots: &[CoreValue],
    progress: &mut Progress,
    kept: &mut M::Kept,
) -> Result<M::Made, Stop>
    requires ready { IsFlatReadable (layout_of element.now).shape }
    ensures { Makes M.stands M.keeps M.allocates
        (λ v. flat_records_each
        (flat_records (source_of reader.now.giver) (M.target reader.now.maker)
        (layout_of element.now).shape) (layout_of element.now).head.width slots.now (held v))
        (mapped values_in_place
        (read_flat_each (read_flat (source_of reader.now.giver) (layout_of element.now).shape)
        (layout_of element.now).head.width count slots.now (state_of progress.old)))
        kept.old kept.new (state_of progress.old) (state_of progress.new) result }
{
    let row = make_each(reader, element, count, slots, progress, kept)?;
    Ok(M::fields(row))
}

/// What is made of so many values, one behind the other.
#[cycle(walking)]
fn make_each<M: Maker>(
    reader: &Reader<'_, M>,
    element: &Layout,
    count: u32,
    slots: &[CoreValue],
    progress: &mut Progress,
    kept: &mut M::Kept,
) -> Result<M::Row, Stop>
    requires ready { IsFlatReadable (layout_of element.now).shape }
    ensures { Makes M.stand M.keeps M.allocates
        (flat_records_each
        (flat_records (source_of reader.now.giver) (M.target reader.now.maker)
        (layout_of element.now).shape) (layout_of element.now).head.width slots.now)
        (read_flat_each (read_flat (source_of reader.now.giver) (layout_of element.now).shape)
        (layout_of element.now).head.width count slots.now (state_of progress.old))
        kept.old kept.new (state_of progress.old) (state_of progress.new) result }
{
    handles_stay_met();
    let mut row = M::row(reader.giver.alloc);
    let mut rest = slots;
    for _ in 0..count {
        let made = make_flat(reader, element, rest, progress, kept)?;
        M::push(&mut row, made)?;
        rest = behind(rest, element.head.width);
    }
    Ok(row)
}

/// What is made of the fields of a record or a tuple, in the first of these core values.
#[cycle(walking)]
fn make_fields<M: Maker>(
    reader: &Reader<'_, M>,
    parts: &[Part],
    slots: &[CoreValue],
    progress: &mut Progress,
    kept: &mut M::Kept,
) -> Result<M::Made, Stop>
    requires ready { ArePartsFlatReadable (parts_from (map part_of parts.now)) }
    ensures { Makes M.stands M.keeps M.allocates
        (λ v. flat_records_of_fields (source_of reader.now.giver) (M.target reader.now.maker)
        (parts_from (map part_of parts.now)) slots.now (held v))
        (mapped values_in_place
        (read_flat_parts (source_of reader.now.giver) (parts_from (map part_of parts.now))
        slots.now (state_of progress.old)))
        kept.old kept.new (state_of progress.old) (state_of progress.new) result }
{
    handles_stay_met();
    let mut row = M::row(reader.giver.alloc);
    let mut rest = slots;
    for part in parts {
        let made = make_field(reader, part, rest, progress, kept)?;
        M::push(&mut row, made)?;
        rest = behind(rest, part.layout.head.width);
    }
    Ok(M::fields(row))
}

/// What is made of a field, in the first of these core values.
#[cycle(walking)]
fn make_field<M: Maker>(
    reader: &Reader<'_, M>,
    part: &Part,
    slots: &[CoreValue],
    progress: &mut Progress,
    kept: &mut M::Kept,
) -> Result<M::Made, Stop>
    requires ready { IsFlatReadable (part_of part.now).1.shape }
    ensures { Makes M.stands M.keeps M.allocates
        (flat_records (source_of reader.now.giver) (M.target reader.now.maker)
        (part_of part.now).1.shape slots.now)
        (read_flat (source_of reader.now.giver) (part_of part.now).1.shape slots.now
        (state_of progress.old))
        kept.old kept.new (state_of progress.old) (state_of progress.new) result }
{
    make_flat(reader, &part.layout, slots, progress, kept)
}

/// What is made of the case of this number, with its payload in the first of these core values.
///
/// It stops with `BadCase` past the last one.
#[cycle(walking)]
fn make_case<M: Maker>(
    reader: &Reader<'_, M>,
    payloads: &[Payload],
    index: u32,
    slots: &[CoreValue],
    progress: &mut Progress,
    kept: &mut M::Kept,
) -> Result<M::Made, Stop>
    requires ready { ArePayloadsFlatReadable (payloads_from (map payload_of payloads.now)) }
    ensures { Makes M.stands M.keeps M.allocates
        (flat_records_of_cases (source_of reader.now.giver) (M.target reader.now.maker)
        (payloads_from (map payload_of payloads.now)) slots.now)
        (read_flat_case (source_of reader.now.giver)
        (payloads_from (map payload_of payloads.now)) index index slots.now
        (state_of progress.old))
        kept.old kept.new (state_of progress.old) (state_of progress.new) result }
{
    match payloads.get(index as usize) {
        Some(payload) => make_payload(reader, payload, index, slots, progress, kept),
        None => Err(Stop::Fault(AbiFault::BadCase)),
    }
}

/// What is made of a case with what it carries, in the first of these core values.
#[cycle(walking)]
fn make_payload<M: Maker>(
    reader: &Reader<'_, M>,
    payload: &Payload,
    index: u32,
    slots: &[CoreValue],
    progress: &mut Progress,
    kept: &mut M::Kept,
) -> Result<M::Made, Stop>
    requires ready { IfSome (payload_of payload.now) IsFlatReadableLayout }
    ensures { Makes M.stands M.keeps M.allocates
        (λ v. flat_records_of_payload (source_of reader.now.giver) (M.target reader.now.maker)
        (payload_of payload.now) slots.now (payload_in v))
        (read_flat_payload (source_of reader.now.giver) (payload_of payload.now) index slots.now
        (state_of progress.old))
        kept.old kept.new (state_of progress.old) (state_of progress.new) result }
{
    match payload {
        Payload::Nothing => Ok(M::make(Value::Case {
            index,
            payload: None,
        })),
        Payload::Carried(layout) => {
            let made = make_flat(reader, layout, slots, progress, kept)?;
            M::case(reader.giver.alloc, index, made)
        }
    }
}
