//! Values in memory: one walk down a layout, whatever is made of them.

ghost use Rattle.std.specs.Prelude.{◌≡◌, ◌+◌, ◌*◌, ◌^◌, ◌<◌, ◌≤◌, [], IfSome, IsTrue, length, map};
ghost use Rattle.std.specs.Prelude.{ℕ};
ghost use Rattle.cm_abi_model.specs.Numbers.{number_at as bytes_at};
ghost use Rattle.cm_abi_model.specs.declared.encoding.StringEncoding.{StringEncoding as Encoded};
ghost use Rattle.cm_layout.specs.Laid.{Laid, PartsLaid, leaf_size as size_of_leaf};
ghost use Rattle.cm_layout.specs.Layouts.{layout_of, nothings, part_of, payload_of};
ghost use Rattle.cm_layout.specs.Shapes.{parts_from, payloads_from};
ghost use Rattle.cm_types.specs.Values.{elements, parts as values_in_place};
ghost use Rattle.cm_abi_load.specs.Outcomes.{State, mapped, state_of};
ghost use Rattle.cm_abi_load.specs.Making.{Makes};
ghost use Rattle.cm_abi_load.specs.Plain.{IsPlain, IsPlainLeaf};
ghost use Rattle.cm_abi_load.specs.Reading.{Source, leaf_value as value_of_leaf, read_at};
ghost use Rattle.cm_abi_load.specs.Reading.{read_case};
ghost use Rattle.cm_abi_load.specs.Reading.{read_each, read_elements, read_handle, read_parts};
ghost use Rattle.cm_abi_load.specs.Reading.{read_payload, source_of};
ghost use Rattle.cm_abi_load.specs.Records.{held, payload as payload_in, records_at, records_each};
ghost use Rattle.cm_abi_load.specs.Records.{records_of_cases, records_of_fields, records_of_list};
ghost use Rattle.cm_abi_load.specs.Records.{records_of_payload};
ghost use Rattle.cm_abi_load.specs.Sized.{ArePartsSized, ArePayloadsReadable, IsReadable};
ghost use Rattle.cm_abi_load.specs.Sized.{IsSized, IsSizedLeaf};

use crate::maker::{Maker, Reader};
use crate::regions::fits_a_slice;
use crate::{
    Progress, Stop, check_region, leaf_size, leaf_value, load_handle, number_32, number_at,
};
use cm_abi_model::{AbiFault, PartKind, PartRecord};
use cm_handles::Table;
use cm_layout::{Form, HandleType, Layout, Leaf, Part, Payload};
use cm_types::Value;

/// What is made of the value that a layout has at an address, in bytes from 0, part after part in
/// reading order.
///
/// Each handle and each tag of a string that is met is added to `progress`, the bytes of each
/// string and list are taken from those that may still come, and the record of each is kept. It
/// stops at the first fault: `Misaligned`, `PointerBounds`, `TooLarge` or `BadText` at a string or
/// a list, `BadChar` at a char, `BadCase` past the last case, `NoHandle`, `WrongResource` or
/// `NotOwned` at a handle; and with `Memory` where there is no memory for what is made or kept.
#[cycle(making)]
pub fn make_value<M: Maker>(
    reader: &Reader<'_, M>,
    layout: &Layout,
    at: usize,
    progress: &mut Progress,
    kept: &mut M::Kept,
) -> Result<M::Made, Stop>
    requires laid { Laid (layout_of layout.now).head.size (layout_of layout.now).shape }
    requires sized { IsSized (layout_of layout.now).shape }
    requires within { at + (layout_of layout.now).head.size
        ≤ length reader.now.giver.memory.now }
    ensures { Makes M.stands M.keeps M.allocates
        (records_at (source_of reader.now.giver) (M.target reader.now.maker)
        (layout_of layout.now).shape at)
        (read_at (source_of reader.now.giver) (layout_of layout.now).shape at
        (state_of progress.old))
        kept.old kept.new (state_of progress.old) (state_of progress.new) result }
{
    let memory = reader.giver.memory;
    match &layout.form {
        Form::Leaf(leaf) => make_leaf_at::<M>(memory, *leaf, at),
        Form::String => {
            let pointer = number_32(memory, at);
            let tagged = number_32(memory, at + 4);
            reader
                .maker
                .text(&reader.giver, pointer, tagged, progress, kept)
        }
        Form::List(element) => {
            let pointer = number_32(memory, at);
            let count = number_32(memory, at + 4);
            make_list(reader, element, pointer, count, progress, kept)
        }
        Form::FixedList { element, length } => {
            make_fixed_list(reader, element, at, *length, progress, kept)
        }
        Form::Fields(parts) => { make_fields(reader, parts, at, layout.head.size, progress, kept) }
        Form::Cases {
            discriminant,
            offset,
            payloads,
        } => {
            let index = number_at(memory, *discriminant, at) as u32;
            fits_a_slice(memory);
            let start = at + *offset as usize;
            make_case(reader, payloads, index, start, progress, kept)
        }
        Form::Enum {
            discriminant,
            count,
        } => make_enum::<M>(number_at(memory, *discriminant, at) as u32, *count),
        Form::Handle(wanted) => {
            make_handle::<M>(reader.giver.table, *wanted, number_32(memory, at), progress)
        }
    }
}

/// Whether each number is a value of a leaf, which is so of all but a char.
pub fn is_plain_leaf(leaf: Leaf) -> bool
    ensures { IsTrue result → IsPlainLeaf leaf }
{
    match leaf {
        Leaf::Bool | Leaf::Signed(_) | Leaf::Unsigned(_) | Leaf::Flags { .. } => true,
        Leaf::Char => false,
    }
}

/// Whether each number is a value of what is laid out so: a number, a bool or flags.
fn is_plain(layout: &Layout) -> bool
    ensures { IsTrue result → IsPlain (layout_of layout.now).shape }
{
    match &layout.form {
        Form::Leaf(Leaf::Bool | Leaf::Signed(_) | Leaf::Unsigned(_) | Leaf::Flags { .. }) => true,
        _ => false,
    }
}

/// What is made of a leaf at an address; a number is not looked at where that makes no difference.
///
/// It stops with `BadChar` at a number that is no Unicode scalar, for a char.
fn make_leaf_at<M: Maker>(memory: &[u8], leaf: Leaf, at: usize) -> Result<M::Made, Stop>
    requires laid { at + size_of_leaf leaf ≤ length memory.now }
    requires sized { IsSizedLeaf leaf }
    ensures { (s : State) (k : M.Kept) → Makes M.stands M.keeps M.allocates (λ v. [])
        (value_of_leaf leaf (bytes_at (size_of_leaf leaf) memory.now at) s) k k s s result }
{
    if is_plain_leaf(leaf) {
        if let Some(made) = M::unread() {
            return Ok(made);
        }
    }
    let value = leaf_value(leaf, number_at(memory, leaf_size(leaf), at))?;
    Ok(M::make(value))
}

/// What is made of the handle of an index; it is met, also where it is refused.
///
/// It stops with `NoHandle` where none stands there, else with `WrongResource` where it is of
/// another resource, else with `NotOwned` where it is a borrow and an owned one is wanted.
pub fn make_handle<M: Maker>(
    table: &Table,
    wanted: HandleType,
    index: u32,
    progress: &mut Progress,
) -> Result<M::Made, Stop>
    ensures { (k : M.Kept) → Makes M.stands M.keeps M.allocates (λ v. [])
        (read_handle table.now.handles wanted index (state_of progress.old)) k k
        (state_of progress.old) (state_of progress.new) result }
{
    let value = load_handle(table, wanted, index, progress)?;
    Ok(M::make(value))
}

/// What is made of the case of this number of an enum of so many.
///
/// It stops with `BadCase` past the last one.
fn make_enum<M: Maker>(index: u32, count: usize) -> Result<M::Made, Stop>
    ensures { (w : Source) (target : Encoded) (p : ℕ) (s : State) (k : M.Kept)
        → Makes M.stands M.keeps M.allocates (records_of_cases w target (nothings count) p)
        (read_case w (nothings count) index index p s) k k s s result }
{
    if (index as usize) < count {
        Ok(M::make(Value::Case {
            index,
            payload: None,
        }))
    } else {
        Err(Stop::Fault(AbiFault::BadCase))
    }
}

/// What is made of the list of so many elements at a pointer, by the layout of an element; its
/// record is kept before those of its elements, and their bytes are taken from those that may still
/// come.
///
/// It stops with `Misaligned` where the pointer is not aligned, else with `PointerBounds` where the
/// elements pass the end of the memory, else with `TooLarge` where fewer bytes may still come, else
/// at the first fault of an element.
#[cycle(making)]
#[tactic(auto, unfolding(crate::specs::Reading::read_elements))]
pub fn make_list<M: Maker>(
    reader: &Reader<'_, M>,
    element: &Layout,
    pointer: u32,
    count: u32,
    progress: &mut Progress,
    kept: &mut M::Kept,
) -> Result<M::Made, Stop>
    requires laid { Laid (layout_of element.now).head.size (layout_of element.now).shape }
    requires aligned { 0 < (layout_of element.now).head.align }
    requires sized { IsSized (layout_of element.now).shape }
    ensures { Makes M.stands M.keeps M.allocates
        (records_of_list
        (records_at (source_of reader.now.giver) (M.target reader.now.maker)
        (layout_of element.now).shape) (layout_of element.now).head pointer count)
        (mapped elements
        (read_elements
        (read_at (source_of reader.now.giver) (layout_of element.now).shape)
        reader.now.giver.memory.now (layout_of element.now).head pointer count
        (state_of progress.old)))
        kept.old kept.new (state_of progress.old) (state_of progress.new) result }
{
    let size = u64::from(count) * u64::from(element.head.size);
    let align = element.head.align;
    check_region(reader.giver.memory, align, pointer, size, progress)?;
    let list = PartRecord {
        at: pointer,
        count,
        size,
        align,
        kind: PartKind::Elements,
    };
    M::keep(kept, list)?;
    let row = make_each(reader, element, pointer as usize, count, progress, kept)?;
    Ok(M::list(row))
}

/// What is made of a list of fixed length at an address.
#[cycle(making)]
fn make_fixed_list<M: Maker>(
    reader: &Reader<'_, M>,
    element: &Layout,
    at: usize,
    count: u32,
    progress: &mut Progress,
    kept: &mut M::Kept,
) -> Result<M::Made, Stop>
    requires laid { Laid (layout_of element.now).head.size (layout_of element.now).shape }
    requires sized { IsSized (layout_of element.now).shape }
    requires within { at + count * (layout_of element.now).head.size
        ≤ length reader.now.giver.memory.now }
    ensures { Makes M.stands M.keeps M.allocates
        (λ v. records_each
        (records_at (source_of reader.now.giver) (M.target reader.now.maker)
        (layout_of element.now).shape) (layout_of element.now).head.size at (held v))
        (mapped values_in_place
        (read_each (read_at (source_of reader.now.giver) (layout_of element.now).shape)
        (layout_of element.now).head.size count at (state_of progress.old)))
        kept.old kept.new (state_of progress.old) (state_of progress.new) result }
{
    let row = make_each(reader, element, at, count, progress, kept)?;
    Ok(M::fields(row))
}

/// What is made of so many values, one behind the other; numbers are not looked at where that makes
/// no difference.
#[cycle(making)]
fn make_each<M: Maker>(
    reader: &Reader<'_, M>,
    element: &Layout,
    at: usize,
    count: u32,
    progress: &mut Progress,
    kept: &mut M::Kept,
) -> Result<M::Row, Stop>
    requires laid { Laid (layout_of element.now).head.size (layout_of element.now).shape }
    requires sized { IsSized (layout_of element.now).shape }
    requires within { at + count * (layout_of element.now).head.size
        ≤ length reader.now.giver.memory.now }
    ensures { Makes M.stand M.keeps M.allocates
        (records_each
        (records_at (source_of reader.now.giver) (M.target reader.now.maker)
        (layout_of element.now).shape) (layout_of element.now).head.size at)
        (read_each (read_at (source_of reader.now.giver) (layout_of element.now).shape)
        (layout_of element.now).head.size count at (state_of progress.old))
        kept.old kept.new (state_of progress.old) (state_of progress.new) result }
{
    if is_plain(element) {
        if let Some(row) = M::unread_row() {
            return Ok(row);
        }
    }
    fits_a_slice(reader.giver.memory);
    let mut row = M::row(reader.giver.alloc);
    let mut next = at;
    for _ in 0..count {
        let made = make_value(reader, element, next, progress, kept)?;
        M::push(&mut row, made)?;
        next += element.head.size as usize;
    }
    Ok(row)
}

/// What is made of the fields of a record or a tuple at an address.
#[cycle(making)]
fn make_fields<M: Maker>(
    reader: &Reader<'_, M>,
    parts: &[Part],
    at: usize,
    size: u32,
    progress: &mut Progress,
    kept: &mut M::Kept,
) -> Result<M::Made, Stop>
    requires laid { PartsLaid size 0 (parts_from (map part_of parts.now)) }
    requires sized { ArePartsSized (parts_from (map part_of parts.now)) }
    requires within { at + size ≤ length reader.now.giver.memory.now }
    ensures { Makes M.stands M.keeps M.allocates
        (λ v. records_of_fields (source_of reader.now.giver) (M.target reader.now.maker)
        (parts_from (map part_of parts.now)) at (held v))
        (mapped values_in_place
        (read_parts (source_of reader.now.giver) (parts_from (map part_of parts.now)) at
        (state_of progress.old)))
        kept.old kept.new (state_of progress.old) (state_of progress.new) result }
{
    let mut row = M::row(reader.giver.alloc);
    for part in parts {
        let made = make_field(reader, part, at, progress, kept)?;
        M::push(&mut row, made)?;
    }
    Ok(M::fields(row))
}

/// What is made of a field of what stands at an address.
#[cycle(making)]
fn make_field<M: Maker>(
    reader: &Reader<'_, M>,
    part: &Part,
    at: usize,
    progress: &mut Progress,
    kept: &mut M::Kept,
) -> Result<M::Made, Stop>
    requires readable { IsReadable (length reader.now.giver.memory.now)
        (at + (part_of part.now).0) (part_of part.now).1 }
    ensures { Makes M.stands M.keeps M.allocates
        (records_at (source_of reader.now.giver) (M.target reader.now.maker)
        (part_of part.now).1.shape (at + (part_of part.now).0))
        (read_at (source_of reader.now.giver) (part_of part.now).1.shape
        (at + (part_of part.now).0) (state_of progress.old))
        kept.old kept.new (state_of progress.old) (state_of progress.new) result }
{
    fits_a_slice(reader.giver.memory);
    let at = at + part.offset as usize;
    make_value(reader, &part.layout, at, progress, kept)
}

/// What is made of the case of this number, with its payload at an address.
///
/// It stops with `BadCase` past the last one.
#[cycle(making)]
fn make_case<M: Maker>(
    reader: &Reader<'_, M>,
    payloads: &[Payload],
    index: u32,
    at: usize,
    progress: &mut Progress,
    kept: &mut M::Kept,
) -> Result<M::Made, Stop>
    requires readable { ArePayloadsReadable (length reader.now.giver.memory.now) at
        (payloads_from (map payload_of payloads.now)) }
    ensures { Makes M.stands M.keeps M.allocates
        (records_of_cases (source_of reader.now.giver) (M.target reader.now.maker)
        (payloads_from (map payload_of payloads.now)) at)
        (read_case (source_of reader.now.giver) (payloads_from (map payload_of payloads.now))
        index index at (state_of progress.old))
        kept.old kept.new (state_of progress.old) (state_of progress.new) result }
{
    match payloads.get(index as usize) {
        Some(payload) => make_payload(reader, payload, index, at, progress, kept),
        None => Err(Stop::Fault(AbiFault::BadCase)),
    }
}

/// What is made of a case with what it carries, at an address.
#[cycle(making)]
fn make_payload<M: Maker>(
    reader: &Reader<'_, M>,
    payload: &Payload,
    index: u32,
    at: usize,
    progress: &mut Progress,
    kept: &mut M::Kept,
) -> Result<M::Made, Stop>
    requires readable { IfSome (payload_of payload.now)
        (IsReadable (length reader.now.giver.memory.now) at) }
    ensures { Makes M.stands M.keeps M.allocates
        (λ v. records_of_payload (source_of reader.now.giver) (M.target reader.now.maker)
        (payload_of payload.now) at (payload_in v))
        (read_payload (source_of reader.now.giver) (payload_of payload.now) index at
        (state_of progress.old))
        kept.old kept.new (state_of progress.old) (state_of progress.new) result }
{
    match payload {
        Payload::Nothing => Ok(M::make(Value::Case {
            index,
            payload: None,
        })),
        Payload::Carried(layout) => {
            let made = make_value(reader, layout, at, progress, kept)?;
            M::case(reader.giver.alloc, index, made)
        }
    }
}
