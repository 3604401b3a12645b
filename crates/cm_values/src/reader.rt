//! Values of any type.

ghost use Rattle.std.specs.Prelude.{[], codes, map};
ghost use Rattle.std.specs.Option.{option_map};
ghost use Rattle.cm_types.specs.Types.{carrying, cases, enum_type, no_cases, option_type, plain};
ghost use Rattle.cm_types.specs.Types.{record_type, tuple_type, variant_type};
ghost use Rattle.cm_types.specs.TypeTrees.{cases_of, field_of, fields_of, parts_of, plain_from};
ghost use Rattle.cm_types.specs.TypeTrees.{shared_payload, type_of};
ghost use Rattle.cm_types.specs.ValueTrees.{value_of};
ghost use Rattle.cm_values.specs.ReadFaults.{Gives};
ghost use Rattle.cm_values.specs.Grammar.{steps, with_front};
ghost use Rattle.cm_values.specs.Lists.{inner_items, items, next_item, some_items};
ghost use Rattle.cm_values.specs.Reading.{Reads};
ghost use Rattle.cm_values.specs.Values.{case_value, fields_value, fixed_list_value};
ghost use Rattle.cm_values.specs.Values.{list_value, member, members, payload_value, value};

use crate::cursor::Cursor;
use crate::leaves::{read_char, read_handle, read_signed, read_string, read_truth, read_unsigned};
use crate::names::{read_case_name, read_either, read_enum_name, read_name};
use crate::parsed_flags::read_flags;
use crate::value_fault::{ReadError, ValueReason};
use cm_types::{Case, Field, Label, TypeNode, Value};
use std::alloc::Global;
use std::rc::Rc;

/// Reads a value of a type.
#[cycle(reading)]
pub fn read_value(alloc: Global, cursor: &mut Cursor<'_>, ty: &TypeNode) -> Result<Value, ReadError>
    ensures { Reads (value (type_of ty.now)) value_of cursor.old cursor.new result }
{
    match ty {
        TypeNode::Bool => read_truth(cursor),
        TypeNode::S8 => read_signed(cursor, 0x80),
        TypeNode::S16 => read_signed(cursor, 0x8000),
        TypeNode::S32 => read_signed(cursor, 0x8000_0000),
        TypeNode::S64 => read_signed(cursor, 0x8000_0000_0000_0000),
        TypeNode::U8 => read_unsigned(cursor, 0x100),
        TypeNode::U16 => read_unsigned(cursor, 0x1_0000),
        TypeNode::U32 => read_unsigned(cursor, 0x1_0000_0000),
        TypeNode::U64 => read_unsigned(cursor, 0x1_0000_0000_0000_0000),
        TypeNode::Char => read_char(alloc, cursor),
        TypeNode::String => read_string(alloc, cursor),
        TypeNode::List(element) => read_list(alloc, cursor, element),
        TypeNode::FixedList { element, length } => {
            read_fixed_list(alloc, cursor, element, *length)
        }
        TypeNode::Record(fields) => read_record(alloc, cursor, fields),
        TypeNode::Tuple(parts) => read_tuple(alloc, cursor, parts),
        TypeNode::Variant(cases) => read_variant(alloc, cursor, cases),
        TypeNode::Enum(labels) => read_enum(cursor, labels),
        TypeNode::Option(some) => read_option(alloc, cursor, some),
        TypeNode::Result { ok, error } => match read_either(cursor, b"ok", b"err")? {
            0 => read_shared_case(alloc, cursor, 0, ok),
            _ => read_shared_case(alloc, cursor, 1, error),
        },
        TypeNode::Flags(labels) => read_flags(cursor, labels),
        TypeNode::Own(id) | TypeNode::Borrow(id) => read_handle(cursor, *id),
    }
}

#[cycle(reading)]
fn read_list(alloc: Global, cursor: &mut Cursor<'_>, element: &TypeNode) -> Result<Value, ReadError>
    ensures { Reads (list_value (value (type_of element.now))) value_of
        cursor.old cursor.new result }
{
    Ok(Value::List(read_items(alloc, cursor, element)?))
}

/// Reads exactly so many values.
#[cycle(reading)]
fn read_fixed_list(
    alloc: Global,
    cursor: &mut Cursor<'_>,
    element: &TypeNode,
    length: u32,
) -> Result<Value, ReadError>
    ensures { Reads (fixed_list_value (value (type_of element.now)) length) value_of
        cursor.old cursor.new result }
{
    cursor.gap();
    let start = *cursor;
    let values = read_items(alloc, cursor, element)?;
    if values.len() == length as usize {
        Ok(Value::Fields(values))
    } else {
        Err(start.fault(ValueReason::WrongLength))
    }
}

#[cycle(reading)]
fn read_items(
    alloc: Global,
    cursor: &mut Cursor<'_>,
    element: &TypeNode,
) -> Result<Vec<Value>, ReadError>
    ensures { Reads (items 0x5B 0x5D (value (type_of element.now))) (λ v. map value_of v.items)
        cursor.old cursor.new result }
{
    cursor.mark(b'[')?;
    let values = read_inner_items(alloc, cursor, element)?;
    cursor.mark(b']')?;
    Ok(values)
}

#[cycle(reading)]
fn read_inner_items(
    alloc: Global,
    cursor: &mut Cursor<'_>,
    element: &TypeNode,
) -> Result<Vec<Value>, ReadError>
    ensures { Reads (inner_items 0x5D (value (type_of element.now))) (λ v. map value_of v.items)
        cursor.old cursor.new result }
{
    cursor.gap();
    if cursor.next_is(b']') {
        Ok(Vec::new(alloc))
    } else {
        read_some_items(alloc, cursor, element)
    }
}

#[cycle(reading)]
fn read_some_items(
    alloc: Global,
    cursor: &mut Cursor<'_>,
    element: &TypeNode,
) -> Result<Vec<Value>, ReadError>
    ensures { Reads (some_items 0x5D (value (type_of element.now))) (λ v. map value_of v.items)
        cursor.old cursor.new result }
{
    let mut values = Vec::new(alloc);
    values.push(read_value(alloc, cursor, element)?)?;
    read_further_items(alloc, cursor, element, values)
}

/// Reads the values behind commas, and puts them behind those that were read.
#[cycle(reading)]
fn read_further_items(
    alloc: Global,
    cursor: &mut Cursor<'_>,
    element: &TypeNode,
    mut values: Vec<Value>,
) -> Result<Vec<Value>, ReadError>
    ensures { Gives (λ v. (map value_of v.items, cursor.new.rest.now)) result (with_front
        (map value_of values.items)
        ((steps (next_item 0x5D (value (type_of element.now)))).reads cursor.old.rest.now)) }
{
    while let Some(value) = read_next_item(alloc, cursor, element)? {
        values.push(value)?;
    }
    Ok(values)
}

/// Reads a comma and the value behind it, where they stand.
#[cycle(reading)]
fn read_next_item(
    alloc: Global,
    cursor: &mut Cursor<'_>,
    element: &TypeNode,
) -> Result<Option<Value>, ReadError>
    ensures { Reads (next_item 0x5D (value (type_of element.now))) (λ o. option_map value_of o)
        cursor.old cursor.new result }
{
    cursor.gap();
    if !cursor.next_is(b',') {
        return Ok(None);
    }
    cursor.expect(b',')?;
    cursor.gap();
    if cursor.next_is(b']') {
        Ok(None)
    } else {
        Ok(Some(read_value(alloc, cursor, element)?))
    }
}

#[cycle(reading)]
fn read_record(alloc: Global, cursor: &mut Cursor<'_>, fields: &[Field]) -> Result<Value, ReadError>
    ensures { Reads (fields_value record_type (members record_type (fields_of fields.now))) value_of
        cursor.old cursor.new result }
{
    cursor.mark(b'{')?;
    let values = read_fields(alloc, cursor, fields)?;
    cursor.mark(b'}')?;
    Ok(Value::Fields(values))
}

#[cycle(reading)]
fn read_fields(
    alloc: Global,
    cursor: &mut Cursor<'_>,
    fields: &[Field],
) -> Result<Vec<Value>, ReadError>
    ensures { Reads (members record_type (fields_of fields.now)) (λ v. map value_of v.items)
        cursor.old cursor.new result }
{
    let mut values = Vec::new(alloc);
    for field in fields {
        let value = read_field(alloc, cursor, field)?;
        values.push(value)?;
    }
    Ok(values)
}

#[cycle(reading)]
fn read_field(alloc: Global, cursor: &mut Cursor<'_>, field: &Field) -> Result<Value, ReadError>
    ensures { Reads (member record_type (field_of field.now).0 (value (field_of field.now).1))
        value_of cursor.old cursor.new result }
{
    read_name(cursor, field.label.as_bytes())?;
    cursor.gap();
    cursor.mark_gap(b':')?;
    let value = read_value(alloc, cursor, &field.ty)?;
    cursor.separator(b'}')?;
    Ok(value)
}

#[cycle(reading)]
fn read_tuple(
    alloc: Global,
    cursor: &mut Cursor<'_>,
    parts: &[TypeNode],
) -> Result<Value, ReadError>
    ensures { Reads (fields_value tuple_type (members tuple_type (parts_of parts.now))) value_of
        cursor.old cursor.new result }
{
    cursor.mark(b'(')?;
    let values = read_parts(alloc, cursor, parts)?;
    cursor.mark(b')')?;
    Ok(Value::Fields(values))
}

#[cycle(reading)]
fn read_parts(
    alloc: Global,
    cursor: &mut Cursor<'_>,
    parts: &[TypeNode],
) -> Result<Vec<Value>, ReadError>
    ensures { Reads (members tuple_type (parts_of parts.now)) (λ v. map value_of v.items)
        cursor.old cursor.new result }
{
    let mut values = Vec::new(alloc);
    for part in parts {
        let value = read_part(alloc, cursor, part)?;
        values.push(value)?;
    }
    Ok(values)
}

#[cycle(reading)]
fn read_part(alloc: Global, cursor: &mut Cursor<'_>, part: &TypeNode) -> Result<Value, ReadError>
    ensures { Reads (member tuple_type [] (value (type_of part.now))) value_of
        cursor.old cursor.new result }
{
    let value = read_value(alloc, cursor, part)?;
    cursor.separator(b')')?;
    Ok(value)
}

#[cycle(reading)]
fn read_variant(
    alloc: Global,
    cursor: &mut Cursor<'_>,
    variants: &[Case],
) -> Result<Value, ReadError>
    ensures { Reads (value (cases variant_type (cases_of variants.now))) value_of
        cursor.old cursor.new result }
{
    let index = read_case_name(cursor, variants)?;
    match variants.get(index as usize) {
        Some(case) => read_case(alloc, cursor, index, &case.payload),
        None => Err(cursor.fault(ValueReason::UnknownName)),
    }
}

/// Reads the payload of a case, if it carries one.
#[cycle(reading)]
fn read_case(
    alloc: Global,
    cursor: &mut Cursor<'_>,
    index: u32,
    payload: &Option<TypeNode>,
) -> Result<Value, ReadError>
    ensures { Reads (case_value index (option_map type_of payload.now)) value_of
        cursor.old cursor.new result }
{
    match payload {
        None => Ok(Value::Case {
            index,
            payload: None,
        }),
        Some(ty) => read_payload(alloc, cursor, index, ty),
    }
}

#[cycle(reading)]
fn read_payload(
    alloc: Global,
    cursor: &mut Cursor<'_>,
    index: u32,
    ty: &TypeNode,
) -> Result<Value, ReadError>
    ensures { Reads (payload_value (value (type_of ty.now)) index) value_of
        cursor.old cursor.new result }
{
    cursor.mark(b'(')?;
    let payload = Box::new(alloc, read_value(alloc, cursor, ty)?)?;
    cursor.mark(b')')?;
    Ok(Value::Case {
        index,
        payload: Some(payload),
    })
}

fn read_enum(cursor: &mut Cursor<'_>, labels: &[Label]) -> Result<Value, ReadError>
    ensures { Reads (value (cases enum_type (plain_from labels.now))) value_of
        cursor.old cursor.new result }
{
    let index = read_enum_name(cursor, labels)?;
    Ok(Value::Case {
        index,
        payload: None,
    })
}

#[cycle(reading)]
fn read_option(alloc: Global, cursor: &mut Cursor<'_>, some: &TypeNode) -> Result<Value, ReadError>
    ensures { Reads (value (cases option_type
        (plain (codes "none") (carrying (codes "some") (type_of some.now) no_cases)))) value_of
        cursor.old cursor.new result }
{
    match read_either(cursor, b"none", b"some")? {
        0 => Ok(Value::Case {
            index: 0,
            payload: None,
        }),
        _ => read_payload(alloc, cursor, 1, some),
    }
}

#[cycle(reading)]
fn read_shared_case(
    alloc: Global,
    cursor: &mut Cursor<'_>,
    index: u32,
    payload: &Option<Rc<TypeNode>>,
) -> Result<Value, ReadError>
    ensures { Reads (case_value index (shared_payload payload.now)) value_of
        cursor.old cursor.new result }
{
    match payload {
        None => Ok(Value::Case {
            index,
            payload: None,
        }),
        Some(ty) => read_payload(alloc, cursor, index, ty),
    }
}
