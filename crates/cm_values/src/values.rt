//! Values of any type.

ghost use Rattle.std.specs.Prelude.{◌++◌, codes};
ghost use Rattle.std.specs.Option.{option_map};
ghost use Rattle.cm_types.specs.Types.{carrying, cases, enum_type, no_cases, option_type, plain};
ghost use Rattle.cm_types.specs.Types.{record_type, tuple_type, variant_type};
ghost use Rattle.cm_types.specs.TypeTrees.{cases_of, field_of, fields_of, parts_of, plain_from};
ghost use Rattle.cm_types.specs.TypeTrees.{shared_payload, type_of};
ghost use Rattle.cm_values.specs.SpelledNames.{name_spelling};
ghost use Rattle.cm_types.specs.ValueTrees.{boxed_value, payload_value, value_of, values_of};
ghost use Rattle.cm_values.specs.Spelling.{case_end, each, fields_by, fields_spelling};
ghost use Rattle.cm_values.specs.Spelling.{handle_spelling, in_marks, label_spelling};
ghost use Rattle.cm_values.specs.Spelling.{list_spelling};
ghost use Rattle.cm_values.specs.Spelling.{spelling, spelling_by, usual_by, with_commas};
ghost use Rattle.cm_values.specs.Written.{Shows, Writes};

use crate::printed_flags::put_flags;
use crate::putting::{put, put_comma, put_name, put_number, put_signed};
use crate::quotes::{put_char, put_text};
use crate::worded::{Style, Worded};
use cm_types::{Case, Field, Label, TypeNode, Value};
use std::alloc::AllocError;
use std::rc::Rc;

/// Adds a value of a type, as far as there is room: its own words, or those of the notation, of
/// which there are none where it has not the type.
#[cycle(printing)]
#[tactic(auto, using(crate::proofs::FrontLaws::front_laws))]
pub fn put_value<W: Worded>(
    out: &mut String,
    value: &Value,
    ty: &TypeNode,
    style: &Style<W>,
) -> Result<(), AllocError>
    ensures { Shows style.now.room
        (spelling_by (W.words style.now.worded) (type_of ty.now) (value_of value.now))
        out.old out.new result }
{
    if style.is_full(out) {
        return Ok(());
    }
    match style.worded.word(value, ty)? {
        Some(text) => put(out, text.as_str()),
        None => put_usual(out, value, ty, style),
    }
}

/// Adds a value of a type that has no words of its own.
#[cycle(printing)]
#[tactic(auto, using(crate::proofs::FrontLaws::front_laws))]
fn put_usual<W: Worded>(
    out: &mut String,
    value: &Value,
    ty: &TypeNode,
    style: &Style<W>,
) -> Result<(), AllocError>
    ensures { Shows style.now.room
        (usual_by (W.words style.now.worded) (type_of ty.now) (value_of value.now))
        out.old out.new result }
{
    match (ty, value) {
        (TypeNode::Bool, Value::Bool(truth)) => put(out, if *truth { "true" } else { "false" }),
        (TypeNode::S8 | TypeNode::S16 | TypeNode::S32 | TypeNode::S64, Value::Signed(number)) =>
            put_signed(out, *number),
        (TypeNode::U8 | TypeNode::U16 | TypeNode::U32 | TypeNode::U64, Value::Unsigned(number)) =>
            put_number(out, *number),
        (TypeNode::Char, Value::Char(character)) => put_char(out, *character),
        (TypeNode::String, Value::String(text)) => put_text(out, text.as_str()),
        (TypeNode::List(element), Value::List(values)) => put_list(out, values, element, style),
        (TypeNode::FixedList { element, .. }, Value::Fields(values)) => {
            put_list(out, values, element, style)
        }
        (TypeNode::Record(fields), Value::Fields(values)) => put_record(out, values, fields, style),
        (TypeNode::Tuple(parts), Value::Fields(values)) => put_tuple(out, values, parts, style),
        (TypeNode::Variant(variants), Value::Case { index, payload }) => {
            put_variant(out, *index, payload, variants, style)
        }
        (TypeNode::Enum(labels), Value::Case { index, payload }) => {
            put_enum(out, *index, payload, labels)
        }
        (TypeNode::Option(some), Value::Case { index, payload }) => {
            put_option(out, *index, payload, some, style)
        }
        (TypeNode::Result { ok, error }, Value::Case { index, payload }) => match *index {
            0 => put_shared_case(out, "ok", payload, ok, style),
            1 => put_shared_case(out, "err", payload, error, style),
            _ => Ok(()),
        },
        (TypeNode::Flags(labels), Value::Flags(bits)) => put_flags(out, labels, *bits),
        (TypeNode::Own(_) | TypeNode::Borrow(_), Value::Handle { serial, rep, .. }) => {
            put_handle(out, *serial, *rep)
        }
        _ => Ok(()),
    }
}

/// Adds a handle: its serial number, and its representation.
fn put_handle(out: &mut String, serial: u64, rep: u32) -> Result<(), AllocError>
    ensures { Writes (handle_spelling serial rep) out.old out.new result }
{
    put(out, "#")?;
    put_number(out, serial)?;
    put(out, ":")?;
    put_number(out, u64::from(rep))
}

/// Adds a list.
#[cycle(printing)]
#[tactic(auto, using(crate::proofs::FrontLaws::front_laws))]
fn put_list<W: Worded>(
    out: &mut String,
    values: &[Value],
    element: &TypeNode,
    style: &Style<W>,
) -> Result<(), AllocError>
    ensures { Shows style.now.room (list_spelling (each
        (spelling_by (W.words style.now.worded) (type_of element.now)) (values_of values.now)))
        out.old out.new result }
{
    put(out, "[")?;
    put_items(out, values, element, style)?;
    put(out, "]")
}

/// Adds values, with commas between them.
#[cycle(printing)]
fn put_items<W: Worded>(
    out: &mut String,
    values: &[Value],
    element: &TypeNode,
    style: &Style<W>,
) -> Result<(), AllocError>
    ensures { Shows style.now.room (with_commas (each
        (spelling_by (W.words style.now.worded) (type_of element.now)) (values_of values.now)))
        out.old out.new result }
{
    for (index, value) in values.iter().enumerate() {
        put_comma(out, index)?;
        put_value(out, value, element, style)?;
    }
    Ok(())
}

/// Adds a record.
#[cycle(printing)]
#[tactic(auto, using(crate::proofs::FrontLaws::front_laws))]
fn put_record<W: Worded>(
    out: &mut String,
    values: &[Value],
    fields: &[Field],
    style: &Style<W>,
) -> Result<(), AllocError>
    ensures { Shows style.now.room (fields_spelling record_type (fields_by
        (W.words style.now.worded) record_type (fields_of fields.now) (values_of values.now)))
        out.old out.new result }
{
    put(out, "{")?;
    put_fields(out, values, fields, style)?;
    put(out, "}")
}

/// Adds fields with their labels, with commas between them.
#[cycle(printing)]
fn put_fields<W: Worded>(
    out: &mut String,
    values: &[Value],
    fields: &[Field],
    style: &Style<W>,
) -> Result<(), AllocError>
    ensures { Shows style.now.room (with_commas (fields_by
        (W.words style.now.worded) record_type (fields_of fields.now) (values_of values.now)))
        out.old out.new result }
{
    for (index, field) in fields.iter().enumerate() {
        let Some(value) = values.get(index) else {
            return Ok(());
        };
        put_comma(out, index)?;
        put_field(out, value, field, style)?;
    }
    Ok(())
}

/// Adds a field with its label.
#[cycle(printing)]
#[tactic(auto, using(crate::proofs::FrontLaws::front_laws))]
fn put_field<W: Worded>(
    out: &mut String,
    value: &Value,
    field: &Field,
    style: &Style<W>,
) -> Result<(), AllocError>
    ensures { Shows style.now.room (label_spelling record_type (field_of field.now).0
        ++ spelling_by (W.words style.now.worded) (field_of field.now).1 (value_of value.now))
        out.old out.new result }
{
    put_name(out, field.label.as_str())?;
    put(out, ": ")?;
    put_value(out, value, &field.ty, style)
}

/// Adds a tuple.
#[cycle(printing)]
#[tactic(auto, using(crate::proofs::FrontLaws::front_laws))]
fn put_tuple<W: Worded>(
    out: &mut String,
    values: &[Value],
    parts: &[TypeNode],
    style: &Style<W>,
) -> Result<(), AllocError>
    ensures { Shows style.now.room (fields_spelling tuple_type (fields_by
        (W.words style.now.worded) tuple_type (parts_of parts.now) (values_of values.now)))
        out.old out.new result }
{
    put(out, "(")?;
    put_parts(out, values, parts, style)?;
    put(out, ")")
}

/// Adds the fields of a tuple, with commas between them.
#[cycle(printing)]
fn put_parts<W: Worded>(
    out: &mut String,
    values: &[Value],
    parts: &[TypeNode],
    style: &Style<W>,
) -> Result<(), AllocError>
    ensures { Shows style.now.room (with_commas (fields_by
        (W.words style.now.worded) tuple_type (parts_of parts.now) (values_of values.now)))
        out.old out.new result }
{
    for (index, part) in parts.iter().enumerate() {
        let Some(value) = values.get(index) else {
            return Ok(());
        };
        put_comma(out, index)?;
        put_value(out, value, part, style)?;
    }
    Ok(())
}

/// Adds the case of a variant.
#[cycle(printing)]
fn put_variant<W: Worded>(
    out: &mut String,
    index: u32,
    payload: &Option<Box<Value>>,
    variants: &[Case],
    style: &Style<W>,
) -> Result<(), AllocError>
    ensures { Shows style.now.room (usual_by (W.words style.now.worded)
        (cases variant_type (cases_of variants.now))
        (payload_value index (boxed_value payload.now))) out.old out.new result }
{
    match variants.get(index as usize) {
        None => Ok(()),
        Some(case) => put_case(out, case.label.as_str(), payload, &case.payload, style),
    }
}

/// Adds the name of a case, and its payload, if it carries one.
#[cycle(printing)]
#[tactic(auto, using(crate::proofs::FrontLaws::front_laws))]
fn put_case<W: Worded>(
    out: &mut String,
    label: &str,
    payload: &Option<Box<Value>>,
    ty: &Option<TypeNode>,
    style: &Style<W>,
) -> Result<(), AllocError>
    ensures { Shows style.now.room (case_end (name_spelling label.now)
        (option_map (λ t. spelling_by (W.words style.now.worded) (type_of t)) ty.now)
        (boxed_value payload.now)) out.old out.new result }
{
    match (ty, payload) {
        (None, None) => put_name(out, label),
        (Some(ty), Some(value)) => {
            put_name(out, label)?;
            put_payload(out, value, ty, style)
        }
        _ => Ok(()),
    }
}

/// Adds a payload.
#[cycle(printing)]
#[tactic(auto, using(crate::proofs::FrontLaws::front_laws))]
fn put_payload<W: Worded>(
    out: &mut String,
    value: &Value,
    ty: &TypeNode,
    style: &Style<W>,
) -> Result<(), AllocError>
    ensures { Shows style.now.room (in_marks (codes "(") (codes ")")
        (spelling_by (W.words style.now.worded) (type_of ty.now) (value_of value.now)))
        out.old out.new result }
{
    put(out, "(")?;
    put_value(out, value, ty, style)?;
    put(out, ")")
}

/// Adds the case of an enum.
fn put_enum(
    out: &mut String,
    index: u32,
    payload: &Option<Box<Value>>,
    labels: &[Label],
) -> Result<(), AllocError>
    ensures { Writes (spelling (cases enum_type (plain_from labels.now))
        (payload_value index (boxed_value payload.now))) out.old out.new result }
{
    match payload {
        Some(_) => Ok(()),
        None => match labels.get(index as usize) {
            Some(label) => put_name(out, label.as_str()),
            None => Ok(()),
        },
    }
}

/// Adds `none`, or `some` with its payload.
#[cycle(printing)]
#[tactic(auto, using(crate::proofs::FrontLaws::front_laws))]
fn put_option<W: Worded>(
    out: &mut String,
    index: u32,
    payload: &Option<Box<Value>>,
    some: &TypeNode,
    style: &Style<W>,
) -> Result<(), AllocError>
    ensures { Shows style.now.room (usual_by (W.words style.now.worded) (cases option_type
        (plain (codes "none") (carrying (codes "some") (type_of some.now) no_cases)))
        (payload_value index (boxed_value payload.now))) out.old out.new result }
{
    match (index, payload) {
        (0, None) => put(out, "none"),
        (1, Some(value)) => {
            put(out, "some")?;
            put_payload(out, value, some, style)
        }
        _ => Ok(()),
    }
}

/// Adds a word, and the payload behind it, if the type is there.
#[cycle(printing)]
#[tactic(auto, using(crate::proofs::FrontLaws::front_laws))]
fn put_shared_case<W: Worded>(
    out: &mut String,
    word: &str,
    payload: &Option<Box<Value>>,
    ty: &Option<Rc<TypeNode>>,
    style: &Style<W>,
) -> Result<(), AllocError>
    ensures { Shows style.now.room (case_end word.now
        (option_map (spelling_by (W.words style.now.worded)) (shared_payload ty.now))
        (boxed_value payload.now)) out.old out.new result }
{
    match (ty, payload) {
        (None, None) => put(out, word),
        (Some(ty), Some(value)) => {
            put(out, word)?;
            put_payload(out, value, ty, style)
        }
        _ => Ok(()),
    }
}
