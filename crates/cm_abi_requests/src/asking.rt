//! What the parts of a value ask for: one walk down its layout.

ghost use Rattle.std.specs.Prelude.{◌≡◌, ◌*◌, ◌≤◌, ◌∷◌, [], OnOk, drop, length, map, ℕ, List};
ghost use Rattle.std.specs.Str.{chars};
ghost use Rattle.std.specs.String.{string_bytes};
ghost use Rattle.cm_layout.specs.Layouts.{layout_of, part_of, payload_of};
ghost use Rattle.cm_layout.specs.Shapes.{parts_from, payloads_from};
ghost use Rattle.cm_types.specs.ValueTrees.{value_of, values_of};
ghost use Rattle.cm_abi_model.specs.Parts.{element_part, parts_each, text_part};
ghost use Rattle.cm_abi_model.specs.Requests.{read_charset, first_tag, tags_behind, text_bytes};
ghost use Rattle.cm_abi_model.specs.Taken.{MAX_CONTENT};
ghost use Rattle.cm_abi_requests.specs.Asking.{AreSmall, ask_by, ask_part, asking_of, parts_by};
ghost use Rattle.cm_abi_requests.specs.Asking.{parts_by_case, parts_by_fields, parts_by_list};
ghost use Rattle.cm_abi_requests.specs.Asking.{parts_by_payload};

use crate::asked::Asked;
use crate::chains::{ask_first, ask_sizes};
use crate::charsets::{read_charset, stored_charset, text_size, text_units};
use crate::strings::Strings;
use cm_abi_model::text_align;
use cm_layout::{Form, Head, Layout, Part, Payload};
use cm_types::Value;
use std::alloc::AllocError;

/// The tag of the next string, which is then behind.
fn next_tag(tags: &[bool], asked: &mut Asked) -> bool
    ensures tag { result ≡ first_tag (drop asked.old.next tags.now) }
    ensures behind { (cs : List ℕ) → drop asked.new.next tags.now
        ≡ tags_behind (text_part cs) (drop asked.old.next tags.now) }
    ensures requests { asked.new.requests ≡ asked.old.requests }
{
    if asked.next < tags.len() {
        let tag = tags[asked.next];
        asked.next += 1;
        tag
    } else {
        false
    }
}

/// Asks for a string.
fn ask_text(to: &Strings<'_>, text: &str, asked: &mut Asked) -> Result<(), AllocError>
    requires small { length (text_bytes
        (read_charset to.now.source (first_tag (drop asked.old.next to.now.tags.now)))
        (chars text.now)) ≤ MAX_CONTENT }
    ensures { OnOk result (asking_of to.now asked.new
        ≡ ask_part to.now.source to.now.target (text_part (chars text.now))
        (asking_of to.now asked.old)) }
{
    let source = read_charset(to.source, next_tag(to.tags, asked));
    let target = stored_charset(to.target);
    let units = text_units(source, text) as u32;
    let exact = text_size(target, text) as u32;
    let align = text_align(to.target);
    ask_sizes(&mut asked.requests, align, source, target, units, exact)
}

/// Asks for so many elements of a list.
fn ask_elements(
    to: &Strings<'_>,
    head: Head,
    count: usize,
    asked: &mut Asked,
) -> Result<(), AllocError>
    requires small { count * head.size ≤ MAX_CONTENT }
    ensures { OnOk result (asking_of to.now asked.new
        ≡ ask_part to.now.source to.now.target (element_part count head.size head.align)
        (asking_of to.now asked.old)) }
{
    let size = (count * head.size as usize) as u32;
    ask_first(&mut asked.requests, head.align, size)
}

/// Asks for the parts of a value.
#[cycle(asking)]
pub(crate) fn ask(
    to: &Strings<'_>,
    layout: &Layout,
    value: &Value,
    asked: &mut Asked,
) -> Result<(), AllocError>
    requires small { AreSmall to.now.source (asking_of to.now asked.old).tags
        (parts_by (layout_of layout.now).shape (value_of value.now)) }
    ensures { OnOk result (asking_of to.now asked.new
        ≡ ask_by to.now (parts_by (layout_of layout.now).shape (value_of value.now))
        (asking_of to.now asked.old)) }
{
    match (&layout.form, value) {
        (Form::String, Value::String(text)) => ask_text(to, text.as_str(), asked),
        (Form::List(element), Value::List(values)) => ask_list(to, element, values, asked),
        (Form::FixedList { element, .. }, Value::Fields(values)) => {
            ask_each(to, element, values, asked)
        }
        (Form::Fields(parts), Value::Fields(values)) => ask_fields(to, parts, values, asked),
        (Form::Cases { payloads, .. }, Value::Case { index, payload }) => match payload {
            Some(value) => ask_case(to, payloads, *index, value, asked),
            None => Ok(()),
        },
        (Form::Enum { .. }, _) => Ok(()),
        _ => Ok(()),
    }
}

/// Asks for the elements of a list, then for their parts.
#[cycle(asking)]
fn ask_list(
    to: &Strings<'_>,
    element: &Layout,
    values: &[Value],
    asked: &mut Asked,
) -> Result<(), AllocError>
    requires small { AreSmall to.now.source (asking_of to.now asked.old).tags
        (parts_by_list (layout_of element.now) (values_of values.now)) }
    ensures { OnOk result (asking_of to.now asked.new
        ≡ ask_by to.now (parts_by_list (layout_of element.now) (values_of values.now))
        (asking_of to.now asked.old)) }
{
    ask_elements(to, element.head, values.len(), asked)?;
    ask_each(to, element, values, asked)
}

/// Asks for the parts of values of one layout, one after another.
#[cycle(asking)]
pub(crate) fn ask_each(
    to: &Strings<'_>,
    element: &Layout,
    values: &[Value],
    asked: &mut Asked,
) -> Result<(), AllocError>
    requires small { AreSmall to.now.source (asking_of to.now asked.old).tags
        (parts_each (parts_by (layout_of element.now).shape) (values_of values.now)) }
    ensures { OnOk result (asking_of to.now asked.new
        ≡ ask_by to.now
        (parts_each (parts_by (layout_of element.now).shape) (values_of values.now))
        (asking_of to.now asked.old)) }
{
    for value in values {
        ask(to, element, value, asked)?;
    }
    Ok(())
}

/// Asks for the parts of the fields of a record or a tuple.
#[cycle(asking)]
pub(crate) fn ask_fields(
    to: &Strings<'_>,
    parts: &[Part],
    values: &[Value],
    asked: &mut Asked,
) -> Result<(), AllocError>
    requires small { AreSmall to.now.source (asking_of to.now asked.old).tags
        (parts_by_fields (parts_from (map part_of parts.now)) (values_of values.now)) }
    ensures { OnOk result (asking_of to.now asked.new
        ≡ ask_by to.now
        (parts_by_fields (parts_from (map part_of parts.now)) (values_of values.now))
        (asking_of to.now asked.old)) }
{
    for (i, part) in parts.iter().enumerate() {
        if i >= values.len() {
            return Ok(());
        }
        ask_field(to, part, &values[i], asked)?;
    }
    Ok(())
}

/// Asks for the parts of a field.
#[cycle(asking)]
fn ask_field(
    to: &Strings<'_>,
    part: &Part,
    value: &Value,
    asked: &mut Asked,
) -> Result<(), AllocError>
    requires small { AreSmall to.now.source (asking_of to.now asked.old).tags
        (parts_by (part_of part.now).1.shape (value_of value.now)) }
    ensures { OnOk result (asking_of to.now asked.new
        ≡ ask_by to.now (parts_by (part_of part.now).1.shape (value_of value.now))
        (asking_of to.now asked.old)) }
{
    ask(to, &part.layout, value, asked)
}

/// Asks for the parts of what the case of this number carries.
#[cycle(asking)]
fn ask_case(
    to: &Strings<'_>,
    payloads: &[Payload],
    index: u32,
    value: &Value,
    asked: &mut Asked,
) -> Result<(), AllocError>
    requires small { AreSmall to.now.source (asking_of to.now asked.old).tags
        (parts_by_case (payloads_from (map payload_of payloads.now)) index
        (value_of value.now)) }
    ensures { OnOk result (asking_of to.now asked.new
        ≡ ask_by to.now
        (parts_by_case (payloads_from (map payload_of payloads.now)) index
        (value_of value.now))
        (asking_of to.now asked.old)) }
{
    match payloads.get(index as usize) {
        Some(payload) => ask_payload(to, payload, value, asked),
        None => Ok(()),
    }
}

/// Asks for the parts of what a case carries.
#[cycle(asking)]
fn ask_payload(
    to: &Strings<'_>,
    payload: &Payload,
    value: &Value,
    asked: &mut Asked,
) -> Result<(), AllocError>
    requires small { AreSmall to.now.source (asking_of to.now asked.old).tags
        (parts_by_payload (payload_of payload.now) (value_of value.now)) }
    ensures { OnOk result (asking_of to.now asked.new
        ≡ ask_by to.now (parts_by_payload (payload_of payload.now) (value_of value.now))
        (asking_of to.now asked.old)) }
{
    match payload {
        Payload::Carried(layout) => ask(to, layout, value, asked),
        Payload::Nothing => Ok(()),
    }
}
