//! The bytes of strings and lists in values.

ghost use Rattle.std.specs.Prelude.{◌≤◌, ◌↔◌, ◌∷◌, [], IsTrue, map};
ghost use Rattle.std.specs.Str.{chars};
ghost use Rattle.cm_layout.specs.Layouts.{layout_of, part_of, payload_of};
ghost use Rattle.cm_layout.specs.Shapes.{parts_from, payloads_from};
ghost use Rattle.cm_types.specs.Values.{parts};
ghost use Rattle.cm_types.specs.ValueTrees.{value_of, values_of};
ghost use Rattle.cm_abi_model.specs.Parts.{parts_each, text_part};
ghost use Rattle.cm_abi_requests.specs.Asking.{parts_by, parts_by_case, parts_by_fields};
ghost use Rattle.cm_abi_requests.specs.Asking.{parts_by_list, parts_by_payload};
ghost use Rattle.cm_host_values.specs.Content.{Leaves, content_in};

use cm_layout::{Form, Layout, Part, Payload};
use cm_types::Value;

/// What is left of so many bytes once another so many are taken.
fn less(left: u32, bytes: usize) -> Option<u32>
    ensures { Leaves left bytes result }
{
    if bytes <= left as usize {
        Some(left - bytes as u32)
    } else {
        None
    }
}

/// What is left once a string is taken, in UTF-8.
#[tactic(auto, using(crate::proofs::ContentLaws::text_content))]
fn left_after_text(text: &str, left: u32) -> Option<u32>
    ensures { Leaves left (content_in (text_part (chars text.now) ∷ [])) result }
{
    less(left, text.len())
}

/// What is left of so many bytes once those of the strings and lists of a value are taken: of a
/// string its bytes in UTF-8, and of a list its length times the size of an element.
#[cycle(content)]
pub(crate) fn left_after(layout: &Layout, value: &Value, left: u32) -> Option<u32>
    ensures { Leaves left (content_in (parts_by (layout_of layout.now).shape (value_of value.now)))
        result }
{
    match (&layout.form, value) {
        (Form::String, Value::String(text)) => left_after_text(text.as_str(), left),
        (Form::List(element), Value::List(values)) => left_after_list(element, values, left),
        (Form::FixedList { element, .. }, Value::Fields(values)) => {
            left_after_each(element, values, left)
        }
        (Form::Fields(parts), Value::Fields(values)) => left_after_fields(parts, values, left),
        (Form::Cases { payloads, .. }, Value::Case { index, payload }) => match payload {
            Some(value) => left_after_case(payloads, *index, value, left),
            None => Some(left),
        },
        (Form::Enum { .. }, _) => Some(left),
        _ => Some(left),
    }
}

/// What is left once a list is taken: its elements, and then their strings and lists.
#[cycle(content)]
fn left_after_list(element: &Layout, values: &[Value], left: u32) -> Option<u32>
    ensures { Leaves left (content_in (parts_by_list (layout_of element.now)
        (values_of values.now))) result }
{
    let bytes = u128::from(element.head.size) * values.len() as u128;
    if bytes > u128::from(left) {
        return None;
    }
    left_after_each(element, values, left - bytes as u32)
}

#[cycle(content)]
fn left_after_each(element: &Layout, values: &[Value], left: u32) -> Option<u32>
    ensures { Leaves left (content_in (parts_each (parts_by (layout_of element.now).shape)
        (values_of values.now))) result }
{
    let mut left = left;
    for value in values {
        let rest = left_after(element, value, left)?;
        left = rest;
    }
    Some(left)
}

#[cycle(content)]
fn left_after_fields(row: &[Part], values: &[Value], left: u32) -> Option<u32>
    ensures { Leaves left (content_in (parts_by_fields (parts_from (map part_of row.now))
        (values_of values.now))) result }
{
    let mut left = left;
    for (i, part) in row.iter().enumerate() {
        if i >= values.len() {
            return Some(left);
        }
        let rest = left_after_field(part, &values[i], left)?;
        left = rest;
    }
    Some(left)
}

#[cycle(content)]
fn left_after_field(part: &Part, value: &Value, left: u32) -> Option<u32>
    ensures { Leaves left (content_in (parts_by (part_of part.now).1.shape (value_of value.now)))
        result }
{
    left_after(&part.layout, value, left)
}

#[cycle(content)]
fn left_after_case(payloads: &[Payload], index: u32, value: &Value, left: u32) -> Option<u32>
    ensures { Leaves left (content_in (parts_by_case (payloads_from (map payload_of payloads.now))
        index (value_of value.now))) result }
{
    match payloads.get(index as usize) {
        Some(payload) => left_after_payload(payload, value, left),
        None => Some(left),
    }
}

#[cycle(content)]
fn left_after_payload(payload: &Payload, value: &Value, left: u32) -> Option<u32>
    ensures { Leaves left (content_in (parts_by_payload (payload_of payload.now)
        (value_of value.now))) result }
{
    match payload {
        Payload::Carried(layout) => left_after(layout, value, left),
        Payload::Nothing => Some(left),
    }
}

/// What is left once the values of a tuple are taken.
fn left_after_row(layout: &Layout, values: &[Value], left: u32) -> Option<u32>
    ensures { Leaves left (content_in (parts_by (layout_of layout.now).shape
        (parts (values_of values.now)))) result }
{
    match &layout.form {
        Form::Fields(row) => left_after_fields(row, values, left),
        Form::FixedList { element, .. } => left_after_each(element, values, left),
        _ => Some(left),
    }
}

/// Whether the strings and lists of the values of a tuple have at most so many bytes.
#[tactic(auto, using(crate::proofs::ContentLaws::small_where_left))]
pub(crate) fn is_small(layout: &Layout, values: &[Value], most: u32) -> bool
    ensures { IsTrue result ↔ (content_in (parts_by (layout_of layout.now).shape
        (parts (values_of values.now))) ≤ most) }
{
    left_after_row(layout, values, most).is_some()
}
