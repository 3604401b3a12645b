//! Whether a value has a type.

ghost use Rattle.std.specs.Prelude.{◌≡◌, ◌↔◌, ◌^◌, IsTrue, codes, length, nat_eq, nat_lt};
ghost use Rattle.std.specs.Option.{option_map};
ghost use Rattle.cm_types.specs.Funcs.{tree_type};
ghost use Rattle.cm_types.specs.TypeTrees.{shared_payload, cases_of, fields_of, parts_of, type_of};
ghost use Rattle.cm_types.specs.TypedValues.{all_vals, has_type, have_types, is_between};
ghost use Rattle.cm_types.specs.TypedValues.{is_scalar_value, payload_has_type};
ghost use Rattle.cm_types.specs.Values.{HasType, count_of};
ghost use Rattle.cm_types.specs.ValueTrees.{boxed_value, payload_value, value_of, values_of};
ghost use Rattle.cm_types.specs.Types.{carrying, cases, no_cases, option_type, plain};
ghost use Rattle.cm_types.specs.Types.{enum_type, variant_type};
ghost use Rattle.cm_types.specs.TypeTrees.{field_of, plain_from};

use crate::values::Value;
use crate::{Case, Field, Label, TypeNode, TypeTree, same_resource};
use std::rc::Rc;

/// Whether the value has the type (Explainer.md, "Value Types"). A list of fixed length has the
/// tuple of its elements as its value, `Value::Fields`.
pub fn has_type(value: &Value, ty: &TypeTree) -> bool
    ensures { IsTrue result ↔ HasType (tree_type ty.now) (value_of value.now) }
{
    node_has_type(&ty.root, value)
}

fn is_between(low: i128, number: i64, high: i128) -> bool
    ensures { result ≡ is_between low number high }
{
    let number = i128::from(number);
    low <= number && number < high
}

fn is_below(number: u64, limit: u128) -> bool
    ensures { result ≡ nat_lt number limit }
{
    u128::from(number) < limit
}

/// Whether a character is a scalar, as each is.
fn is_scalar_value(number: u32) -> bool
    ensures { result ≡ is_scalar_value number }
{
    number < 0x11_0000 && (number < 0xD800 || number > 0xDFFF)
}

fn are_as_many(values: &[Value], length: u32) -> bool
    ensures { result ≡ nat_eq (count_of (values_of values.now)) length }
{
    values.len() == length as usize
}

#[tactic(auto, using(crate::proofs::TypedValueLemmas::flags))]
fn fits_flags(bits: u32, labels: usize) -> bool
    ensures { result ≡ nat_lt bits (2 ^ labels) }
{
    labels >= 32 || u64::from(bits) < 1 << labels
}

fn enum_has_type(labels: &[Label], index: u32, payload: &Option<Box<Value>>) -> bool
    ensures { result ≡ has_type (cases enum_type (plain_from labels.now))
        (payload_value index (boxed_value payload.now)) }
{
    match payload {
        None => (index as usize) < labels.len(),
        Some(_) => false,
    }
}

#[cycle(typed)]
fn node_has_type(ty: &TypeNode, value: &Value) -> bool
    ensures { result ≡ has_type (type_of ty.now) (value_of value.now) }
{
    match (ty, value) {
        (TypeNode::Bool, Value::Bool(_)) => true,
        (TypeNode::S8, Value::Signed(z)) => is_between(-0x80, *z, 0x80),
        (TypeNode::S16, Value::Signed(z)) => is_between(-0x8000, *z, 0x8000),
        (TypeNode::S32, Value::Signed(z)) => is_between(-0x8000_0000, *z, 0x8000_0000),
        (TypeNode::S64, Value::Signed(z)) => {
            is_between(-0x8000_0000_0000_0000, *z, 0x8000_0000_0000_0000)
        }
        (TypeNode::U8, Value::Unsigned(n)) => is_below(*n, 0x100),
        (TypeNode::U16, Value::Unsigned(n)) => is_below(*n, 0x1_0000),
        (TypeNode::U32, Value::Unsigned(n)) => is_below(*n, 0x1_0000_0000),
        (TypeNode::U64, Value::Unsigned(n)) => is_below(*n, 0x1_0000_0000_0000_0000),
        (TypeNode::Char, Value::Char(c)) => is_scalar_value(u32::from(*c)),
        (TypeNode::String, Value::String(_)) => true,
        (TypeNode::List(element), Value::List(values)) => all_have_type(element, values),
        (TypeNode::FixedList { element, length }, Value::Fields(values)) => {
            are_as_many(values, *length) && all_have_type(element, values)
        }
        (TypeNode::Record(fields), Value::Fields(values)) => fields_have_types(fields, values),
        (TypeNode::Tuple(parts), Value::Fields(values)) => parts_have_types(parts, values),
        (TypeNode::Variant(cases), Value::Case { index, payload }) => {
            case_has_type(cases, *index, payload)
        }
        (TypeNode::Enum(labels), Value::Case { index, payload }) => {
            enum_has_type(labels, *index, payload)
        }
        (TypeNode::Option(some), Value::Case { index, payload }) => {
            option_has_type(some, *index, payload)
        }
        (TypeNode::Result { ok, error }, Value::Case { index, payload }) => match *index {
            0 => shared_payload_has_type(ok, payload),
            1 => shared_payload_has_type(error, payload),
            _ => false,
        },
        (TypeNode::Flags(labels), Value::Flags(bits)) => fits_flags(*bits, labels.len()),
        (TypeNode::Own(id) | TypeNode::Borrow(id), Value::Handle { resource, .. }) => {
            same_resource(*resource, *id)
        }
        _ => false,
    }
}

#[cycle(typed)]
fn all_have_type(ty: &TypeNode, values: &[Value]) -> bool
    ensures { result ≡ all_vals (has_type (type_of ty.now)) (values_of values.now) }
{
    for value in values {
        if !node_has_type(ty, value) {
            return false;
        }
    }
    true
}

#[cycle(typed)]
fn field_has_type(field: &Field, value: &Value) -> bool
    ensures { result ≡ has_type (field_of field.now).1 (value_of value.now) }
{
    node_has_type(&field.ty, value)
}

#[cycle(typed)]
fn fields_have_types(fields: &[Field], values: &[Value]) -> bool
    ensures { result ≡ have_types (fields_of fields.now) (values_of values.now) }
{
    if fields.len() != values.len() {
        return false;
    }
    for (i, field) in fields.iter().enumerate() {
        if !field_has_type(field, &values[i]) {
            return false;
        }
    }
    true
}

#[cycle(typed)]
fn parts_have_types(parts: &[TypeNode], values: &[Value]) -> bool
    ensures { result ≡ have_types (parts_of parts.now) (values_of values.now) }
{
    if parts.len() != values.len() {
        return false;
    }
    for (i, part) in parts.iter().enumerate() {
        if !node_has_type(part, &values[i]) {
            return false;
        }
    }
    true
}

#[cycle(typed)]
fn case_has_type(variants: &[Case], index: u32, payload: &Option<Box<Value>>) -> bool
    ensures { result ≡ has_type (cases variant_type (cases_of variants.now))
        (payload_value index (boxed_value payload.now)) }
{
    match variants.get(index as usize) {
        Some(case) => payload_has_type(&case.payload, payload),
        None => false,
    }
}

#[cycle(typed)]
fn payload_has_type(ty: &Option<TypeNode>, payload: &Option<Box<Value>>) -> bool
    ensures { result ≡ payload_has_type (option_map type_of ty.now) (boxed_value payload.now) }
{
    match (ty, payload) {
        (Some(ty), Some(value)) => node_has_type(ty, value),
        (None, None) => true,
        _ => false,
    }
}

#[cycle(typed)]
fn shared_payload_has_type(ty: &Option<Rc<TypeNode>>, payload: &Option<Box<Value>>) -> bool
    ensures { result ≡ payload_has_type (shared_payload ty.now) (boxed_value payload.now) }
{
    match (ty, payload) {
        (Some(ty), Some(value)) => node_has_type(ty, value),
        (None, None) => true,
        _ => false,
    }
}

#[cycle(typed)]
fn option_has_type(some: &TypeNode, index: u32, payload: &Option<Box<Value>>) -> bool
    ensures { result ≡ has_type
        (cases option_type
        (plain (codes "none") (carrying (codes "some") (type_of some.now) no_cases)))
        (payload_value index (boxed_value payload.now)) }
{
    match payload {
        None => index == 0,
        Some(value) => index == 1 && node_has_type(some, value),
    }
}
