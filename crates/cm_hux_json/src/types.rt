//! Types as objects.

use crate::numbered::Numbered;
use crate::objects::Object;
use cm_hux_show::Used;
use cm_types::{Case, Field, Label, TypeNode};
use serde_json::{ToValue, Value};
use std::alloc::{AllocError, Global};

/// The object of a type: `type`, its number; `kind`, its word; and what it is made of.
pub(crate) fn type_object(
    numbered: &Numbered<'_>,
    number: usize,
    used: Used,
) -> Result<Object, AllocError> {
    made_object(numbered, used)?.with("type", number)
}

/// The object of a type without its number: that of each equal type.
pub(crate) fn made_object(numbered: &Numbered<'_>, used: Used) -> Result<Object, AllocError> {
    let object = Object::new(numbered.alloc);
    match numbered.node(used) {
        Some(node) => with_node(numbered, object.with("kind", kind_of(node))?, node, used),
        None => Ok(object),
    }
}

/// The word of WIT for a type.
fn kind_of(node: &TypeNode) -> &'static str {
    match node {
        TypeNode::List(_) | TypeNode::FixedList { .. } => "list",
        TypeNode::Record(_) => "record",
        TypeNode::Tuple(_) => "tuple",
        TypeNode::Variant(_) => "variant",
        TypeNode::Enum(_) => "enum",
        TypeNode::Flags(_) => "flags",
        TypeNode::Option(_) => "option",
        TypeNode::Result { .. } => "result",
        TypeNode::Own(_) => "own",
        TypeNode::Borrow(_) => "borrow",
        _ => "type",
    }
}

/// With what a type is made of.
fn with_node(
    numbered: &Numbered<'_>,
    object: Object,
    node: &TypeNode,
    used: Used,
) -> Result<Object, AllocError> {
    let parts = numbered.parts(used)?;
    let first = numbered.value(parts.first().copied())?;
    match node {
        TypeNode::Record(fields) => object.with("fields", fields_value(numbered, fields, &parts)?),
        TypeNode::Variant(cases) => object.with("cases", cases_value(numbered, cases, &parts)?),
        TypeNode::Enum(labels) | TypeNode::Flags(labels) => {
            object.with("labels", labels_value(numbered.alloc, labels)?)
        }
        TypeNode::Tuple(_) => object.with("parts", parts_value(numbered, &parts)?),
        TypeNode::List(_) => object.with("element", first),
        TypeNode::FixedList { length, .. } => {
            object.with("element", first)?.with("length", *length)
        }
        TypeNode::Option(_) => object.with("some", first),
        TypeNode::Result { ok: None, .. } => {
            object.with("ok", Value::Null)?.with("error", first)
        }
        TypeNode::Result { .. } => {
            let error = numbered.value(parts.get(1).copied())?;
            object.with("ok", first)?.with("error", error)
        }
        TypeNode::Own(id) | TypeNode::Borrow(id) => object.with("resource", used.resource(*id)),
        _ => Ok(object),
    }
}

/// An object of a name and a type.
pub(crate) fn member(alloc: Global, name: &str, ty: Value) -> Result<Value, AllocError> {
    let object = Object::new(alloc).with("name", name)?;
    Ok(object.with("type", ty)?.value())
}

/// Fields, or parameters, with their types, in order.
pub(crate) fn fields_value(
    numbered: &Numbered<'_>,
    fields: &[Field],
    types: &[Used],
) -> Result<Vec<Value>, AllocError> {
    let mut list = Vec::with_capacity(numbered.alloc, fields.len())?;
    for (field, used) in fields.iter().zip(types) {
        let ty = numbered.value(Some(*used))?;
        list.push(member(numbered.alloc, field.label.as_str(), ty)?)?;
    }
    Ok(list)
}

/// The cases of a variant, in order: those that carry something have these types, in turn.
fn cases_value(
    numbered: &Numbered<'_>,
    cases: &[Case],
    types: &[Used],
) -> Result<Vec<Value>, AllocError> {
    let mut list = Vec::with_capacity(numbered.alloc, cases.len())?;
    let mut types = types.iter();
    for case in cases {
        let used = match &case.payload {
            Some(_) => types.next().copied(),
            None => None,
        };
        let ty = numbered.value(used)?;
        list.push(member(numbered.alloc, case.label.as_str(), ty)?)?;
    }
    Ok(list)
}

fn parts_value(numbered: &Numbered<'_>, types: &[Used]) -> Result<Vec<Value>, AllocError> {
    let mut list = Vec::with_capacity(numbered.alloc, types.len())?;
    for used in types {
        list.push(numbered.value(Some(*used))?)?;
    }
    Ok(list)
}

fn labels_value(alloc: Global, labels: &[Label]) -> Result<Vec<Value>, AllocError> {
    let mut list = Vec::with_capacity(alloc, labels.len())?;
    for label in labels {
        list.push(label.as_str().to_value(alloc)?)?;
    }
    Ok(list)
}
