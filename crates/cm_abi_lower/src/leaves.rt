//! The handles of a value, in reading order: one walk down its layout.

ghost use Rattle.std.specs.Prelude.{◌≡◌, ◌∷◌, ◌++◌, [], IfOk, OnOk, map};
ghost use Rattle.cm_types.specs.Types.{Fields};
ghost use Rattle.cm_types.specs.Values.{HasType, parts};
ghost use Rattle.cm_layout.specs.Layouts.{layout_of, part_of, payload_of};
ghost use Rattle.cm_layout.specs.Shapes.{layout_of_fields_at, parts_from, payloads_from};
ghost use Rattle.cm_types.specs.ValueTrees.{value_of, values_of};
ghost use Rattle.cm_abi_model.specs.Receives.{leaves_each, leaves_in};
ghost use Rattle.cm_abi_model.specs.Requests.{tuple_of};
ghost use Rattle.cm_abi_model.specs.HandleLeaves.{leaf_by, leaf_of};
ghost use Rattle.cm_abi_lower.specs.Leaves.{leaves_by, leaves_by_case};
ghost use Rattle.cm_abi_lower.specs.Leaves.{leaves_by_fields, leaves_by_payload};
ghost use Rattle.cm_abi_model.specs.HandleLeaves.{leaves_of};
ghost use Rattle.cm_abi_model.specs.HandleLeaves.{value_in};

use cm_abi_model::{HandleLeaf, HandleValue};
use cm_layout::{Form, HandleType, Layout, Part, Payload};
use cm_types::Value;
use std::alloc::{AllocError, Global};

/// The leaf of a handle whose type is this.
fn leaf_by(wanted: HandleType, value: HandleValue) -> HandleLeaf
    ensures { leaf_of result ≡ leaf_by wanted (value_in value) }
{
    match wanted {
        HandleType::Own(_) => HandleLeaf::Owned(value),
        HandleType::Borrow(_) => HandleLeaf::Borrowed(value),
    }
}

/// Adds a handle.
fn collect_handle(
    wanted: HandleType,
    value: HandleValue,
    leaves: &mut Vec<HandleLeaf>,
) -> Result<(), AllocError>
    ensures { OnOk result (leaves_of leaves.new.items
        ≡ leaves_of leaves.old.items ++ leaf_by wanted (value_in value) ∷ []) }
{
    leaves.push(leaf_by(wanted, value))?;
    Ok(())
}

/// Adds the handles of a value.
#[cycle(collecting)]
fn collect(layout: &Layout, value: &Value, leaves: &mut Vec<HandleLeaf>) -> Result<(), AllocError>
    ensures { OnOk result (leaves_of leaves.new.items
        ≡ leaves_of leaves.old.items
        ++ leaves_by (layout_of layout.now).shape (value_of value.now)) }
{
    match (&layout.form, value) {
        (
            Form::Handle(wanted),
            Value::Handle {
                serial,
                rep,
                resource,
            },
        ) => {
            let value = HandleValue {
                serial: *serial,
                rep: *rep,
                resource: *resource,
            };
            collect_handle(*wanted, value, leaves)
        }
        (Form::List(element), Value::List(values)) => collect_each(element, values, leaves),
        (Form::FixedList { element, .. }, Value::Fields(values)) => {
            collect_each(element, values, leaves)
        }
        (Form::Fields(parts), Value::Fields(values)) => collect_fields(parts, values, leaves),
        (Form::Cases { payloads, .. }, Value::Case { index, payload }) => match payload {
            Some(value) => collect_case(payloads, *index, value, leaves),
            None => Ok(()),
        },
        (Form::Enum { .. }, _) => Ok(()),
        _ => Ok(()),
    }
}

/// Adds the handles of values of one layout, one after another.
#[cycle(collecting)]
fn collect_each(
    element: &Layout,
    values: &[Value],
    leaves: &mut Vec<HandleLeaf>,
) -> Result<(), AllocError>
    ensures { OnOk result (leaves_of leaves.new.items
        ≡ leaves_of leaves.old.items
        ++ leaves_each (leaves_by (layout_of element.now).shape) (values_of values.now)) }
{
    for value in values {
        collect(element, value, leaves)?;
    }
    Ok(())
}

/// Adds the handles of the fields of a record or a tuple.
#[cycle(collecting)]
fn collect_fields(
    parts: &[Part],
    values: &[Value],
    leaves: &mut Vec<HandleLeaf>,
) -> Result<(), AllocError>
    ensures { OnOk result (leaves_of leaves.new.items
        ≡ leaves_of leaves.old.items
        ++ leaves_by_fields (parts_from (map part_of parts.now)) (values_of values.now)) }
{
    for (i, part) in parts.iter().enumerate() {
        if i >= values.len() {
            return Ok(());
        }
        collect_field(part, &values[i], leaves)?;
    }
    Ok(())
}

/// Adds the handles of a field.
#[cycle(collecting)]
fn collect_field(part: &Part, value: &Value, leaves: &mut Vec<HandleLeaf>) -> Result<(), AllocError>
    ensures { OnOk result (leaves_of leaves.new.items
        ≡ leaves_of leaves.old.items
        ++ leaves_by (part_of part.now).1.shape (value_of value.now)) }
{
    collect(&part.layout, value, leaves)
}

/// Adds the handles of what the case of this number carries.
#[cycle(collecting)]
fn collect_case(
    payloads: &[Payload],
    index: u32,
    value: &Value,
    leaves: &mut Vec<HandleLeaf>,
) -> Result<(), AllocError>
    ensures { OnOk result (leaves_of leaves.new.items
        ≡ leaves_of leaves.old.items
        ++ leaves_by_case (payloads_from (map payload_of payloads.now)) index
        (value_of value.now)) }
{
    match payloads.get(index as usize) {
        Some(payload) => collect_payload(payload, value, leaves),
        None => Ok(()),
    }
}

/// Adds the handles of what a case carries.
#[cycle(collecting)]
fn collect_payload(
    payload: &Payload,
    value: &Value,
    leaves: &mut Vec<HandleLeaf>,
) -> Result<(), AllocError>
    ensures { OnOk result (leaves_of leaves.new.items
        ≡ leaves_of leaves.old.items
        ++ leaves_by_payload (payload_of payload.now) (value_of value.now)) }
{
    match payload {
        Payload::Carried(layout) => collect(layout, value, leaves),
        Payload::Nothing => Ok(()),
    }
}

/// Adds the handles of a tuple of values.
fn collect_values(
    layout: &Layout,
    values: &[Value],
    leaves: &mut Vec<HandleLeaf>,
) -> Result<(), AllocError>
    ensures { OnOk result (leaves_of leaves.new.items
        ≡ leaves_of leaves.old.items
        ++ leaves_by (layout_of layout.now).shape (parts (values_of values.now))) }
{
    match &layout.form {
        Form::Fields(parts) => collect_fields(parts, values, leaves),
        Form::FixedList { element, .. } => collect_each(element, values, leaves),
        _ => Ok(()),
    }
}

/// The handles of values, in reading order, by the layout of the tuple of their types.
pub(crate) fn leaves(
    alloc: Global,
    layout: &Layout,
    values: &[Value],
) -> Result<Vec<HandleLeaf>, AllocError>
    ensures { (types : Fields) → layout_of layout.now ≡ layout_of_fields_at types
        → HasType (tuple_of types) (parts (values_of values.now))
        → IfOk result (λ ls. leaves_of ls.items
        ≡ leaves_in (tuple_of types) (parts (values_of values.now))) }
{
    let mut leaves = Vec::new(alloc);
    collect_values(layout, values, &mut leaves)?;
    Ok(leaves)
}
