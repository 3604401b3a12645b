//! The values of a call, stored and passed.

ghost use Rattle.std.specs.Prelude.{◌≡◌, ◌+◌, ◌≤◌, length, map};
ghost use Rattle.cm_layout.specs.Laid.{Laid};
ghost use Rattle.cm_layout.specs.Layouts.{layout_of, part_of};
ghost use Rattle.cm_layout.specs.Shapes.{Parts, fields_shape, layout_of_fields_at, parts_from};
ghost use Rattle.cm_types.specs.Types.{Fields};
ghost use Rattle.cm_types.specs.Values.{HasType, parts};
ghost use Rattle.cm_types.specs.ValueTrees.{values_of};
ghost use Rattle.cm_abi_model.specs.Receives.{call_bytes, call_numbers};
ghost use Rattle.cm_abi_model.specs.Requests.{tuple_of};
ghost use Rattle.cm_abi_model.specs.Stores.{poke};
ghost use Rattle.cm_abi_model.specs.Views.{Way, flat_limit};
ghost use Rattle.cm_abi_store.specs.Calls.{IsProvided};
ghost use Rattle.cm_abi_store.specs.Fitting.{Fits};
ghost use Rattle.cm_abi_store.specs.FlatLowering.{IsPassedIn, behind_by, slots_by};
ghost use Rattle.cm_abi_store.specs.Storing.{given_of, stored_by};

use crate::passing::pass_fields;
use cm_abi_store::laws::{flat_tuples_are_passed, spilled_tuples_are_stored};
use cm_abi_store::{Next, Target, Tree, Trees, store_fields};
use cm_layout::{Form, Layout, Part};
use cm_types::Value;

/// The fields of the layout of a tuple.
fn fields_of(layout: &Layout) -> &[Part]
    requires { (ps : Parts) × ((layout_of layout.now).shape ≡ fields_shape ps) }
    ensures { (layout_of layout.now).shape
        ≡ fields_shape (parts_from (map part_of result.now)) }
{
    match &layout.form {
        Form::Fields(parts) => parts,
        Form::Leaf(_) => unreachable!(),
        Form::String => unreachable!(),
        Form::List(_) => unreachable!(),
        Form::FixedList { .. } => unreachable!(),
        Form::Cases { .. } => unreachable!(),
        Form::Enum { .. } => unreachable!(),
        Form::Handle(_) => unreachable!(),
    }
}

/// Stores a tuple of values at an address.
fn store_tuple(
    to: &Target<'_>,
    memory: &mut [u8],
    layout: &Layout,
    values: &[Value],
    at: usize,
    next: &mut Next,
)
    requires tuple { (ps : Parts) × ((layout_of layout.now).shape ≡ fields_shape ps) }
    requires laid { Laid (layout_of layout.now).head.size (layout_of layout.now).shape }
    requires inside { at + (layout_of layout.now).head.size ≤ length memory.old }
    requires fits { Fits (length memory.old) (given_of to.now) (layout_of layout.now).shape
        (parts (values_of values.now)) next.old.part next.old.handle }
    ensures stored { memory.new
        ≡ poke (stored_by (given_of to.now) (layout_of layout.now).shape
        (parts (values_of values.now)) at next.old.part next.old.handle) memory.old }
    ensures stays { length memory.new ≡ length memory.old }
{
    let size = layout.head.size;
    store_fields::<Tree<'_>>(
        to,
        memory,
        fields_of(layout),
        Trees { values },
        at,
        size,
        next,
    );
}

/// Passes a tuple of values in slots from the first one on.
fn lower_tuple(
    to: &Target<'_>,
    slots: &mut [u64],
    memory: &mut [u8],
    layout: &Layout,
    values: &[Value],
    next: &mut Next,
)
    requires tuple { (ps : Parts) × ((layout_of layout.now).shape ≡ fields_shape ps) }
    requires passed { IsPassedIn (layout_of layout.now).head.width (layout_of layout.now).shape }
    requires inside { (layout_of layout.now).head.width ≤ length slots.old }
    requires fits { Fits (length memory.old) (given_of to.now) (layout_of layout.now).shape
        (parts (values_of values.now)) next.old.part next.old.handle }
    ensures slots { slots.new
        ≡ poke (slots_by (given_of to.now) (layout_of layout.now).shape
        (parts (values_of values.now)) 0 next.old.part next.old.handle) slots.old }
    ensures stored { memory.new
        ≡ poke (behind_by (given_of to.now) (layout_of layout.now).shape
        (parts (values_of values.now)) next.old.part next.old.handle) memory.old }
    ensures stays { length memory.new ≡ length memory.old }
    ensures slots_stay { length slots.new ≡ length slots.old }
{
    let width = layout.head.width;
    let fields = Trees { values };
    pass_fields::<Tree<'_>>(to, slots, memory, fields_of(layout), width, fields, 0, next);
}

/// Stores the values of a call in the receiver's memory, and puts the numbers that pass them into
/// slots, by the layout of the tuple of their types (CanonicalABI.md, "Lifting and Lowering
/// Values", `lower_flat_values`). `limit` is how many core values are passed flat that way, at
/// most: beyond it the tuple itself is stored, at the place of the first part, which is the one
/// number then. Each byte of the values is written at its address, and each number into its slot,
/// of which there is one for each core value, from 0; no other byte and no other slot is changed.
/// The values have their types, each of their parts has a place in the memory, and each of their
/// handles a number. It takes no memory.
pub fn store_call(
    to: &Target<'_>,
    memory: &mut [u8],
    slots: &mut [u64],
    layout: &Layout,
    limit: usize,
    values: &[Value],
)
    requires { (way : Way) × (types : Fields) × (limit ≡ flat_limit way)
        × (layout_of layout.now ≡ layout_of_fields_at types)
        × IsProvided way types (parts (values_of values.now)) to.now.encoding (given_of to.now)
        (length memory.old) (length slots.old) }
    ensures stored { (way : Way) (types : Fields) → limit ≡ flat_limit way
        → layout_of layout.now ≡ layout_of_fields_at types
        → HasType (tuple_of types) (parts (values_of values.now))
        → memory.new
        ≡ poke (call_bytes (given_of to.now) way types (parts (values_of values.now)))
        memory.old }
    ensures passed { (way : Way) (types : Fields) → limit ≡ flat_limit way
        → layout_of layout.now ≡ layout_of_fields_at types
        → HasType (tuple_of types) (parts (values_of values.now))
        → slots.new
        ≡ poke (call_numbers (given_of to.now) way types (parts (values_of values.now)))
        slots.old }
    ensures stays { length memory.new ≡ length memory.old }
    ensures slots_stay { length slots.new ≡ length slots.old }
{
    spilled_tuples_are_stored();
    flat_tuples_are_passed();
    let mut next = Next { part: 0, handle: 0 };
    if layout.head.width as usize > limit {
        let place = to.places[0];
        next.part = 1;
        store_tuple(to, memory, layout, values, place as usize, &mut next);
        slots[0] = u64::from(place);
    } else {
        lower_tuple(to, slots, memory, layout, values, &mut next);
    }
}
