//! What each core value becomes where values are numbers alone, listed once from a layout.

ghost use Rattle.std.specs.Prelude.{◌≡◌, ◌++◌, IfOk, OnOk, map};
ghost use Rattle.std.specs.Option.{option_map};
ghost use Rattle.cm_layout.specs.Layouts.{layout_of, part_of};
ghost use Rattle.cm_layout.specs.Shapes.{parts_from};
ghost use Rattle.cm_abi_slots.specs.Steps.{are_plain, is_plain, repeated, step_of, steps_for};
ghost use Rattle.cm_abi_slots.specs.Steps.{steps_of, steps_of_parts};

use cm_layout::{Form, Layout, Leaf, Part};
use std::alloc::{AllocError, Global};

/// What a core value becomes on its way to the receiver of a call.
#[derive(Clone, Copy)]
pub enum SlotStep {
    /// It stays: a number of 32 or 64 bits, or a set of 32 flags.
    Keep,
    /// It becomes 1 where it is not 0: a bool.
    Truth,
    /// Its low 8 bits stay, without sign.
    Low8,
    /// Its low 16 bits stay, without sign.
    Low16,
    /// Its low 8 bits are widened with their sign to 32 bits.
    Signed8,
    /// Its low 16 bits are widened with their sign to 32 bits.
    Signed16,
    /// So many low bits stay, fewer than 32: a set of so many flags.
    Flags(u32),
    /// It stays, and has to be a Unicode scalar: a char.
    Char,
}

/// The step of the core value of a leaf.
fn step_of(leaf: Leaf) -> SlotStep
    ensures { result ≡ step_of leaf }
{
    match leaf {
        Leaf::Bool => SlotStep::Truth,
        Leaf::Char => SlotStep::Char,
        Leaf::Unsigned(1) => SlotStep::Low8,
        Leaf::Unsigned(2) => SlotStep::Low16,
        Leaf::Signed(1) => SlotStep::Signed8,
        Leaf::Signed(2) => SlotStep::Signed16,
        Leaf::Signed(_) | Leaf::Unsigned(_) => SlotStep::Keep,
        Leaf::Flags { labels, .. } => {
            if labels < 32 {
                SlotStep::Flags(labels as u32)
            } else {
                SlotStep::Keep
            }
        }
    }
}

/// Whether values with this layout are numbers alone: there is no string, no list, no handle and no
/// case in them.
#[cycle(plain)]
fn is_plain(layout: &Layout) -> bool
    ensures { result ≡ is_plain (layout_of layout.now).shape }
{
    match &layout.form {
        Form::Leaf(_) => true,
        Form::FixedList { element, .. } => is_plain(element),
        Form::Fields(parts) => are_plain(parts),
        Form::String | Form::List(_) | Form::Cases { .. } | Form::Enum { .. } | Form::Handle(_) => {
            false
        }
    }
}

/// Whether fields are numbers alone.
#[cycle(plain)]
fn are_plain(parts: &[Part]) -> bool
    ensures { result ≡ are_plain (parts_from (map part_of parts.now)) }
{
    for part in parts {
        if !is_plain_part(part) {
            return false;
        }
    }
    true
}

/// Whether a field is numbers alone.
#[cycle(plain)]
fn is_plain_part(part: &Part) -> bool
    ensures { result ≡ is_plain (part_of part.now).1.shape }
{
    is_plain(&part.layout)
}

/// Adds the steps of the core values of a type.
#[cycle(steps)]
fn push_steps(layout: &Layout, steps: &mut Vec<SlotStep>) -> Result<(), AllocError>
    ensures { OnOk result
        (steps.new.items ≡ steps.old.items ++ steps_of (layout_of layout.now).shape) }
{
    match &layout.form {
        Form::Leaf(leaf) => {
            steps.push(step_of(*leaf))?;
            Ok(())
        }
        Form::FixedList { element, length } => push_each(element, *length, steps),
        Form::Fields(parts) => push_fields(parts, steps),
        Form::String | Form::List(_) | Form::Cases { .. } | Form::Enum { .. } | Form::Handle(_) => {
            Ok(())
        }
    }
}

/// Adds the steps of so many values of one type.
#[cycle(steps)]
fn push_each(element: &Layout, count: u32, steps: &mut Vec<SlotStep>) -> Result<(), AllocError>
    ensures { OnOk result (steps.new.items
        ≡ steps.old.items ++ repeated count (steps_of (layout_of element.now).shape)) }
{
    for _ in 0..count {
        push_steps(element, steps)?;
    }
    Ok(())
}

/// Adds the steps of fields.
#[cycle(steps)]
fn push_fields(parts: &[Part], steps: &mut Vec<SlotStep>) -> Result<(), AllocError>
    ensures { OnOk result (steps.new.items
        ≡ steps.old.items ++ steps_of_parts (parts_from (map part_of parts.now))) }
{
    for part in parts {
        push_field(part, steps)?;
    }
    Ok(())
}

/// Adds the steps of a field.
#[cycle(steps)]
fn push_field(part: &Part, steps: &mut Vec<SlotStep>) -> Result<(), AllocError>
    ensures { OnOk result
        (steps.new.items ≡ steps.old.items ++ steps_of (part_of part.now).1.shape) }
{
    push_steps(&part.layout, steps)
}

/// What each core value becomes where the values of a layout pass in at most so many core values
/// and are numbers alone: a step for each, in order; `None` where they take more, or where a
/// string, a list, a handle or a case is among them. Where they take more no layout in it is looked
/// at.
///
/// It fails where there is no memory for the steps.
pub fn slot_steps(
    alloc: Global,
    layout: &Layout,
    most: usize,
) -> Result<Option<Vec<SlotStep>>, AllocError>
    ensures { IfOk result (λ steps.
        option_map (λ s. s.items) steps ≡ steps_for most (layout_of layout.now)) }
{
    if layout.head.width as usize > most || !is_plain(layout) {
        return Ok(None);
    }
    let mut steps = Vec::new(alloc);
    push_steps(layout, &mut steps)?;
    Ok(Some(steps))
}
