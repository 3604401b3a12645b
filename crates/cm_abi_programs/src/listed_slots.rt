//! The puts of core values of a type, listed from those of what it holds.

ghost use Rattle.std.specs.Prelude.{◌≡◌, IfOk, OnOk, false, length, map};
ghost use Rattle.cm_layout.specs.Layouts.{layout_of};
ghost use Rattle.cm_abi_programs.specs.CodedPuts.{put_lists, puts_in};
ghost use Rattle.cm_abi_programs.specs.CodedSlots.{case_of, case_slots_from, slot_lists};
ghost use Rattle.cm_abi_programs.specs.CodedSlots.{slot_of, slots_in};
ghost use Rattle.cm_abi_programs.specs.Held.{is_list, shapes_in};
ghost use Rattle.cm_abi_programs.specs.PlacedFields.{slots_placed};
ghost use Rattle.cm_abi_programs.specs.Puts.{puts_of};
ghost use Rattle.cm_abi_programs.specs.SlotPuts.{are_unput, both_slots, cases_slots, each_slot};
ghost use Rattle.cm_abi_programs.specs.SlotPuts.{flat_puts_of, is_unput, leaf_slot, list_slot};
ghost use Rattle.cm_abi_programs.specs.SlotPuts.{moved_slots, one_slot, placed_slots};

use crate::holding::{case_lists, member_counts, only_list, slot_offsets};
use crate::limits::FEW;
use crate::puts::Put;
use crate::slots::{CaseSlotPuts, SlotPut};
use cm_layout::{Form, Layout, Leaf};
use std::alloc::{AllocError, Global};
use std::sync::Arc;

/// Adds puts behind others, each so far behind where it stands.
fn push_moved(puts: &[SlotPut], by: u32, all: &mut Vec<SlotPut>) -> Result<(), AllocError>
    ensures { OnOk result (slots_in all.new.items
        ≡ both_slots (slots_in all.old.items) (moved_slots by (slots_in puts.now))) }
{
    for put in puts {
        let moved = put.moved(by)?;
        all.push(moved)?;
    }
    Ok(())
}

/// Adds the puts of a field that begins so far behind: where they are few they are written out,
/// else the list is shared. Nothing below them is walked.
#[tactic(auto, using(crate::proofs::SlotMakingLemmas::listed))]
fn push_placed(puts: &Arc<Vec<SlotPut>>, at: u32, all: &mut Vec<SlotPut>) -> Result<(), AllocError>
    ensures { OnOk result (slots_in all.new.items
        ≡ both_slots (slots_in all.old.items)
        (placed_slots at (slots_in puts.now.value.items))) }
{
    if puts.len() > FEW {
        let puts = puts.clone()?;
        all.push(SlotPut::Part { at, puts })?;
        Ok(())
    } else {
        push_moved(puts, at, all)
    }
}

/// The puts of fields that begin at these places, from those of each.
fn placed_slots(
    alloc: Global,
    offsets: &[u32],
    lists: &[Arc<Vec<SlotPut>>],
) -> Result<Vec<SlotPut>, AllocError>
    requires { length offsets.now ≡ length lists.now }
    ensures { IfOk result (λ cs.
        slots_in cs.items ≡ slots_placed offsets.now (slot_lists lists.now)) }
{
    let mut all = Vec::with_capacity(alloc, member_counts(lists)?)?;
    for (index, offset) in offsets.iter().enumerate() {
        push_placed(&lists[index], *offset, &mut all)?;
    }
    Ok(all)
}

/// A list of one put.
fn one_slot(alloc: Global, put: SlotPut) -> Result<Vec<SlotPut>, AllocError>
    ensures { IfOk result (λ cs. slots_in cs.items ≡ one_slot (slot_of put)) }
{
    Ok(vec![in alloc; put]?)
}

/// The put of the number of a leaf.
fn leaf_slots(alloc: Global, leaf: Leaf) -> Result<Vec<SlotPut>, AllocError>
    ensures { IfOk result (λ cs. slots_in cs.items ≡ one_slot (leaf_slot 0 leaf)) }
{
    one_slot(alloc, SlotPut::Leaf { at: 0, leaf })
}

/// The put of a list of elements that take so many bytes, from the puts of one in memory.
fn list_slots(alloc: Global, size: u32, puts: Arc<Vec<Put>>) -> Result<Vec<SlotPut>, AllocError>
    ensures { IfOk result (λ cs.
        slots_in cs.items ≡ one_slot (list_slot 0 size (puts_in puts.value.items))) }
{
    one_slot(alloc, SlotPut::List { at: 0, size, puts })
}

/// The puts of so many values in a row, so far one behind the other, from those of one.
fn row_slots(
    alloc: Global,
    distance: u32,
    count: u32,
    puts: Arc<Vec<SlotPut>>,
) -> Result<Vec<SlotPut>, AllocError>
    ensures { IfOk result (λ cs.
        slots_in cs.items ≡ one_slot (each_slot 0 distance count (slots_in puts.value.items))) }
{
    one_slot(
        alloc,
        SlotPut::Each {
            at: 0,
            distance,
            count,
            puts,
        },
    )
}

/// Whether nothing is put.
#[tactic(auto, using(crate::proofs::SlotMakingLemmas::emptiness))]
fn is_unput(puts: &[SlotPut]) -> bool
    ensures { result ≡ is_unput (slots_in puts.now) }
{
    puts.is_empty()
}

/// Whether nothing is put for what any case carries.
fn are_unput(cases: &[Arc<Vec<SlotPut>>]) -> bool
    ensures { result ≡ are_unput (case_slots_from (slot_lists cases.now)) }
{
    for puts in cases {
        if !is_unput(puts) {
            return false;
        }
    }
    true
}

/// The puts of what each case carries, in order; each list is shared. `AllocError` comes where
/// there is no memory for that.
fn case_slots(alloc: Global, cases: &[Arc<Vec<SlotPut>>]) -> Result<Vec<CaseSlotPuts>, AllocError>
    ensures { IfOk result (λ cs. map case_of cs.items ≡ slot_lists cases.now) }
{
    let mut all = Vec::with_capacity(alloc, cases.len())?;
    for case in cases {
        let puts = case.clone()?;
        all.push(CaseSlotPuts { puts })?;
    }
    Ok(all)
}

/// The puts of cases, from those of what each case carries.
fn cases_slots(alloc: Global, cases: Vec<Arc<Vec<SlotPut>>>) -> Result<Vec<SlotPut>, AllocError>
    ensures { IfOk result (λ cs.
        slots_in cs.items ≡ cases_slots (case_slots_from (slot_lists cases.items))) }
{
    if are_unput(&cases) {
        return leaf_slots(alloc, Leaf::Unsigned(4));
    }
    let cases = Arc::new(alloc, case_slots(alloc, &cases)?)?;
    one_slot(alloc, SlotPut::Cases { at: 0, cases })
}

/// What has to be put into core values for a value, by the layout of its type, from what has to be
/// for the values that it holds, in order: written to memory, and put into core values; of a list
/// it does not matter what its elements would be as core values. Each list is shared, and nothing
/// below is walked. `AllocError` comes where there is no memory for it, or where a place in a value
/// would take more than 32 bits, which none of a layout does.
pub fn flat_puts(
    alloc: Global,
    layout: &Layout,
    stored: &[Arc<Vec<Put>>],
    held: &[Arc<Vec<SlotPut>>],
) -> Result<Vec<SlotPut>, AllocError>
    requires stored { put_lists stored.now
        ≡ map puts_of (shapes_in (layout_of layout.now).shape) }
    requires held { is_list (layout_of layout.now).shape ≡ false
        → slot_lists held.now ≡ map flat_puts_of (shapes_in (layout_of layout.now).shape) }
    ensures { IfOk result (λ cs. slots_in cs.items ≡ flat_puts_of (layout_of layout.now).shape) }
{
    match &layout.form {
        Form::Leaf(leaf) => leaf_slots(alloc, *leaf),
        Form::String => one_slot(alloc, SlotPut::Text { at: 0 }),
        Form::List(element) => list_slots(alloc, element.head.size, only_list(stored)?),
        Form::FixedList { element, length } => {
            row_slots(alloc, element.head.width, *length, only_list(held)?)
        }
        Form::Fields(parts) => placed_slots(alloc, &slot_offsets(alloc, parts)?, held),
        Form::Cases { payloads, .. } => cases_slots(alloc, case_lists(alloc, payloads, held)?),
        Form::Enum { .. } => leaf_slots(alloc, Leaf::Unsigned(4)),
        Form::Handle(_) => one_slot(alloc, SlotPut::Handle { at: 0 }),
    }
}
