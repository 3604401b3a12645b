//! Giving handles to a receiver.

ghost use Rattle.std.specs.Prelude.{◌≡◌, ◌↔◌, ◌+◌, ◌<◌, ◌≤◌, ◌⊎◌, ◌∷◌, [], IfErr, IfOk, IsErrOf};
ghost use Rattle.std.specs.Prelude.{IsOk, OnErr, OnOk, Some, length, vec_capacity, ℕ};
ghost use Rattle.std.specs.Prelude.{if◌then◌else◌};
ghost use Rattle.std.specs.Option.{ForSome};
ghost use Rattle.cm_types.specs.Types.{Fields};
ghost use Rattle.cm_types.specs.Values.{HasType, parts};
ghost use Rattle.cm_handles.specs.Borrows.{borrows_by, borrows_of};
ghost use Rattle.cm_handles.specs.Handles.{IsSoundHandles, after_add, handle_at, indices_left};
ghost use Rattle.cm_handles.specs.Handles.{next_index};
ghost use Rattle.cm_layout.specs.Layouts.{layout_of};
ghost use Rattle.cm_layout.specs.Shapes.{layout_of_fields_at};
ghost use Rattle.cm_types.specs.ValueTrees.{values_of};
ghost use Rattle.cm_abi_model.specs.Receives.{leaves_in};
ghost use Rattle.cm_abi_model.specs.Requests.{tuple_of};
ghost use Rattle.cm_abi_model.specs.Giving.{AllStay, Gives, NoneElse, added_by, added_count};
ghost use Rattle.cm_abi_model.specs.Giving.{added_for, borrowed_by, borrowed_count, handle_to};
ghost use Rattle.cm_abi_model.specs.Giving.{number_with, rep_of, with_added};
ghost use Rattle.cm_abi_model.specs.HandleLeaves.{leaf_of, leaves_of, value_in};

use crate::leaves::leaves;
use cm_abi_model::{AbiFault, HandleLeaf, HandleValue, Receiver};
use cm_handles::laws::borrows_are_counted;
use cm_handles::{Handle, HandleFault, HandleKind, Table};
use cm_layout::Layout;
use cm_types::{ResourceId, Value};
use std::alloc::Global;

/// A resource, whichever.
const NO_RESOURCE: ResourceId = ResourceId {
    component: 0,
    number: 0,
};

/// The handles of any table are sound.
fn is_sound(table: &Table)
    ensures { IsSoundHandles table.now.handles }
{
    let _handle = table.get(0, NO_RESOURCE);
}

/// A handle of this kind, lent to nobody.
fn handle_to(value: HandleValue, kind: HandleKind) -> Handle
    ensures { result ≡ handle_to (value_in value) kind }
{
    Handle {
        resource: value.resource,
        serial: value.serial,
        lends: 0,
        rep: value.rep,
        kind,
    }
}

/// What the receiver's table gets for a handle of a value.
fn added_for(to: Receiver, leaf: HandleLeaf) -> Option<Handle>
    ensures { result ≡ added_for to (leaf_of leaf) }
{
    match leaf {
        HandleLeaf::Owned(value) => Some(handle_to(value, HandleKind::Owned)),
        HandleLeaf::Borrowed(value) => {
            if value.resource.component == to.instance {
                None
            } else {
                Some(handle_to(value, HandleKind::Borrowed { call: to.call }))
            }
        }
    }
}

/// Whether the receiver's table gets a handle that is borrowed for the call.
fn is_borrowed(to: Receiver, leaf: HandleLeaf) -> bool
    ensures { (if result then 1 else 0) ≡ borrowed_by to (leaf_of leaf) }
{
    match leaf {
        HandleLeaf::Owned(_) => false,
        HandleLeaf::Borrowed(value) => value.resource.component != to.instance,
    }
}

/// The representation of the resource of a handle.
fn rep_of(leaf: HandleLeaf) -> u32
    ensures { result ≡ rep_of (leaf_of leaf) }
{
    match leaf {
        HandleLeaf::Owned(value) | HandleLeaf::Borrowed(value) => value.rep,
    }
}

/// How many handles the receiver's table gets.
fn added_count(to: Receiver, leaves: &[HandleLeaf]) -> usize
    ensures { result ≡ added_count to (leaves_of leaves.now) }
{
    let mut count = 0;
    for leaf in leaves {
        if added_for(to, *leaf).is_some() {
            count += 1;
        }
    }
    count
}

/// How many handles are borrowed for the call among those that the receiver's table gets for the
/// handles of a value: one for each borrow of a resource that the receiver does not implement
/// (CanonicalABI.md, "Storing", `lower_borrow`).
pub fn borrowed_count(to: Receiver, leaves: &[HandleLeaf]) -> usize
    ensures count { result ≡ borrowed_count to (leaves_of leaves.now) }
    ensures most { result ≤ length leaves.now }
{
    let mut count = 0;
    for leaf in leaves {
        if is_borrowed(to, *leaf) {
            count += 1;
        }
    }
    count
}

/// Adds a handle to a table that has room.
fn add_handle(table: &mut Table, handle: Handle) -> u32
    requires { 0 < table.old.room }
    ensures index { result ≡ next_index table.old.handles }
    ensures table { table.new.handles ≡ after_add table.old.handles handle }
    ensures here { handle_at table.new.handles result ≡ Some handle }
    ensures stay { AllStay table.old.handles table.new.handles }
    ensures none_else { NoneElse table.old.handles table.new.handles (result ∷ []) }
    ensures borrows { (call : ℕ) → borrows_of call table.new.handles
        ≡ borrows_of call table.old.handles + borrows_by call handle }
    ensures left { indices_left table.new.handles + 1 ≡ indices_left table.old.handles }
    ensures room { table.old.room ≤ table.new.room + 1 }
    ensures sound { IsSoundHandles table.new.handles }
{
    borrows_are_counted();
    match table.add(handle) {
        Ok(index) => index,
        Err(_) => unreachable!(),
    }
}

/// Gives a handle of a value; the answer is the number that stands for it.
fn give_one(table: &mut Table, to: Receiver, leaf: HandleLeaf) -> u32
    requires room { added_by (added_for to (leaf_of leaf)) ≤ table.old.room }
    requires sound { IsSoundHandles table.old.handles }
    ensures number { result ≡ number_with table.old.handles (added_for to (leaf_of leaf))
        (rep_of (leaf_of leaf)) }
    ensures table { table.new.handles
        ≡ with_added table.old.handles (added_for to (leaf_of leaf)) }
    ensures here { ForSome (added_for to (leaf_of leaf)) (λ h.
        handle_at table.new.handles result ≡ Some h) }
    ensures stay { AllStay table.old.handles table.new.handles }
    ensures none_else { NoneElse table.old.handles table.new.handles (result ∷ []) }
    ensures borrows { borrows_of to.call table.new.handles
        ≡ borrows_of to.call table.old.handles + borrowed_by to (leaf_of leaf) }
    ensures left { indices_left table.new.handles + added_by (added_for to (leaf_of leaf))
        ≡ indices_left table.old.handles }
    ensures room { table.old.room
        ≤ table.new.room + added_by (added_for to (leaf_of leaf)) }
    ensures sound { IsSoundHandles table.new.handles }
{
    match added_for(to, leaf) {
        Some(handle) => add_handle(table, handle),
        None => rep_of(leaf),
    }
}

/// Gives handles to a table that has room for them, with room for their numbers too.
fn give_each(table: &mut Table, to: Receiver, leaves: &[HandleLeaf], numbers: &mut Vec<u32>)
    requires none { numbers.old.items ≡ [] }
    requires space { length leaves.now ≤ vec_capacity numbers.old }
    requires room { added_count to (leaves_of leaves.now) ≤ table.old.room }
    requires sound { IsSoundHandles table.old.handles }
    ensures { Gives to table.old.handles table.new.handles (leaves_of leaves.now)
        numbers.new.items }
{
    for leaf in leaves {
        let number = give_one(table, to, *leaf);
        numbers.push_reserved(number);
    }
}

/// Gives the handles of a value to the receiver of a call, in order (CanonicalABI.md, "Storing",
/// `lower_own` and `lower_borrow`). The number that stands for each is put into `numbers`, in the
/// place of what stood there; the list keeps its room. It is the index in the receiver's table of
/// the handle that is added there, one that owns its resource or one that is borrowed for the call;
/// or, for a borrow of a resource that the receiver implements, its representation, and then
/// nothing is added.
///
/// Refused with `TableFull` exactly where the table has fewer indices left than it is to get
/// handles, else with `EngineMemory` where there is no memory; the handles of the table are then
/// as they were, and the answer has no number. No memory is taken where there is nothing to give.
pub fn give(
    table: &mut Table,
    to: Receiver,
    leaves: &[HandleLeaf],
    numbers: &mut Vec<u32>,
) -> Result<(), AbiFault>
    ensures gives { OnOk result (Gives to table.old.handles table.new.handles
        (leaves_of leaves.now) numbers.new.items) }
    ensures full { IsErrOf result AbiFault.TableFull
        ↔ (indices_left table.old.handles < added_count to (leaves_of leaves.now)) }
    ensures err { IfErr result (λ e. (e ≡ AbiFault.TableFull) ⊎ (e ≡ AbiFault.EngineMemory)) }
    ensures nothing { leaves.now ≡ [] → IsOk result }
    ensures unchanged { OnErr result (table.new.handles ≡ table.old.handles) }
    ensures none { OnErr result (numbers.new.items ≡ []) }
{
    numbers.clear();
    if leaves.is_empty() {
        is_sound(table);
        return Ok(());
    }
    match table.reserve(added_count(to, leaves)) {
        Ok(()) => {}
        Err(HandleFault::Full) => return Err(AbiFault::TableFull),
        Err(_) => return Err(AbiFault::EngineMemory),
    }
    let Ok(()) = numbers.reserve(leaves.len()) else {
        return Err(AbiFault::EngineMemory);
    };
    give_each(table, to, leaves, numbers);
    Ok(())
}

/// Gives the handles of values to the receiver of a call, in reading order, by the layout of the
/// tuple of their types. The values have their types. The answer is the number that stands for
/// each handle, as `give` tells them.
///
/// Refused with `TableFull` where the table has fewer indices left than it is to get handles, or
/// with `EngineMemory` where there is no memory; the handles of the table are then as they were.
pub fn give_values(
    alloc: Global,
    table: &mut Table,
    to: Receiver,
    layout: &Layout,
    values: &[Value],
) -> Result<Vec<u32>, AbiFault>
    ensures gives { (types : Fields) → layout_of layout.now ≡ layout_of_fields_at types
        → HasType (tuple_of types) (parts (values_of values.now))
        → IfOk result (λ ns. Gives to table.old.handles table.new.handles
        (leaves_in (tuple_of types) (parts (values_of values.now))) ns.items) }
    ensures room { (types : Fields) → layout_of layout.now ≡ layout_of_fields_at types
        → HasType (tuple_of types) (parts (values_of values.now))
        → OnOk result (added_count to (leaves_in (tuple_of types) (parts (values_of values.now)))
        ≤ indices_left table.old.handles) }
    ensures full { (types : Fields) → layout_of layout.now ≡ layout_of_fields_at types
        → HasType (tuple_of types) (parts (values_of values.now))
        → IsErrOf result AbiFault.TableFull → indices_left table.old.handles
        < added_count to (leaves_in (tuple_of types) (parts (values_of values.now))) }
    ensures err { IfErr result (λ e. (e ≡ AbiFault.TableFull) ⊎ (e ≡ AbiFault.EngineMemory)) }
    ensures unchanged { OnErr result (table.new.handles ≡ table.old.handles) }
{
    let Ok(leaves) = leaves(alloc, layout, values) else {
        return Err(AbiFault::EngineMemory);
    };
    let mut numbers = Vec::new(alloc);
    give(table, to, &leaves, &mut numbers)?;
    Ok(numbers)
}
