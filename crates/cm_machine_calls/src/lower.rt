//! Lowering the value on its way to its receiver (CanonicalABI.md, `lower_flat_values`): its bytes
//! are copied from one instance's memory to another's, and its handles added to a table.

ghost use Rattle.std.specs.Prelude.{◌≡◌, ◌≢◌, ◌<◌, ◌≤◌, ◌+◌, List, MatchResult, OnErr, OnOk, ℕ};
ghost use Rattle.std.specs.Prelude.{length, map, slice_index, slice_set};
ghost use Rattle.cm_types.specs.CoreValues.{kind_of};
ghost use Rattle.cm_types.specs.Types.{Fields};
ghost use Rattle.cm_types.specs.Values.{Val};
ghost use Rattle.cm_abi_model.specs.Copies.{IsFaultOfCopying, handles_of_values};
ghost use Rattle.cm_abi_model.specs.Views.{View, flat_limit};
ghost use Rattle.cm_abi_model.specs.Ways.{way_of};
ghost use Rattle.cm_abi_programs.specs.CallPuts.{call_puts_in, call_puts_of};
ghost use Rattle.cm_layout.specs.Layouts.{layout_of};
ghost use Rattle.cm_machine_model.specs.Memories.{memory_at};
ghost use Rattle.cm_abi_copy.specs.Copies.{IsCopied};
ghost use Rattle.cm_machine_calls.specs.Handing.{CanBeCopied, CanCopy, IsCopiedIn};
ghost use Rattle.cm_machine_calls.specs.Handing.{owner_given};
ghost use Rattle.cm_abi_model.specs.Giving.{borrowed_count};
ghost use Rattle.cm_abi_model.specs.HandleLeaves.{leaf_of, leaves_of};
ghost use Rattle.cm_machine_model.specs.Step.{owners_given};
ghost use Rattle.cm_machine_parts.specs.Kept.{AreBorrowsCounted, CanEnd};
ghost use Rattle.cm_machine_parts.specs.States.{state_of};
ghost use Rattle.cm_machine_calls.specs.Going.{CanBeLowered, LowersOrStops};

use crate::link::{kinds_of, layout_of, puts_of};
use crate::traps::trap_of;
use cm_abi::{AbiFault, Found, HandleLeaf, Passed, Receiver, Scan, Way};
use cm_abi_copy::copy_by;
use cm_abi_lower::borrowed_count;
use cm_abi_programs::CallPuts;
use cm_abi_requests::requesting_laws::records_ask_for_parts;
use cm_handles::Table;
use cm_handles::laws::{borrows_are_counted, tables_change_in_one_place};
use cm_machine_model::state::Place;
use cm_machine_model::{Flat, MAX_FRAMES, MAX_MEMORY_SIZE, Memories, Trap};
use cm_machine_parts::{Link, State};
use cm_types::{CoreKind, CoreValue, MAX_FLAT_PARAMS};
use std::alloc::Global;

/// The zero of this kind.
fn zero_of(kind: CoreKind) -> CoreValue
    ensures { kind_of result ≡ kind }
{
    match kind {
        CoreKind::I32 => CoreValue::I32(0),
        CoreKind::I64 => CoreValue::I64(0),
    }
}

/// Puts a zero of each of these kinds in place of all values that were there.
fn put_zeros(kinds: &[CoreKind], values: &mut Flat)
    requires { length kinds.now ≤ MAX_FLAT_PARAMS }
    ensures { map kind_of values.new ≡ kinds.now }
{
    values.clear();
    for kind in kinds {
        values.push(zero_of(*kind));
    }
}

/// Copies a value that was scanned in one memory into another, by what has to be written of it, and
/// puts the core values that pass it, of these kinds, into `values`. Else nothing is changed but
/// `values` and the room of lists.
fn copy_into(
    kept: &mut Scan,
    from: &[u8],
    bytes: &mut Vec<u8>,
    table: &mut Table,
    to: Receiver,
    passed: &Passed<'_>,
    kinds: &[CoreKind],
    puts: &CallPuts,
    values: &mut Flat,
) -> Result<(), AbiFault>
    requires copied { CanBeCopied from.now (length bytes.old.items) passed.now kinds.now kept.old }
    requires few { length bytes.old.items ≤ MAX_MEMORY_SIZE }
    requires kinds { length kinds.now ≤ MAX_FLAT_PARAMS }
    requires puts { call_puts_in puts.now ≡ call_puts_of
        (flat_limit (way_of passed.now.way)) (layout_of passed.now.layout.now) }
    ensures copied { (view : View) (answers : List ℕ) (types : Fields) (v : Val)
        → CanCopy view from.now (length bytes.old.items) passed.now kinds.now kept.old answers
        types v
        → MatchResult result
        (λ _. IsCopied to (way_of passed.now.way) types v kept.old.parts answers bytes.old.items
        bytes.new.items table.old.handles table.new.handles values.new kept.new.numbers)
        (IsFaultOfCopying kept.old.parts answers to table.old.handles
        (handles_of_values types v)) }
    ensures bytes_stay { OnErr result (bytes.new.items ≡ bytes.old.items) }
    ensures table_stays { OnErr result (table.new.handles ≡ table.old.handles) }
    ensures length { length bytes.new.items ≡ length bytes.old.items }
    ensures kept_stays { kept.new ≡ record kept.old { numbers = kept.new.numbers } }
{
    put_zeros(kinds, values);
    let found = Found {
        memory: from,
        passed: *passed,
    };
    copy_by(kept, bytes, table, values.as_mut_slice(), to, &found, puts)
}

/// Copies a value that was scanned in the memory of its giver to its receiver. The receiver's
/// memory is taken out of the others while it is written, with no copy of its bytes.
pub(crate) fn copy_between(
    alloc: Global,
    kept: &mut Scan,
    memories: &mut Memories,
    giver: u32,
    table: &mut Table,
    to: Receiver,
    passed: &Passed<'_>,
    kinds: &[CoreKind],
    puts: &CallPuts,
    values: &mut Flat,
) -> Result<(), AbiFault>
    requires copied { CanBeCopied (memory_at memories.old giver)
        (length (memory_at memories.old to.instance)) passed.now kinds.now kept.old }
    requires apart { giver ≢ to.instance }
    requires giver { giver < length memories.old }
    requires receiver { to.instance < length memories.old }
    requires kinds { length kinds.now ≤ MAX_FLAT_PARAMS }
    requires puts { call_puts_in puts.now ≡ call_puts_of
        (flat_limit (way_of passed.now.way)) (layout_of passed.now.layout.now) }
    ensures copied { (view : View) (answers : List ℕ) (types : Fields) (v : Val)
        → CanCopy view (memory_at memories.old giver)
        (length (memory_at memories.old to.instance)) passed.now kinds.now kept.old answers
        types v
        → MatchResult result
        (λ _. IsCopiedIn to (way_of passed.now.way) types v kept.old.parts answers memories.old
        memories.new table.old.handles table.new.handles values.new kept.new.numbers)
        (IsFaultOfCopying kept.old.parts answers to table.old.handles
        (handles_of_values types v)) }
    ensures memories_stay { OnErr result (memories.new ≡ memories.old) }
    ensures table_stays { OnErr result (table.new.handles ≡ table.old.handles) }
    ensures kept_stays { kept.new ≡ record kept.old { numbers = kept.new.numbers } }
{
    let receiver = to.instance as usize;
    let mut bytes = memories.take(alloc, receiver);
    let Some(from) = memories.get(giver as usize) else {
        unreachable!()
    };
    let copied = copy_into(
        kept, from, &mut bytes, table, to, passed, kinds, puts, values,
    );
    memories.put(receiver, bytes);
    copied
}

/// Says where the resource of a handle is that was given at a number of an instance's table, if it
/// is owned.
fn place_one_owned(owners: &mut Vec<Place>, leaf: &HandleLeaf, instance: u32, number: u32)
    ensures { owners.new.items
        ≡ owner_given instance (leaf_of leaf.now) number owners.old.items }
{
    if let HandleLeaf::Owned(value) = leaf {
        let serial = value.serial as usize;
        if serial < owners.len() {
            owners[serial] = Place::InTable {
                instance,
                index: number,
            };
        }
    }
}

/// Says where the resources of the handles are that were given at these numbers of an instance's
/// table, of those that are owned.
pub(crate) fn place_owned(
    owners: &mut Vec<Place>,
    handles: &[HandleLeaf],
    instance: u32,
    numbers: &[u32],
)
    ensures { owners.new.items
        ≡ owners_given instance (leaves_of handles.now) numbers.now owners.old.items }
{
    let mut rest = numbers;
    for leaf in handles {
        let Some((number, behind)) = rest.split_first() else {
            return;
        };
        place_one_owned(owners, leaf, instance, *number);
        rest = behind;
    }
}

/// Copies the value on its way to its receiver, and says where its resources are; nothing is
/// on its way then. Else the answer is the trap, and the state is as it was.
fn move_to_receiver(
    alloc: Global,
    state: &mut State,
    link: &Link,
    way: Way,
    giver: u32,
    to: Receiver,
    values: &mut Flat,
) -> Result<(), Trap>
    requires on { CanBeLowered state.old link.now (way_of way) giver to }
    ensures moves { LowersOrStops state.old state.new link.now (way_of way) giver to values.new
        result }
    ensures stack { state.new.stack ≡ state.old.stack }
    ensures lends { state.new.lends ≡ state.old.lends }
    ensures slots { state.new.passing.slots ≡ state.old.passing.slots }
    ensures unchanged { OnErr result (state_of state.new ≡ state_of state.old) }
{
    records_ask_for_parts();
    let layout = layout_of(link, way);
    let kinds = kinds_of(link, way);
    let puts = puts_of(link, way);
    let passed = Passed {
        way,
        layout,
        slots: state.passing.slots.as_slice(),
    };
    let kept = &mut state.passing.scan;
    let table = &mut state.tables[to.instance as usize];
    let memories = &mut state.memories;
    match copy_between(
        alloc, kept, memories, giver, table, to, &passed, kinds, puts, values,
    ) {
        Ok(()) => {}
        Err(fault) => return Err(trap_of(fault)),
    }
    let scan = &state.passing.scan;
    place_owned(
        &mut state.owners,
        scan.handles(),
        to.instance,
        scan.numbers(),
    );
    state.passing.scan.clear();
    Ok(())
}

/// Counts so many handles more that the receiver's table got borrowed for the call, which is their
/// borrow scope (CanonicalABI.md, `lower_borrow`, `borrow_scope.num_borrows`).
fn count_borrows(state: &mut State, to: Receiver, borrowed: usize)
    requires place { to.call < MAX_FRAMES }
    requires fits { slice_index state.old.stack.borrows to.call + borrowed ≤ 65536 }
    ensures borrows { state.new.stack.borrows ≡ slice_set state.old.stack.borrows to.call
        (slice_index state.old.stack.borrows to.call + borrowed) }
    ensures frames { state.new.stack.frames ≡ state.old.stack.frames }
    ensures passing { state.new.passing ≡ state.old.passing }
    ensures lends { state.new.lends ≡ state.old.lends }
    ensures same { state_of state.new ≡ state_of state.old }
{
    let place = to.call as usize;
    let count = state.stack.borrows(place) + borrowed as u32;
    state.stack.set_borrows(place, count);
}

/// Lowers the value on its way to its receiver (CanonicalABI.md, `lower_flat_values`): its bytes
/// stand in the receiver's memory, its handles in its table, and the core values that pass it in
/// `values`; nothing is on its way then. Else the answer is the trap, and the state is as it was.
#[inline(never)]
pub(crate) fn lower_flat_values(
    alloc: Global,
    state: &mut State,
    link: &Link,
    way: Way,
    giver: u32,
    to: Receiver,
    values: &mut Flat,
) -> Result<(), Trap>
    requires on { CanBeLowered state.old link.now (way_of way) giver to }
    ensures hands { LowersOrStops state.old state.new link.now (way_of way) giver to values.new
        result }
    ensures counted { OnOk result (AreBorrowsCounted state.new.stack.borrows
        state.new.stack.frames (state_of state.new).tables) }
    ensures ends { OnOk result (CanEnd state.old → CanEnd state.new) }
    ensures frames { state.new.stack.frames ≡ state.old.stack.frames }
    ensures slots { state.new.passing.slots ≡ state.old.passing.slots }
    ensures unchanged { OnErr result (state_of state.new ≡ state_of state.old) }
{
    borrows_are_counted();
    tables_change_in_one_place();
    let borrowed = borrowed_count(to, state.passing.scan.handles());
    match move_to_receiver(alloc, state, link, way, giver, to, values) {
        Ok(()) => {}
        Err(trap) => return Err(trap),
    }
    count_borrows(state, to, borrowed);
    Ok(())
}
