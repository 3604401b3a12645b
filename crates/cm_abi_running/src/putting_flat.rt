//! Values in core values, passed on in others by the puts of their types. What is behind a pointer
//! stands in a memory.

ghost use Rattle.std.specs.Prelude.{◌≡◌, ◌+◌, ◌*◌, ◌^◌, ◌<◌, ◌≤◌, length};
ghost use Rattle.cm_abi_load.specs.Sized.{IsSizedLeaf, core_size};
ghost use Rattle.cm_abi_model.specs.Numbers.{wrapped_at as wrapped};
ghost use Rattle.cm_abi_model.specs.Receives.{put};
ghost use Rattle.cm_abi_model.specs.Stores.{poke};
ghost use Rattle.cm_abi_programs.specs.CodedPuts.{puts_in};
ghost use Rattle.cm_abi_programs.specs.CodedSlots.{slot_of, slots_in};
ghost use Rattle.cm_abi_running.specs.Passing.{number_on, passed_each};
ghost use Rattle.cm_abi_running.specs.Copying.{copying_of};
ghost use Rattle.cm_abi_running.specs.PutsReady.{ArePutsReady, IsListPutReady};
ghost use Rattle.cm_abi_running.specs.PutsWithin.{ArePutsWithin};
ghost use Rattle.cm_abi_running.specs.PutsWritten.{running};
ghost use Rattle.cm_abi_running.specs.Ready.{IsTextReady};
ghost use Rattle.cm_abi_running.specs.SlotPutsReady.{AreEachSlotReady, AreSlotsReady};
ghost use Rattle.cm_abi_running.specs.SlotPutsReady.{AreSlotsWithin};
ghost use Rattle.cm_abi_running.specs.SlotPutsReady.{IsSlotReady};
ghost use Rattle.cm_abi_running.specs.SlotsPassed.{PassesOn, SlotLiesWithin, SlotsLieWithin};
ghost use Rattle.cm_abi_running.specs.SlotsPassed.{passing, passing_list, passing_one};
ghost use Rattle.cm_abi_running.specs.SlotsPassed.{passing_text};

use crate::copier::Copier;
use crate::leaves::number_stored;
use crate::putting::put_elements;
use crate::texts::{size_of_part, write_text_at};
use cm_abi_lift::{number_32, wrapped_at};
use cm_abi_load::core_size;
use cm_abi_programs::{Put, SlotPut};
use cm_abi_store::{Next, number_passed, pass_handle, pass_pointer, units_stored};
use cm_layout::Leaf;
use cm_types::CoreValue;

/// There are fewer than 2^63 slots, so a slot and an offset fit 64 bits together.
fn fits_slots(slots: &[u64])
    ensures { length slots.now < 2 ^ 63 }
{
    let _length = slots.len();
}

/// Puts a number into a slot.
fn put_number(slots: &mut [u64], at: usize, number: u64)
    requires inside { at + 1 ≤ length slots.old }
    ensures slots { slots.new ≡ poke (put at number) slots.old }
    ensures slots_stay { length slots.new ≡ length slots.old }
{
    slots[at] = number;
}

/// Passes on the number of a leaf: a bool as 0 or 1, one with a sign in two's complement of 32
/// bits, or of 64 where the leaf itself has as many, and of flags the bits of the labels.
fn put_leaf(given: &[CoreValue], slots: &mut [u64], leaf: Leaf, at: usize)
    requires sized { IsSizedLeaf leaf }
    requires inside { at + 1 ≤ length slots.old }
    ensures slots { slots.new
        ≡ poke (put at (number_on leaf (wrapped (core_size leaf) given.now at))) slots.old }
    ensures slots_stay { length slots.new ≡ length slots.old }
{
    let number = wrapped_at(given, core_size(leaf), at);
    put_number(slots, at, number_passed(leaf, number_stored(leaf, number)));
}

/// Passes on the number of a case, and tells it.
fn put_flat_case(given: &[CoreValue], slots: &mut [u64], at: usize) -> u32
    requires inside { at + 1 ≤ length slots.old }
    ensures case { result ≡ wrapped 4 given.now at }
    ensures slots { slots.new ≡ poke (put at (wrapped 4 given.now at)) slots.old }
    ensures slots_stay { length slots.new ≡ length slots.old }
{
    let number = number_32(given, at);
    put_number(slots, at, u64::from(number));
    number
}

/// Passes on a string: a pointer to its place and how many units it has, and its bytes at its
/// place.
fn put_flat_text(
    from: &Copier<'_>,
    given: &[CoreValue],
    slots: &mut [u64],
    memory: &mut [u8],
    at: usize,
    next: &mut Next,
)
    requires inside { at + 2 ≤ length slots.old }
    requires ready { IsTextReady (length memory.old) (copying_of from.now) (wrapped 4 given.now at)
        (wrapped 4 given.now (at + 1)) next.old.part }
    ensures { PassesOn
        (passing_text (copying_of from.now) given.now at next.old.part next.old.handle)
        next.new slots.old slots.new memory.old memory.new }
{
    fits_slots(slots);
    let pointer = number_32(given, at);
    let tagged = number_32(given, at + 1);
    let encoding = from.target.encoding;
    let part = next.part;
    let size = size_of_part(from, part);
    let units = units_stored(encoding, size);
    let place = pass_pointer(&from.target, slots, at, units, next);
    write_text_at(from, pointer, tagged, encoding, memory, place, size, part);
}

/// Passes on a list of elements that take so many bytes: a pointer to its place and how many
/// elements it has, and these at its place.
fn put_flat_list(
    from: &Copier<'_>,
    given: &[CoreValue],
    slots: &mut [u64],
    memory: &mut [u8],
    puts: &[Put],
    size: u32,
    at: usize,
    next: &mut Next,
)
    requires each { ArePutsWithin size (puts_in puts.now) }
    requires inside { at + 2 ≤ length slots.old }
    requires ready { IsListPutReady (length memory.old) (copying_of from.now)
        (ArePutsReady (length memory.old) (copying_of from.now) (puts_in puts.now))
        (running (copying_of from.now) (puts_in puts.now)) size
        (wrapped 4 given.now at) (wrapped 4 given.now (at + 1)) next.old.part next.old.handle }
    ensures { PassesOn
        (passing_list (copying_of from.now) given.now (puts_in puts.now) size at next.old.part
        next.old.handle)
        next.new slots.old slots.new memory.old memory.new }
{
    fits_slots(slots);
    let pointer = number_32(given, at);
    let count = number_32(given, at + 1);
    let place = pass_pointer(&from.target, slots, at, count as usize, next);
    put_elements(
        from,
        memory,
        puts,
        size,
        count,
        pointer as usize,
        place,
        next,
    );
}

/// Passes on by puts, in order, the value whose core values begin with one, each in the slot of its
/// place; both are counted from 0 (CanonicalABI.md, "Flat Lifting" and "Flat Lowering").
///
/// Each string and list is stored at the place of the next part, and of each handle the next number
/// is put. The next part and the next handle are then those behind the value's; it takes no memory.
#[cycle(putting_flat)]
#[inline(always)]
pub fn put_flat_all(
    from: &Copier<'_>,
    given: &[CoreValue],
    slots: &mut [u64],
    memory: &mut [u8],
    puts: &[SlotPut],
    at: usize,
    next: &mut Next,
)
    requires within { SlotsLieWithin (slots_in puts.now) at (length slots.old) }
    requires ready { AreSlotsReady (length memory.old) (copying_of from.now) given.now
        (slots_in puts.now) at next.old.part next.old.handle }
    ensures { PassesOn
        (passing (copying_of from.now) given.now (slots_in puts.now) at next.old.part
        next.old.handle)
        next.new slots.old slots.new memory.old memory.new }
{
    for put in puts {
        put_flat_one(from, given, slots, memory, put, at, next);
    }
}

/// Passes on by one put of the value whose core values begin with one.
#[cycle(putting_flat)]
fn put_flat_one(
    from: &Copier<'_>,
    given: &[CoreValue],
    slots: &mut [u64],
    memory: &mut [u8],
    put: &SlotPut,
    at: usize,
    next: &mut Next,
)
    requires within { SlotLiesWithin (slot_of put.now) at (length slots.old) }
    requires ready { IsSlotReady (length memory.old) (copying_of from.now) given.now
        (slot_of put.now) at next.old.part next.old.handle }
    ensures { PassesOn
        (passing_one (copying_of from.now) given.now (slot_of put.now) at next.old.part
        next.old.handle)
        next.new slots.old slots.new memory.old memory.new }
{
    fits_slots(slots);
    match put {
        SlotPut::Leaf { at: behind, leaf } => put_leaf(given, slots, *leaf, at + *behind as usize),
        SlotPut::Text { at: behind } => {
            put_flat_text(from, given, slots, memory, at + *behind as usize, next)
        }
        SlotPut::List {
            at: behind,
            size,
            puts,
        } => {
            let start = at + *behind as usize;
            put_flat_list(from, given, slots, memory, puts, *size, start, next)
        }
        SlotPut::Each {
            at: behind,
            distance,
            count,
            puts,
        } => {
            let start = at + *behind as usize;
            put_flat_each(
                from, given, slots, memory, puts, *distance, *count, start, next,
            )
        }
        SlotPut::Cases { at: behind, cases } => {
            let start = at + *behind as usize;
            let index = put_flat_case(given, slots, start);
            match cases.get(index as usize) {
                Some(case) => {
                    put_flat_all(from, given, slots, memory, &case.puts, start + 1, next)
                }
                None => {}
            }
        }
        SlotPut::Handle { at: behind } => {
            pass_handle(&from.target, slots, at + *behind as usize, next)
        }
        SlotPut::Part { at: behind, puts } => {
            put_flat_all(
                from,
                given,
                slots,
                memory,
                puts,
                at + *behind as usize,
                next,
            )
        }
    }
}

/// Passes on by puts so many values from a core value on, so far one behind the other.
#[cycle(putting_flat)]
fn put_flat_each(
    from: &Copier<'_>,
    given: &[CoreValue],
    slots: &mut [u64],
    memory: &mut [u8],
    puts: &[SlotPut],
    distance: u32,
    count: u32,
    at: usize,
    next: &mut Next,
)
    requires each { AreSlotsWithin distance (slots_in puts.now) }
    requires inside { at + count * distance ≤ length slots.old }
    requires ready { AreEachSlotReady
        (AreSlotsReady (length memory.old) (copying_of from.now) given.now (slots_in puts.now))
        (passing (copying_of from.now) given.now (slots_in puts.now)) distance count at
        next.old.part next.old.handle }
    ensures { PassesOn
        (passed_each (passing (copying_of from.now) given.now (slots_in puts.now)) distance count at
        next.old.part next.old.handle)
        next.new slots.old slots.new memory.old memory.new }
{
    if puts.is_empty() {
        return;
    }
    fits_slots(slots);
    let mut start = at;
    for _ in 0..count {
        put_flat_all(from, given, slots, memory, puts, start, next);
        start += distance as usize;
    }
}
