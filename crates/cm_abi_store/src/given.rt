//! What is given to a value's handles and parts, in memory and in core values: the number of a
//! handle, and the place of a string or a list (CanonicalABI.md, "Storing" and "Flat Lowering").

ghost use Rattle.std.specs.Prelude.{◌≡◌, ◌+◌, ◌<◌, ◌≤◌, ◌++◌, length, slice_index};
ghost use Rattle.cm_layout.specs.Layouts.{part_of};
ghost use Rattle.cm_types.specs.Values.{Val};
ghost use Rattle.cm_abi_model.specs.Receives.{put};
ghost use Rattle.cm_abi_model.specs.Stores.{bytes_of, place_of, placed, pointer_bytes, poke};
ghost use Rattle.cm_abi_store.specs.FlatLowering.{flat_number};
ghost use Rattle.cm_abi_store.specs.Storing.{given_of, number_in};

use crate::bytes::{write_number, write_pointer};
use crate::target::{Next, Target};
use cm_layout::{Leaf, Part};

/// Stores the next handle: its number, in 4 bytes at an address. It is counted then.
pub fn store_handle(to: &Target<'_>, memory: &mut [u8], at: usize, next: &mut Next)
    requires inside { at + 4 ≤ length memory.old }
    requires given { next.old.handle < length to.now.numbers.now }
    ensures stored { memory.new
        ≡ poke (placed at (bytes_of 4 (slice_index to.now.numbers.now next.old.handle)))
        memory.old }
    ensures stays { length memory.new ≡ length memory.old }
    ensures part { next.new.part ≡ next.old.part }
    ensures handle { next.new.handle ≡ next.old.handle + 1 }
{
    let number = to.numbers[next.handle];
    next.handle += 1;
    write_number(memory, at, 4, u64::from(number));
}

/// Passes the next handle: its number, in a slot. It is counted then.
pub fn pass_handle(to: &Target<'_>, slots: &mut [u64], at: usize, next: &mut Next)
    requires inside { at + 1 ≤ length slots.old }
    requires given { next.old.handle < length to.now.numbers.now }
    ensures slots { slots.new
        ≡ poke (put at (slice_index to.now.numbers.now next.old.handle)) slots.old }
    ensures slots_stay { length slots.new ≡ length slots.old }
    ensures part { next.new.part ≡ next.old.part }
    ensures handle { next.new.handle ≡ next.old.handle + 1 }
{
    slots[at] = u64::from(to.numbers[next.handle]);
    next.handle += 1;
}

/// Stores a pointer to the next part and its length, in units or elements, in 8 bytes at an
/// address, and tells the place of that part, in bytes from 0. It is counted then.
pub fn store_pointer(
    to: &Target<'_>,
    memory: &mut [u8],
    at: usize,
    count: usize,
    next: &mut Next,
) -> usize
    requires inside { at + 8 ≤ length memory.old }
    requires given { next.old.part < length to.now.places.now }
    ensures place { result ≡ place_of (given_of to.now) next.old.part }
    ensures stored { memory.new
        ≡ poke (pointer_bytes at (place_of (given_of to.now) next.old.part) count) memory.old }
    ensures stays { length memory.new ≡ length memory.old }
    ensures part { next.new.part ≡ next.old.part + 1 }
    ensures handle { next.new.handle ≡ next.old.handle }
{
    let place = to.places[next.part];
    next.part += 1;
    write_pointer(memory, at, place, count);
    place as usize
}

/// Passes a pointer to the next part and its length, in units or elements, in two slots, and tells
/// the place of that part, in bytes from 0. It is counted then.
pub fn pass_pointer(
    to: &Target<'_>,
    slots: &mut [u64],
    at: usize,
    count: usize,
    next: &mut Next,
) -> usize
    requires inside { at + 2 ≤ length slots.old }
    requires given { next.old.part < length to.now.places.now }
    ensures place { result ≡ place_of (given_of to.now) next.old.part }
    ensures slots { slots.new
        ≡ poke (put at (place_of (given_of to.now) next.old.part) ++ put (at + 1) count)
        slots.old }
    ensures slots_stay { length slots.new ≡ length slots.old }
    ensures part { next.new.part ≡ next.old.part + 1 }
    ensures handle { next.new.handle ≡ next.old.handle }
{
    let place = to.places[next.part];
    next.part += 1;
    slots[at] = u64::from(place);
    slots[at + 1] = count as u64;
    place as usize
}

/// The number that passes a leaf, from the one that it is stored as: one with a sign in two's
/// complement of 32 bits, or of 64 where the leaf itself has as many.
pub fn number_passed(leaf: Leaf, number: u64) -> u64
    ensures { (v : Val) → number ≡ number_in v → result ≡ flat_number leaf v }
{
    match leaf {
        Leaf::Signed(8) => number,
        Leaf::Signed(_) => number % 0x1_0000_0000,
        _ => number,
    }
}

/// How many core values pass a field.
pub fn field_width(part: &Part) -> usize
    ensures { result ≡ (part_of part.now).1.head.width }
{
    part.layout.head.width as usize
}
