//! The values of a call, copied and passed on.

ghost use Rattle.std.specs.Prelude.{◌≡◌, IfSome, length};
ghost use Rattle.cm_types.specs.Types.{Fields};
ghost use Rattle.cm_types.specs.Values.{Val};
ghost use Rattle.cm_layout.specs.Layouts.{layout_of};
ghost use Rattle.cm_abi_model.specs.Receives.{call_bytes, call_numbers};
ghost use Rattle.cm_abi_model.specs.Stores.{poke};
ghost use Rattle.cm_abi_model.specs.Views.{flat_limit};
ghost use Rattle.cm_abi_model.specs.Ways.{way_of};
ghost use Rattle.cm_abi_programs.specs.CallPuts.{call_puts_in, call_puts_of};
ghost use Rattle.cm_abi_copy.specs.PassingOn.{CanBePassedOn};
ghost use Rattle.cm_abi_store.specs.Storing.{given_of};

use crate::call_laws::what_is_denoted_is_copied;
use crate::copies::copy_value;
use crate::place::are_bytes;
use crate::put_laws::what_is_denoted_can_be_put;
use crate::slots::Slots;
use cm_abi_lift::{Passed, number_32};
use cm_abi_lower::pass_value;
use cm_abi_programs::CallPuts;
use cm_abi_running::{Copier, put_all, put_flat_all};
use cm_abi_store::Next;

/// Copies the values that core values pass, by the layout of the tuple of their types, from the
/// memory of their giver into that of a receiver, and puts the numbers that pass them on into
/// slots, with no tree made of them (CanonicalABI.md, "Lifting and Lowering Values"). Where they
/// are behind a pointer the tuple itself is copied, to the place of the first part, which is the
/// one number then. Each byte of the values is written at its address, and each number into its
/// slot, of which there is one for each core value, from 0; no other byte and no other slot is
/// changed.
///
/// The values are those that the core values denote in the giver's memory, whichever handles its
/// table has now; the records tell their parts, each of which has a place in the memory, and each
/// of their handles has a number. It takes no memory.
pub fn copy_call(from: &Copier<'_>, passed: &Passed<'_>, memory: &mut [u8], slots: &mut [u64])
    requires { (types : Fields) × (v : Val)
        × CanBePassedOn (length memory.old) (length slots.old) from.now passed.now types v }
    ensures stored { (types : Fields) (v : Val)
        → CanBePassedOn (length memory.old) (length slots.old) from.now passed.now types v
        → memory.new
        ≡ poke (call_bytes (given_of from.now.target) (way_of passed.now.way) types v) memory.old }
    ensures passed { (types : Fields) (v : Val)
        → CanBePassedOn (length memory.old) (length slots.old) from.now passed.now types v
        → slots.new
        ≡ poke (call_numbers (given_of from.now.target) (way_of passed.now.way) types v)
        slots.old }
    ensures stays { length memory.new ≡ length memory.old }
    ensures slots_stay { length slots.new ≡ length slots.old }
{
    what_is_denoted_is_copied();
    let mut next = Next { part: 0, handle: 0 };
    if passed.layout.head.width as usize > passed.way.flat_limit() {
        let place = from.target.places[0];
        next.part = 1;
        let pointer = number_32(passed.slots, 0) as usize;
        copy_value(
            from,
            memory,
            passed.layout,
            pointer,
            place as usize,
            &mut next,
        );
        slots[0] = u64::from(place);
    } else {
        let source = Slots {
            from,
            given: passed.slots,
            at: 0,
        };
        pass_value(
            &from.target,
            slots,
            memory,
            passed.layout,
            source,
            0,
            &mut next,
        );
    }
}

/// Copies the values that core values pass as [`copy_call`] does, by the puts of what passes their
/// types (`cm_abi_programs`), which are listed once: the layout is not walked.
#[inline(always)]
pub fn put_call(
    from: &Copier<'_>,
    passed: &Passed<'_>,
    puts: &CallPuts,
    memory: &mut [u8],
    slots: &mut [u64],
)
    requires denoted { (types : Fields) × (v : Val)
        × CanBePassedOn (length memory.old) (length slots.old) from.now passed.now types v }
    requires puts { call_puts_in puts.now ≡ call_puts_of
        (flat_limit (way_of passed.now.way)) (layout_of passed.now.layout.now) }
    ensures stored { (types : Fields) (v : Val)
        → CanBePassedOn (length memory.old) (length slots.old) from.now passed.now types v
        → memory.new
        ≡ poke (call_bytes (given_of from.now.target) (way_of passed.now.way) types v) memory.old }
    ensures passed { (types : Fields) (v : Val)
        → CanBePassedOn (length memory.old) (length slots.old) from.now passed.now types v
        → slots.new
        ≡ poke (call_numbers (given_of from.now.target) (way_of passed.now.way) types v)
        slots.old }
    ensures stays { length memory.new ≡ length memory.old }
    ensures slots_stay { length slots.new ≡ length slots.old }
{
    what_is_denoted_can_be_put();
    are_bytes(from.memory);
    let mut next = Next { part: 0, handle: 0 };
    match puts {
        CallPuts::Stored(puts) => {
            let place = from.target.places[0];
            next.part = 1;
            let pointer = number_32(passed.slots, 0) as usize;
            put_all(from, memory, puts, pointer, place as usize, &mut next);
            slots[0] = u64::from(place);
        }
        CallPuts::Flat(puts) => {
            put_flat_all(from, passed.slots, slots, memory, puts, 0, &mut next);
        }
    }
}

/// Copies the values that core values pass by the puts of what passes their types, where there are
/// some, else by their layout.
#[inline(always)]
pub(crate) fn copy_passed(
    from: &Copier<'_>,
    passed: &Passed<'_>,
    puts: Option<&CallPuts>,
    memory: &mut [u8],
    slots: &mut [u64],
)
    requires denoted { (types : Fields) × (v : Val)
        × CanBePassedOn (length memory.old) (length slots.old) from.now passed.now types v }
    requires puts { IfSome puts (λ cs. call_puts_in cs.now ≡ call_puts_of
        (flat_limit (way_of passed.now.way)) (layout_of passed.now.layout.now)) }
    ensures stored { (types : Fields) (v : Val)
        → CanBePassedOn (length memory.old) (length slots.old) from.now passed.now types v
        → memory.new
        ≡ poke (call_bytes (given_of from.now.target) (way_of passed.now.way) types v) memory.old }
    ensures passed { (types : Fields) (v : Val)
        → CanBePassedOn (length memory.old) (length slots.old) from.now passed.now types v
        → slots.new
        ≡ poke (call_numbers (given_of from.now.target) (way_of passed.now.way) types v)
        slots.old }
    ensures stays { length memory.new ≡ length memory.old }
    ensures slots_stay { length slots.new ≡ length slots.old }
{
    match puts {
        Some(puts) => put_call(from, passed, puts, memory, slots),
        None => copy_call(from, passed, memory, slots),
    }
}
