//! Sets that run, by handle.

ghost use Rattle.std.specs.Prelude.{◌≡◌, [], None, length, map};
ghost use Rattle.cm_machine_model.specs.Moves.{CallsWith, ReturnsWith, WritesAt};
ghost use Rattle.cm_machine_model.specs.declared.moves.Move.TheVariants as moves;
ghost use Rattle.huxarte_c.specs.Cores.{value_of};
ghost use Rattle.huxarte_c_calls.specs.Verdicts.{verdict_by};
ghost use Rattle.huxarte_c.specs.Kept.{Begins, IsDoneVerdict, IsNoBegin, IsNoCoreMove};
ghost use Rattle.huxarte_c.specs.Kept.{IsNoListMove, IsNoMove, Moves};
ghost use Rattle.huxarte_c.specs.Looking.{any_handle_seen, handle_seen, instance_seen};
ghost use Rattle.huxarte_c.specs.Looking.{part_seen, state_seen, told_or};
ghost use Rattle.huxarte_c.specs.Making.{IsNewVerdict};
ghost use Rattle.huxarte_c.specs.Refused.{of_set};
ghost use Rattle.huxarte_c.specs.Written.{regions_or, written_seen};

use crate::cores::HuxCore;
use crate::event::HuxEvent;
use crate::hux_set::HuxSet;
use crate::looking::{
    HuxInstance, HuxResource, HuxSetState, handle, handle_at, instance, read, state,
};
use crate::making::make;
use crate::moving::{begin, call, give, grow, stop, write};
use crate::telling::{HuxRegion, HuxWritten, written};
use huxarte_c_calls::{HuxHandle, HuxSpan, HuxVerdict};
use huxarte_c_components::{HuxChoice, HuxPlace};
use std::alloc::Global;

/// Links the components of files, each a part of the bytes, as `hux_link` does, and has the handle
/// keep a set of them that runs. Each instance has so many pages of zeros, of 65,536 bytes: `pages`
/// has one number for each file.
///
/// The answer is `Fine`; else the handle keeps what it kept. `Full` comes first, then what
/// `hux_link` says, then `Misuse`: 5 where there is not one number for each file or one is above
/// 1,024, 6 where there is no memory for the set.
#[unsafe(no_mangle)]
pub extern "C" fn hux_set_new(
    alloc: Global,
    bytes: &[u8],
    files: &[HuxSpan],
    pages: &[u32],
    set: &mut HuxSet,
) -> HuxVerdict
    ensures { IsNewVerdict [] [] bytes.now files.now pages.now
        set.old.kept set.new.kept result }
{
    make(alloc, bytes, files, &[], &[], pages, set)
}

/// Makes a set as `hux_set_new` does, of components that are linked as `hux_link_by` links them.
///
/// The answer is that of `hux_set_new`, but that what `hux_link_by` says stands for what `hux_link`
/// says: so `Choice` comes behind the faults of files, and before those of a link.
#[unsafe(no_mangle)]
pub extern "C" fn hux_set_new_by(
    alloc: Global,
    bytes: &[u8],
    files: &[HuxSpan],
    places: &[HuxPlace],
    choices: &[HuxChoice],
    pages: &[u32],
    set: &mut HuxSet,
) -> HuxVerdict
    ensures { IsNewVerdict places.now choices.now bytes.now files.now pages.now
        set.old.kept set.new.kept result }
{
    make(alloc, bytes, files, places, choices, pages, set)
}

/// Frees the set, where there is one: the handle keeps none from here on.
#[unsafe(no_mangle)]
pub extern "C" fn hux_set_free(alloc: Global, set: &mut HuxSet)
    ensures { set.new.kept ≡ None }
{
    set.free(alloc)
}

/// Begins a root call of an instance, from 0, which makes the next move.
///
/// The answer is `Fine`, and `event` has the event; else handle and event stay as they were:
/// `Empty` where no set is kept, `Misuse` where a call is on the stack (2), else where the instance
/// is closed (3), else where there is none (4). The same holds of each move below, whose `Misuse`
/// is that no call is on the stack (1).
#[unsafe(no_mangle)]
pub extern "C" fn hux_set_begin(
    alloc: Global,
    set: &mut HuxSet,
    instance: u32,
    event: &mut HuxEvent,
) -> HuxVerdict
    ensures { IsDoneVerdict (Begins set.old.kept instance) (IsNoBegin set.old.kept instance)
        set.old.kept set.new.kept event.old event.new result }
{
    begin(alloc, set, instance, event)
}

/// Writes bytes into the memory of the instance that acts, the first one at the address `at`.
/// `Memory` comes where there is none for a copy of them.
#[unsafe(no_mangle)]
pub extern "C" fn hux_set_write(
    alloc: Global,
    set: &mut HuxSet,
    at: u32,
    bytes: &[u8],
    event: &mut HuxEvent,
) -> HuxVerdict
    ensures { IsDoneVerdict (Moves (WritesAt at bytes.now) set.old.kept)
        (IsNoListMove set.old.kept)
        set.old.kept set.new.kept event.old event.new result }
{
    write(alloc, set, at, bytes, event)
}

/// Asks for so many more pages at the end of the memory of the instance that acts.
#[unsafe(no_mangle)]
pub extern "C" fn hux_set_grow(
    alloc: Global,
    set: &mut HuxSet,
    pages: u32,
    event: &mut HuxEvent,
) -> HuxVerdict
    ensures { IsDoneVerdict (Moves (λ m. m ≡ moves.Grow pages) set.old.kept)
        (IsNoMove set.old.kept)
        set.old.kept set.new.kept event.old event.new result }
{
    grow(alloc, set, pages, event)
}

/// Calls the core function of the acting instance's component that has this index, from 0.
///
/// `NoKind` comes where a core value has no kind, else `Memory` where there is none for a copy of
/// them; these come before `Empty`. No core values take no memory.
#[unsafe(no_mangle)]
pub extern "C" fn hux_set_call(
    alloc: Global,
    set: &mut HuxSet,
    func: u32,
    args: &[HuxCore],
    event: &mut HuxEvent,
) -> HuxVerdict
    ensures { IsDoneVerdict (Moves (CallsWith func (map value_of args.now)) set.old.kept)
        (IsNoCoreMove args.now set.old.kept)
        set.old.kept set.new.kept event.old event.new result }
{
    call(alloc, set, func, args, event)
}

/// Returns from the function that the instance is in that acts. `NoKind` and `Memory` come as in
/// `hux_set_call`; and `Memory` where there is none for what `hux_set_written` is to tell.
#[unsafe(no_mangle)]
pub extern "C" fn hux_set_return(
    alloc: Global,
    set: &mut HuxSet,
    values: &[HuxCore],
    event: &mut HuxEvent,
) -> HuxVerdict
    ensures { IsDoneVerdict (Moves (ReturnsWith (map value_of values.now)) set.old.kept)
        (IsNoCoreMove values.now set.old.kept)
        set.old.kept set.new.kept event.old event.new result }
{
    give(alloc, set, values, event)
}

/// Stops the instance that acts: that is a trap.
#[unsafe(no_mangle)]
pub extern "C" fn hux_set_unreachable(
    alloc: Global,
    set: &mut HuxSet,
    event: &mut HuxEvent,
) -> HuxVerdict
    ensures { IsDoneVerdict (Moves (λ m. m ≡ moves.Unreachable) set.old.kept)
        (IsNoMove set.old.kept)
        set.old.kept set.new.kept event.old event.new result }
{
    stop(alloc, set, event)
}

/// Tells what adapters wrote before the latest event, which a host with memories of its own copies
/// by `hux_set_read`: regions of one instance's memory, in the order in which room was made. Beside
/// them a move changes the memory of the instance that moved, by its own `write` or `grow`, and no
/// other (CanonicalABI.md, "Storing").
///
/// The answer is `Fine`, and `regions` has as many of them as there is room for; `seen` says how
/// many there are, 0 before the first move and behind a `begin`. Else the answer is `Empty`, and
/// both stay. The set stays in any case, also in the calls below.
#[unsafe(no_mangle)]
pub extern "C" fn hux_set_written(
    alloc: Global,
    set: &mut HuxSet,
    seen: &mut HuxWritten,
    regions: &mut [HuxRegion],
) -> HuxVerdict
    ensures verdict { result ≡ verdict_by of_set (written_seen set.old.kept) }
    ensures seen { seen.new ≡ told_or seen.old (written_seen set.old.kept) }
    ensures regions { regions.new ≡ regions_or regions.old set.old.kept }
    ensures kept { set.new.kept ≡ set.old.kept }
{
    written(alloc, set, seen, regions)
}

/// Tells how many instances there are, whose move is next, and how much is kept of the topmost
/// call.
///
/// The answer is `Fine`, and `seen` has it; else `Empty`, and `seen` stays.
#[unsafe(no_mangle)]
pub extern "C" fn hux_set_state(
    alloc: Global,
    set: &mut HuxSet,
    seen: &mut HuxSetState,
) -> HuxVerdict
    ensures verdict { result ≡ verdict_by of_set
        (state_seen set.old.kept) }
    ensures seen { seen.new
        ≡ told_or seen.old (state_seen set.old.kept) }
    ensures kept { set.new.kept ≡ set.old.kept }
{
    state(alloc, set, seen)
}

/// Tells how many bytes the memory of an instance has, and whether a trap has closed it.
///
/// The answer is `Fine`; else `Empty` or `NoInstance`, and `seen` stays.
#[unsafe(no_mangle)]
pub extern "C" fn hux_set_instance(
    alloc: Global,
    set: &mut HuxSet,
    number: u32,
    seen: &mut HuxInstance,
) -> HuxVerdict
    ensures verdict { result ≡ verdict_by of_set
        (instance_seen set.old.kept number) }
    ensures seen { seen.new
        ≡ told_or seen.old (instance_seen set.old.kept number) }
    ensures kept { set.new.kept ≡ set.old.kept }
{
    instance(alloc, set, number, seen)
}

/// Copies bytes of the memory of an instance, from `at` on: as many as there is room for.
///
/// The answer is `Fine`; else `Empty`, `NoInstance`, or `Outside` where the memory has no such
/// bytes, and `into` stays.
#[unsafe(no_mangle)]
pub extern "C" fn hux_set_read(
    alloc: Global,
    set: &mut HuxSet,
    number: u32,
    at: usize,
    into: &mut [u8],
) -> HuxVerdict
    ensures verdict { result ≡ verdict_by of_set
        (part_seen set.old.kept number at (length into.old)) }
    ensures seen { into.new
        ≡ told_or into.old (part_seen set.old.kept number at (length into.old)) }
    ensures kept { set.new.kept ≡ set.old.kept }
{
    read(alloc, set, number, at, into)
}

/// Tells the handle at an index of an instance's table, which is to be of a resource
/// (CanonicalABI.md, "Table State").
///
/// The answer is `Fine`; else `Empty`, `NoInstance`, or `NoHandle`, by the number of the
/// `HandleFault`: 1 where no handle stands there, 2 where it is of another resource; and `seen`
/// stays.
#[unsafe(no_mangle)]
pub extern "C" fn hux_set_handle(
    alloc: Global,
    set: &mut HuxSet,
    number: u32,
    index: u32,
    resource: &HuxResource,
    seen: &mut HuxHandle,
) -> HuxVerdict
    ensures verdict { result ≡ verdict_by of_set
        (handle_seen set.old.kept number index resource.now) }
    ensures seen { seen.new
        ≡ told_or seen.old (handle_seen set.old.kept number index resource.now) }
    ensures kept { set.new.kept ≡ set.old.kept }
{
    handle(alloc, set, number, index, resource, seen)
}

/// Tells the handle at an index of an instance's table, of whatever resource: all handles, where
/// each of the indices that `hux_set_instance` tells of is asked for (CanonicalABI.md, "Table
/// State").
///
/// The answer is `Fine`; else `Empty`, `NoInstance`, or `NoHandle`, with the reason 1, where no
/// handle stands there; and `seen` stays.
#[unsafe(no_mangle)]
pub extern "C" fn hux_set_handle_at(
    alloc: Global,
    set: &mut HuxSet,
    number: u32,
    index: u32,
    seen: &mut HuxHandle,
) -> HuxVerdict
    ensures verdict { result ≡ verdict_by of_set (any_handle_seen set.old.kept number index) }
    ensures seen { seen.new
        ≡ told_or seen.old (any_handle_seen set.old.kept number index) }
    ensures kept { set.new.kept ≡ set.old.kept }
{
    handle_at(alloc, set, number, index, seen)
}
