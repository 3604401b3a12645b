//! The values of a call, lowered for its receiver.

ghost use Rattle.std.specs.Prelude.{◌≡◌, ◌^◌, ◌<◌, ◌≤◌, [], IfErr, IfOk, OnErr, length};
ghost use Rattle.std.specs.Prelude.{replicate, vec_capacity};
ghost use Rattle.cm_types.specs.Types.{Fields};
ghost use Rattle.cm_abi.specs.Lowers.{CanBeLowered, IsFaultOfLowering, IsLowered, asked_for};

use crate::cases::cases_fit;
use crate::passing::Passing;
use crate::slots::put_core_values;
use cm_abi_lower::{give_values, store_call};
use cm_abi_model::laws::{
    places_are_read_alike, what_is_received_is_denoted, what_is_stored_stays,
};
use cm_abi_model::{AbiFault, Receiver};
use cm_abi_requests::laws::{answers_place_parts, what_is_typed_can_be_lowered};
use cm_abi_requests::{check_answers, requests};
use cm_abi_store::Target;
use cm_handles::Table;
use cm_types::CoreValue;
use std::alloc::Global;

/// So many slots with 0 in each.
fn empty_slots(alloc: Global, count: usize) -> Result<Vec<u64>, AbiFault>
    ensures slots { IfOk result (λ v. v.items ≡ replicate count 0) }
    ensures err { IfErr result (λ e. e ≡ AbiFault.EngineMemory) }
{
    match Vec::from_elem(alloc, 0, count) {
        Ok(slots) => Ok(slots),
        Err(_) => Err(AbiFault::EngineMemory),
    }
}

/// Room for so many core values.
fn room_for(alloc: Global, count: usize) -> Result<Vec<CoreValue>, AbiFault>
    ensures none { IfOk result (λ v. v.items ≡ []) }
    ensures space { IfOk result (λ v. count ≤ vec_capacity v) }
    ensures err { IfErr result (λ e. e ≡ AbiFault.EngineMemory) }
{
    let mut values = Vec::new(alloc);
    match values.reserve(count) {
        Ok(()) => Ok(values),
        Err(_) => Err(AbiFault::EngineMemory),
    }
}

/// Lowers the values of a call for its receiver: the core values that pass them, with the answers
/// of its `realloc` to the requests that lowering them makes, of which the pointer to a spilled
/// tuple is the first (CanonicalABI.md, "Lifting and Lowering Values", `lower_flat_values`). The
/// values have their types, and their strings and lists are at most 16,777,216 bytes, strings
/// counted as in their source; where they come in Latin-1 or in UTF-16, each string is spelled in
/// the one that its tag says. The memory is below 2^32 bytes, and there are as many answers as
/// requests.
///
/// Then the receiver has the values: each part at the answer to the last request for it, each
/// handle in its table or, of a resource that it implements and is lent, as the representation.
/// The bytes of the values are written, each at its address, and no other byte; exactly their
/// handles are added to the table.
///
/// Else the answer is a fault, and memory and handles are as they were: the first answer that is
/// `Misaligned` or `PointerBounds`, else `Overlap` where the regions of two parts overlap, else
/// `TableFull` where the table has fewer indices left than it is to get handles. `EngineMemory`
/// comes where there is no memory; all of it is taken before anything is written.
pub fn lower(
    alloc: Global,
    memory: &mut [u8],
    table: &mut Table,
    to: Receiver,
    passing: &Passing<'_>,
    answers: &[u32],
) -> Result<Vec<CoreValue>, AbiFault>
    requires lowerable { (types : Fields) × CanBeLowered passing.now types }
    requires answered { (types : Fields) → CanBeLowered passing.now types
        → length answers.now ≡ length (asked_for passing.now types) }
    requires few { length memory.old < 2 ^ 32 }
    ensures lowered { (types : Fields) → CanBeLowered passing.now types
        → IfOk result (λ slots. IsLowered passing.now types to answers.now memory.old
        table.old.handles memory.new table.new.handles slots.items) }
    ensures err { (types : Fields) → CanBeLowered passing.now types
        → IfErr result (IsFaultOfLowering (length memory.old) passing.now types to
        table.old.handles answers.now) }
    ensures memory_stays { OnErr result (memory.new ≡ memory.old) }
    ensures table_stays { OnErr result (table.new.handles ≡ table.old.handles) }
{
    answers_place_parts();
    what_is_stored_stays();
    places_are_read_alike();
    what_is_received_is_denoted();
    what_is_typed_can_be_lowered();
    cases_fit(passing.values);
    let Passing {
        way,
        layout,
        kinds,
        values,
        encodings,
        tags,
    } = *passing;
    let Ok(requests) = requests(alloc, layout, way, values, encodings, tags) else {
        return Err(AbiFault::EngineMemory);
    };
    let places = check_answers(alloc, &requests, answers, memory.len())?;
    let mut zeros = empty_slots(alloc, kinds.len())?;
    let mut core_values = room_for(alloc, kinds.len())?;
    let numbers = give_values(alloc, table, to, layout, values)?;
    let target = Target {
        encoding: encodings.target,
        places: &places,
        numbers: &numbers,
    };
    let slots: &mut [u64] = &mut zeros;
    store_call(&target, memory, slots, layout, way.flat_limit(), values);
    put_core_values(kinds, slots, &mut core_values);
    Ok(core_values)
}
