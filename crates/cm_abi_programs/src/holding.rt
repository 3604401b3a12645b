//! Where what a type holds begins, how many members lists of it make, and what its cases carry.

ghost use Rattle.std.specs.Prelude.{◌≡◌, ◌+◌, ◌^◌, ◌<◌, [], ◌∷◌, IfOk, if◌then◌else◌, is_some};
ghost use Rattle.std.specs.Prelude.{length, map};
ghost use Rattle.cm_layout.specs.Layouts.{part_of, payload_of};
ghost use Rattle.cm_layout.specs.Shapes.{parts_from};
ghost use Rattle.cm_abi_programs.specs.Held.{items_at, items_of, part_offsets};
ghost use Rattle.cm_abi_programs.specs.Held.{slot_offsets, spread};
ghost use Rattle.cm_abi_programs.specs.PlacedFields.{member_count, member_counts};

use crate::limits::FEW;
use crate::places::place_behind;
use cm_layout::{Part, Payload};
use std::alloc::{AllocError, Global};
use std::sync::Arc;

/// Where fields begin, in bytes from where the whole does. `AllocError` comes where there is no
/// memory for that.
pub(crate) fn byte_offsets(alloc: Global, parts: &[Part]) -> Result<Vec<u32>, AllocError>
    ensures { IfOk result (λ os. os.items ≡ part_offsets (parts_from (map part_of parts.now))) }
{
    let mut offsets = Vec::with_capacity(alloc, parts.len())?;
    for part in parts {
        offsets.push(part.offset)?;
    }
    Ok(offsets)
}

/// Where fields begin, in core values from the first of the whole. `AllocError` comes where there
/// is no memory for that, or where a place would take more than 32 bits.
pub(crate) fn slot_offsets(alloc: Global, parts: &[Part]) -> Result<Vec<u32>, AllocError>
    ensures { IfOk result (λ os. os.items ≡ slot_offsets (parts_from (map part_of parts.now)) 0) }
{
    let mut offsets = Vec::with_capacity(alloc, parts.len())?;
    let mut at = 0;
    for part in parts {
        offsets.push(at)?;
        at = place_behind(at, part.layout.head.width)?;
    }
    Ok(offsets)
}

/// How many members the list of a whole has of a list of so many of a field: one where that is
/// shared, else its own.
fn member_count(length: usize) -> usize
    ensures { result ≡ member_count length }
{
    if length > FEW { 1 } else { length }
}

/// How many members the list of a whole has of those of its fields. `AllocError` comes where they
/// are too many to be counted.
pub(crate) fn member_counts<T: Drop>(lists: &[Arc<Vec<T>>]) -> Result<usize, AllocError>
    ensures { IfOk result (λ n. n ≡ member_counts (items_of lists.now)) }
{
    let mut count: usize = 0;
    for list in lists {
        count = count
            .checked_add(member_count(list.len()))
            .ok_or(AllocError)?;
    }
    Ok(count)
}

/// The one list that is held, shared. `AllocError` comes where it is shared too often to be
/// counted.
pub(crate) fn only_list<T: Drop>(lists: &[Arc<Vec<T>>]) -> Result<Arc<Vec<T>>, AllocError>
    requires { length lists.now ≡ 1 }
    ensures { IfOk result (λ c. items_of lists.now ≡ c.value.items ∷ []) }
{
    lists[0].clone()
}

/// Whether a case carries anything.
fn is_carried(payload: &Payload) -> bool
    ensures { result ≡ is_some (payload_of payload.now) }
{
    matches!(payload, Payload::Carried(_))
}

/// What a case has, shared: the list of this number where it carries anything, else this empty one.
fn case_list<T: Drop>(
    is_carried: bool,
    lists: &[Arc<Vec<T>>],
    number: usize,
    nothing: &Arc<Vec<T>>,
) -> Result<Arc<Vec<T>>, AllocError>
    requires { nothing.now.value.items ≡ [] }
    ensures { IfOk result (λ c. c.value.items
        ≡ (if is_carried then items_at (items_of lists.now) number else [])) }
{
    match lists.get(number) {
        Some(list) if is_carried => list.clone(),
        _ => nothing.clone(),
    }
}

/// The number of the list that comes next, behind the one of a case if that carries anything.
fn next_list(next: usize, is_carried: bool) -> usize
    requires { next + 1 < 2 ^ 64 }
    ensures { result ≡ (if is_carried then next + 1 else next) }
{
    if is_carried { next + 1 } else { next }
}

/// For each case the list of what it carries, the next one of these, and an empty one where it
/// carries nothing; all of these share one. `AllocError` comes where there is no memory for them.
pub(crate) fn case_lists<T: Drop>(
    alloc: Global,
    payloads: &[Payload],
    lists: &[Arc<Vec<T>>],
) -> Result<Vec<Arc<Vec<T>>>, AllocError>
    ensures { IfOk result (λ cs.
        items_of cs.items ≡ spread (map payload_of payloads.now) (items_of lists.now)) }
{
    let nothing = Arc::new(alloc, Vec::new(alloc))?;
    let mut all = Vec::with_capacity(alloc, payloads.len())?;
    let mut next = 0;
    for payload in payloads {
        let is_carried = is_carried(payload);
        all.push(case_list(is_carried, lists, next, &nothing)?)?;
        next = next_list(next, is_carried);
    }
    Ok(all)
}
