//! The puts of a type, listed from those of what it holds.

ghost use Rattle.std.specs.Prelude.{◌≡◌, IfOk, OnOk, length, map};
ghost use Rattle.cm_layout.specs.Layouts.{layout_of};
ghost use Rattle.cm_abi_programs.specs.CodedPuts.{case_of, case_puts_from, put_lists, put_of};
ghost use Rattle.cm_abi_programs.specs.CodedPuts.{puts_in};
ghost use Rattle.cm_abi_programs.specs.Held.{shapes_in};
ghost use Rattle.cm_abi_programs.specs.PlacedFields.{puts_placed};
ghost use Rattle.cm_abi_programs.specs.Puts.{are_unwritten, cases_puts, is_bulk_of, is_bulk_put};
ghost use Rattle.cm_abi_programs.specs.Puts.{is_unwritten, leaf_puts, list_put, no_puts, one_put};
ghost use Rattle.cm_abi_programs.specs.Puts.{puts_of, row_puts, with_moved, with_placed};
ghost use Rattle.cm_abi_programs.specs.Puts.{with_put};
ghost use Rattle.cm_abi_programs.specs.PutSteps.{IsJoined};

use crate::holding::{byte_offsets, case_lists, member_counts, only_list};
use crate::limits::FEW;
use crate::places::{place_behind, row_length};
use crate::puts::{CasePuts, Put};
use cm_layout::{Form, Layout, Leaf};
use std::alloc::{AllocError, Global};
use std::sync::Arc;

/// The run that two puts are together, where the second is a run that begins where the first, a run
/// too, ends.
fn joined(first: &Put, second: &Put) -> Result<Option<Put>, AllocError>
    ensures { IfOk result (IsJoined (put_of first.now) (put_of second.now)) }
{
    match (first, second) {
        (
            Put::Run { at, length },
            Put::Run {
                at: next,
                length: more,
            },
        ) => {
            if place_behind(*at, *length)? != *next {
                return Ok(None);
            }
            let length = place_behind(*length, *more)?;
            Ok(Some(Put::Run { at: *at, length }))
        }
        _ => Ok(None),
    }
}

/// Adds a put behind others; a run that begins where the last of them ends makes it longer.
#[tactic(auto, using(crate::proofs::PutMakingLemmas::joining))]
fn push_put(put: Put, all: &mut Vec<Put>) -> Result<(), AllocError>
    ensures { OnOk result (puts_in all.new.items ≡ with_put (puts_in all.old.items) (put_of put)) }
{
    let Some(last) = all.pop() else {
        all.push(put)?;
        return Ok(());
    };
    match joined(&last, &put)? {
        Some(run) => {
            all.push(run)?;
            Ok(())
        }
        None => {
            all.push(last)?;
            all.push(put)?;
            Ok(())
        }
    }
}

/// Adds puts behind others, each so far behind where it stands.
fn push_moved(puts: &[Put], by: u32, all: &mut Vec<Put>) -> Result<(), AllocError>
    ensures { OnOk result (puts_in all.new.items
        ≡ with_moved by (puts_in all.old.items) (puts_in puts.now)) }
{
    for put in puts {
        let moved = put.moved(by)?;
        push_put(moved, all)?;
    }
    Ok(())
}

/// Adds the puts of a field that begins so far behind: where they are few they are written out,
/// else the list is shared. Nothing below them is walked.
#[tactic(auto, using(crate::proofs::PutMakingLemmas::listed))]
fn push_placed(puts: &Arc<Vec<Put>>, at: u32, all: &mut Vec<Put>) -> Result<(), AllocError>
    ensures { OnOk result (puts_in all.new.items
        ≡ with_placed at (puts_in all.old.items) (puts_in puts.now.value.items)) }
{
    if puts.len() > FEW {
        let puts = puts.clone()?;
        push_put(Put::Part { at, puts }, all)
    } else {
        push_moved(puts, at, all)
    }
}

/// The puts of fields that begin at these places, from those of each.
fn placed_puts(
    alloc: Global,
    offsets: &[u32],
    lists: &[Arc<Vec<Put>>],
) -> Result<Vec<Put>, AllocError>
    requires { length offsets.now ≡ length lists.now }
    ensures { IfOk result (λ cs.
        puts_in cs.items ≡ puts_placed offsets.now (put_lists lists.now) no_puts) }
{
    let mut all = Vec::with_capacity(alloc, member_counts(lists)?)?;
    for (index, offset) in offsets.iter().enumerate() {
        push_placed(&lists[index], *offset, &mut all)?;
    }
    // Puts that became one with those before them took room, which goes back.
    all.shrink_to_fit();
    Ok(all)
}

/// The put of a leaf; flags that have a label for each bit are written as they are.
fn leaf_put(leaf: Leaf) -> Put
    ensures { one_put (put_of result) ≡ leaf_puts leaf }
{
    match leaf {
        Leaf::Bool => Put::Truth { at: 0 },
        Leaf::Signed(length) | Leaf::Unsigned(length) => Put::Run { at: 0, length },
        Leaf::Char => Put::Run { at: 0, length: 4 },
        Leaf::Flags { labels, bytes } if labels as u64 == 8 * u64::from(bytes) => {
            Put::Run {
                at: 0,
                length: bytes,
            }
        }
        Leaf::Flags { labels, bytes } => Put::Flags {
            at: 0,
            bytes,
            labels,
        },
    }
}

/// Whether a put writes so many bytes as they are, from where the value begins.
fn is_bulk_put(distance: u32, put: &Put) -> bool
    ensures { result ≡ is_bulk_put distance (put_of put.now) }
{
    match put {
        Put::Run { at, length } => *at == 0 && *length == distance,
        _ => false,
    }
}

/// Whether what these puts write is so many bytes as they are, and nothing else.
#[tactic(auto, using(crate::proofs::PutMakingLemmas::not_one))]
fn is_bulk_of(distance: u32, puts: &[Put]) -> bool
    ensures { result ≡ is_bulk_of distance (puts_in puts.now) }
{
    match puts {
        [put] => is_bulk_put(distance, put),
        _ => false,
    }
}

/// A list of one put.
fn one_put(alloc: Global, put: Put) -> Result<Vec<Put>, AllocError>
    ensures { IfOk result (λ cs. puts_in cs.items ≡ one_put (put_of put)) }
{
    Ok(vec![in alloc; put]?)
}

/// The put of a list of elements that take so many bytes, from the puts of one.
fn list_puts(alloc: Global, size: u32, puts: Arc<Vec<Put>>) -> Result<Vec<Put>, AllocError>
    ensures { IfOk result (λ cs.
        puts_in cs.items ≡ one_put (list_put 0 size (puts_in puts.value.items))) }
{
    one_put(alloc, Put::List { at: 0, size, puts })
}

/// The puts of so many values in a row, so far one behind the other, from those of one.
fn row_puts(
    alloc: Global,
    distance: u32,
    count: u32,
    puts: Arc<Vec<Put>>,
) -> Result<Vec<Put>, AllocError>
    ensures { IfOk result (λ cs.
        puts_in cs.items ≡ row_puts distance count (puts_in puts.value.items)) }
{
    if is_bulk_of(distance, &puts) {
        let length = row_length(count, distance)?;
        return one_put(alloc, Put::Run { at: 0, length });
    }
    one_put(
        alloc,
        Put::Each {
            at: 0,
            distance,
            count,
            puts,
        },
    )
}

/// Whether nothing is written.
#[tactic(auto, using(crate::proofs::PutMakingLemmas::emptiness))]
fn is_unwritten(puts: &[Put]) -> bool
    ensures { result ≡ is_unwritten (puts_in puts.now) }
{
    puts.is_empty()
}

/// Whether nothing is written of what any case carries.
fn are_unwritten(cases: &[Arc<Vec<Put>>]) -> bool
    ensures { result ≡ are_unwritten (case_puts_from (put_lists cases.now)) }
{
    for puts in cases {
        if !is_unwritten(puts) {
            return false;
        }
    }
    true
}

/// The puts of what each case carries, in order; each list is shared. `AllocError` comes where
/// there is no memory for that.
fn case_puts(alloc: Global, cases: &[Arc<Vec<Put>>]) -> Result<Vec<CasePuts>, AllocError>
    ensures { IfOk result (λ cs. map case_of cs.items ≡ put_lists cases.now) }
{
    let mut all = Vec::with_capacity(alloc, cases.len())?;
    for case in cases {
        let puts = case.clone()?;
        all.push(CasePuts { puts })?;
    }
    Ok(all)
}

/// The puts of cases, with the number of a case in so many bytes and what it carries so far behind
/// that, from those of what each case carries.
fn cases_puts(
    alloc: Global,
    bytes: u32,
    offset: u32,
    cases: Vec<Arc<Vec<Put>>>,
) -> Result<Vec<Put>, AllocError>
    ensures { IfOk result (λ cs.
        puts_in cs.items ≡ cases_puts bytes offset (case_puts_from (put_lists cases.items))) }
{
    if are_unwritten(&cases) {
        return one_put(
            alloc,
            Put::Run {
                at: 0,
                length: bytes,
            },
        );
    }
    let cases = Arc::new(alloc, case_puts(alloc, &cases)?)?;
    one_put(
        alloc,
        Put::Cases {
            at: 0,
            bytes,
            offset,
            cases,
        },
    )
}

/// What has to be written of a value, by the layout of its type, from what has to be of the values
/// that it holds, in order: each list is shared, and nothing below is walked. `AllocError` comes
/// where there is no memory for it, or where a place in a value would take more than 32 bits, which
/// none of a layout does.
pub fn stored_puts(
    alloc: Global,
    layout: &Layout,
    held: &[Arc<Vec<Put>>],
) -> Result<Vec<Put>, AllocError>
    requires { put_lists held.now ≡ map puts_of (shapes_in (layout_of layout.now).shape) }
    ensures { IfOk result (λ cs. puts_in cs.items ≡ puts_of (layout_of layout.now).shape) }
{
    match &layout.form {
        Form::Leaf(leaf) => one_put(alloc, leaf_put(*leaf)),
        Form::String => one_put(alloc, Put::Text { at: 0 }),
        Form::List(element) => list_puts(alloc, element.head.size, only_list(held)?),
        Form::FixedList { element, length } => {
            row_puts(alloc, element.head.size, *length, only_list(held)?)
        }
        Form::Fields(parts) => placed_puts(alloc, &byte_offsets(alloc, parts)?, held),
        Form::Cases {
            discriminant,
            offset,
            payloads,
        } => {
            let cases = case_lists(alloc, payloads, held)?;
            cases_puts(alloc, *discriminant, *offset, cases)
        }
        Form::Enum { discriminant, .. } => one_put(
            alloc,
            Put::Run {
                at: 0,
                length: *discriminant,
            },
        ),
        Form::Handle(_) => one_put(alloc, Put::Handle { at: 0 }),
    }
}
