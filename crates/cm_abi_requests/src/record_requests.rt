//! The requests for one part.

ghost use Rattle.std.specs.Prelude.{◌≡◌, ◌∷◌, [], Some, None, slice_get};
ghost use Rattle.cm_abi_model.specs.Requests.{chain};
ghost use Rattle.cm_abi_model.specs.RecordRequests.{IsAskable, first_request, further_request};
ghost use Rattle.cm_abi_model.specs.RecordRequests.{kind_sizes, record_requests};
ghost use Rattle.cm_abi_requests.specs.Sizes.{sizes_seen};

use crate::sizes::{Sizes, text_sizes};
use cm_abi_model::{PartKind, PartRecord, Request, StringEncoding};

/// The sizes that are asked for the part of a record, where its strings are read and stored in
/// these encodings. The record is of a value whose strings and lists are at most 16,777,216 bytes.
pub(crate) fn sizes_for(part: PartRecord, source: StringEncoding, target: StringEncoding) -> Sizes
    requires askable { IsAskable part }
    ensures { sizes_seen result
        ≡ kind_sizes source target part.kind part.count part.size }
{
    let exact = part.size as u32;
    match part.kind {
        PartKind::Text { is_tagged } => { text_sizes(source, is_tagged, target, part.count, exact) }
        PartKind::Elements => Sizes::One(exact),
    }
}

/// A request that hands nothing back.
fn first(align: u32, size: u32) -> Request
    ensures { result ≡ first_request align size }
{
    Request {
        chained: false,
        old_size: 0,
        align,
        size,
    }
}

/// A request in the place of the one before it.
fn again(align: u32, old_size: u32, size: u32) -> Request
    ensures { result ≡ further_request align old_size size }
{
    Request {
        chained: true,
        old_size,
        align,
        size,
    }
}

/// The request of this number for one size.
fn of_one(align: u32, size: u32, stage: usize) -> Option<Request>
    ensures { result ≡ slice_get (chain align (size ∷ [])) stage }
{
    match stage {
        0 => Some(first(align, size)),
        _ => None,
    }
}

/// The request of this number for two sizes.
fn of_two(align: u32, old: u32, size: u32, stage: usize) -> Option<Request>
    ensures { result ≡ slice_get (chain align (old ∷ size ∷ [])) stage }
{
    match stage {
        0 => Some(first(align, old)),
        1 => Some(again(align, old, size)),
        _ => None,
    }
}

/// The request of this number for three sizes.
fn of_three(align: u32, least: u32, most: u32, exact: u32, stage: usize) -> Option<Request>
    ensures { result ≡ slice_get (chain align (least ∷ most ∷ exact ∷ [])) stage }
{
    match stage {
        0 => Some(first(align, least)),
        1 => Some(again(align, least, most)),
        2 => Some(again(align, most, exact)),
        _ => None,
    }
}

/// The request of this number, from 0, of those for these sizes; `None` behind the last.
pub(crate) fn request_at(sizes: Sizes, align: u32, stage: usize) -> Option<Request>
    ensures { result ≡ slice_get (chain align (sizes_seen sizes)) stage }
{
    match sizes {
        Sizes::One(size) => of_one(align, size, stage),
        Sizes::Two(old, size) => of_two(align, old, size, stage),
        Sizes::Three(least, most, exact) => of_three(align, least, most, exact, stage),
    }
}
