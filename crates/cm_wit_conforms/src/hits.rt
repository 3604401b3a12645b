//! What was found in a list, seen from the places of the list.

ghost use Rattle.std.specs.Prelude.{◌≡◌, ◌++◌, ℕ, Some, None, IfOk, OnOk, if◌then◌else◌};
ghost use Rattle.std.specs.BTreeMap.{get};
ghost use Rattle.std.specs.List.{filter_map, position_from};
ghost use Rattle.std.specs.Option.{option_or};
ghost use Rattle.std.specs.Ordering.{nat_cmp};
ghost use Rattle.cm_wit_conforms.specs.Hits.{is_place, repeats_from};

use std::alloc::{AllocError, Global};
use std::collections::BTreeMap;

/// Whether what was found is this place.
fn is_place(place: usize, found: Option<usize>) -> bool
    ensures { result ≡ is_place place found }
{
    match found {
        Some(number) => place == number,
        None => false,
    }
}

/// The places at which another place was found, or none. Refused only where there is no memory.
#[tactic(auto, using(crate::proofs::HitLaws::repeat_laws))]
pub(crate) fn repeats(alloc: Global, firsts: &[Option<usize>]) -> Result<Vec<usize>, AllocError>
    ensures { IfOk result (λ v. v.items ≡ repeats_from 0 firsts.now) }
{
    let mut repeats = Vec::new(alloc);
    for (place, first) in firsts.iter().enumerate() {
        if !is_place(place, *first) {
            repeats.push(place)?;
        }
    }
    Ok(repeats)
}

/// Takes note of where a place was found, unless it was found before.
fn note_place(hits: &mut BTreeMap<usize, usize>, place: usize, at: usize) -> Result<(), AllocError>
    ensures { OnOk result ((p : ℕ) → get nat_cmp hits.new p
        ≡ option_or (get nat_cmp hits.old p) (if is_place p (Some place) then Some at else None)) }
{
    if hits.get(&place).is_none() {
        hits.insert(place, at)?;
    }
    Ok(())
}

/// Takes note of where something was found, unless it was found before.
fn note(
    hits: &mut BTreeMap<usize, usize>,
    found: Option<usize>,
    at: usize,
) -> Result<(), AllocError>
    ensures { OnOk result ((p : ℕ) → get nat_cmp hits.new p
        ≡ option_or (get nat_cmp hits.old p) (if is_place p found then Some at else None)) }
{
    match found {
        Some(place) => note_place(hits, place, at),
        None => Ok(()),
    }
}

/// For each place that was found where it was found first, with a search for each that was found.
/// Refused only where there is no memory.
pub(crate) fn first_hits(
    alloc: Global,
    found: &[Option<usize>],
) -> Result<BTreeMap<usize, usize>, AllocError>
    ensures { IfOk result (λ m. (p : ℕ) → get nat_cmp m p
        ≡ position_from (is_place p) 0 found.now) }
{
    let mut hits = BTreeMap::new(alloc);
    for (at, each) in found.iter().enumerate() {
        note(&mut hits, *each, at)?;
    }
    Ok(hits)
}

/// The places that were found. Refused only where there is no memory.
#[tactic(auto, using(crate::proofs::HitLaws::find_laws))]
fn places_found(alloc: Global, found: &[Option<usize>]) -> Result<Vec<usize>, AllocError>
    ensures { IfOk result (λ v. v.items ≡ filter_map (λ f. f) found.now) }
{
    let mut places = Vec::new(alloc);
    for each in found {
        if let Some(place) = *each {
            places.push(place)?;
        }
    }
    Ok(places)
}

/// The places that were found, and behind them others. Refused only where there is no memory.
pub(crate) fn places_with(
    alloc: Global,
    found: &[Option<usize>],
    others: &[usize],
) -> Result<Vec<usize>, AllocError>
    ensures { IfOk result (λ v. v.items ≡ filter_map (λ f. f) found.now ++ others.now) }
{
    let mut places = places_found(alloc, found)?;
    places.extend_from_slice(others)?;
    Ok(places)
}
