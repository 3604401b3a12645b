//! Lists of the numbers of interfaces.

ghost use Rattle.std.specs.Prelude.{◌≡◌, ◌++◌, ℕ, List, IfOk, OnOk, map, not, filter};
ghost use Rattle.std.specs.List.{flat_map};
ghost use Rattle.cm_wit_graph.specs.DepthFirst.{is_among, needs_of};
ghost use Rattle.cm_wit_worlds.specs.Externs.{found};

use indexmap::IndexSet;
use std::alloc::{AllocError, Global};

/// The numbers that are there. Refused only where there is no memory.
#[tactic(auto, using(crate::proofs::ListLaws::part_laws))]
pub fn found(alloc: Global, numbers: &[Option<usize>]) -> Result<Vec<usize>, AllocError>
    ensures { IfOk result (λ v. v.items ≡ found numbers.now) }
{
    let mut out = Vec::new(alloc);
    for number in numbers {
        if let Some(is) = *number {
            out.push(is)?;
        }
    }
    Ok(out)
}

/// The numbers that are there, of each row. Refused only where there is no memory.
#[tactic(auto, using(crate::proofs::ListLaws::map_laws))]
pub fn found_rows(alloc: Global, rows: &[Vec<Option<usize>>]) -> Result<Vec<Vec<usize>>, AllocError>
    ensures { IfOk result (λ v.
        map (λ r. r.items) v.items ≡ map found (map (λ r. r.items) rows.now)) }
{
    let mut out = Vec::new(alloc);
    for row in rows {
        out.push(found(alloc, row)?)?;
    }
    Ok(out)
}

/// A set of numbers. Refused only where there is no memory.
#[tactic(auto, using(crate::proofs::ListLaws::set_laws))]
fn set_of(alloc: Global, numbers: &[usize]) -> Result<IndexSet<usize>, AllocError>
    ensures { IfOk result (λ s. (n : ℕ) → is_among n s.keys ≡ is_among n numbers.now) }
{
    let mut set = IndexSet::new(alloc);
    for number in numbers {
        set.insert_full(*number)?;
    }
    Ok(set)
}

/// Adds those numbers that are not among these.
#[tactic(auto, using(crate::proofs::ListLaws::filter_laws))]
fn add_others(
    out: &mut Vec<usize>,
    numbers: &[usize],
    set: &IndexSet<usize>,
) -> Result<(), AllocError>
    ensures { OnOk result (out.new.items ≡ out.old.items
        ++ filter (λ n. not (is_among n set.now.keys)) numbers.now) }
{
    for number in numbers {
        if !set.contains(number) {
            out.push(*number)?;
        }
    }
    Ok(())
}

/// What a number needs.
fn row_of(needs: &[Vec<usize>], number: usize) -> &[usize]
    ensures { result.now ≡ needs_of needs.now number }
{
    match needs.get(number) {
        Some(row) => row,
        None => &[],
    }
}

/// What each of these needs that is not among them, in order. Refused only where there is no
/// memory.
#[tactic(auto, using(crate::proofs::ListLaws::other_laws))]
pub fn other_needs(
    alloc: Global,
    needs: &[Vec<usize>],
    numbers: &[usize],
) -> Result<Vec<usize>, AllocError>
    ensures { IfOk result (λ v. v.items ≡ flat_map (λ k.
        filter (λ j. not (is_among j numbers.now)) (needs_of needs.now k)) numbers.now) }
{
    let set = set_of(alloc, numbers)?;
    let mut out = Vec::new(alloc);
    for number in numbers {
        add_others(&mut out, row_of(needs, *number), &set)?;
    }
    Ok(out)
}
