//! A walk over what nodes need.

ghost use Rattle.std.specs.Prelude.{◌≡◌, ◌<◌, ◌^◌, ◌∷◌, [], ◌++◌, List, ℕ, IfOk, IsTrue};
ghost use Rattle.std.specs.Prelude.{OnSome, slice_get};
ghost use Rattle.cm_wit_graph.specs.DepthFirst.{Orders, needs_of};
ghost use Rattle.cm_wit_graph.specs.Paths.{Leaves};

use indexmap::IndexSet;
use std::alloc::{AllocError, Global};

/// The need of a node at this place among its needs, if there is one.
fn need_at(rows: &[Vec<usize>], node: usize, place: usize) -> Option<usize>
    ensures need { result ≡ slice_get (needs_of rows.now node) place }
    ensures place { OnSome result (place < 2 ^ 63) }
{
    match rows.get(node) {
        Some(row) => row.get(place).copied(),
        None => None,
    }
}

/// Places a node, or begins one that it needs. Answers whether it could: a node that is placed
/// already cannot be placed.
#[tactic(auto, using(crate::proofs::WalkLaws::walk_laws))]
fn step(
    rows: &[Vec<usize>],
    node: usize,
    place: usize,
    path: &mut Vec<(usize, usize)>,
    order: &mut IndexSet<usize>,
) -> Result<bool, AllocError>
    ensures { IfOk result (λ b. IsTrue b → (start nodes : List ℕ) →
        Leaves (needs_of rows.now) (path.old.items ++ (node, place) ∷ [])
        (Orders (needs_of rows.now) start nodes) order.old.keys
        → Leaves (needs_of rows.now) path.new.items
        (Orders (needs_of rows.now) start nodes) order.new.keys) }
{
    let Some(need) = need_at(rows, node, place) else {
        let (_, added) = order.insert_full(node)?;
        return Ok(added);
    };
    path.push((node, place + 1))?;
    if !order.contains(&need) {
        path.push((need, 0))?;
    }
    Ok(true)
}

/// Places a node behind those that are placed, after all nodes that it needs, by way of others or
/// not, each once and after its own needs. Answers whether it could, as it can where none of them
/// needs itself. Each need is looked at once. Refused only where there is no memory.
#[tactic(auto, using(crate::proofs::WalkLaws::place_laws))]
pub fn place(
    alloc: Global,
    rows: &[Vec<usize>],
    node: usize,
    order: &mut IndexSet<usize>,
) -> Result<bool, AllocError>
    ensures { IfOk result (λ b. IsTrue b →
        Orders (needs_of rows.now) order.old.keys (node ∷ []) order.new.keys) }
{
    if order.contains(&node) {
        return Ok(true);
    }
    let mut path = Vec::new(alloc);
    path.push((node, 0))?;
    for _step in 0..u64::MAX {
        let Some((last, place)) = path.pop() else {
            return Ok(true);
        };
        if path.len() > rows.len() || !step(rows, last, place, &mut path, order)? {
            return Ok(false);
        }
    }
    Ok(false)
}

/// Places nodes in turn, as `place` places each. Refused only where there is no memory.
#[tactic(auto, using(crate::proofs::WalkLaws::all_laws))]
pub fn place_all(
    alloc: Global,
    rows: &[Vec<usize>],
    nodes: &[usize],
    order: &mut IndexSet<usize>,
) -> Result<bool, AllocError>
    ensures { IfOk result (λ b. IsTrue b →
        Orders (needs_of rows.now) order.old.keys nodes.now order.new.keys) }
{
    for node in nodes {
        if !place(alloc, rows, *node, order)? {
            return Ok(false);
        }
    }
    Ok(true)
}
