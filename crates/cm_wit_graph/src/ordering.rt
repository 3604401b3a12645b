//! Orders of nodes.

ghost use Rattle.std.specs.Prelude.{◌≡◌, ◌<◌, ◌↔◌, [], ℕ, IfOk, IsTrue, length, vec_len};
ghost use Rattle.std.specs.Prelude.{slice_index_or};
ghost use Rattle.std.specs.Option.{option_map};
ghost use Rattle.std.specs.List.{All};
ghost use Rattle.cm_wit_graph.specs.Orders.{IsOrderOf, IsWithin, needs_of};
ghost use Rattle.cm_wit_graph.specs.Walks.{IsMarked, IsThrough, entries_of, standing};

use crate::walk::Walk;
use std::alloc::{AllocError, Global};

/// Each node, with its first need to be looked at.
fn all_nodes(alloc: Global, count: usize) -> Result<Vec<(usize, usize)>, AllocError>
    ensures len { IfOk result (λ v. vec_len v ≡ count) }
    ensures nodes { IfOk result (λ v. (k : ℕ) → k < count
        → slice_index_or v.items k (0, 0) ≡ (k, 0)) }
{
    let mut nodes = Vec::new(alloc);
    for node in 0..count {
        nodes.push((node, 0))?;
    }
    Ok(nodes)
}

/// Empty lists.
fn empty_lists(alloc: Global, count: usize) -> Result<Vec<Vec<(usize, usize)>>, AllocError>
    ensures len { IfOk result (λ v. vec_len v ≡ count) }
    ensures empty { IfOk result (λ v. (k : ℕ) → entries_of v.items k ≡ []) }
{
    let mut lists = Vec::new(alloc);
    for _list in 0..count {
        lists.push(Vec::new(alloc))?;
    }
    Ok(lists)
}

fn all_marked(marks: &[bool]) -> bool
    ensures { IsTrue result ↔ ((k : ℕ) → k < length marks.now → IsMarked marks.now k) }
{
    for mark in marks {
        if !*mark {
            return false;
        }
    }
    true
}

/// A walk that has settled each node.
fn settled<'a>(alloc: Global, rows: &'a [Vec<usize>]) -> Result<Walk<'a>, AllocError>
    requires { IsWithin (length rows.now) (needs_of rows.now) }
    ensures through { IfOk result (λ w. IsThrough (standing w) (length w.order.items)) }
    ensures count { IfOk result (λ w. (standing w).count ≡ length rows.now) }
    ensures needs { IfOk result (λ w. (standing w).needs ≡ needs_of rows.now) }
{
    let mut walk = Walk {
        rows,
        placed: Vec::from_elem(alloc, false, rows.len())?,
        waiting: empty_lists(alloc, rows.len())?,
        order: Vec::new(alloc),
    };
    walk.settle_all(&all_nodes(alloc, rows.len())?)?;
    walk.go_through(alloc)?;
    Ok(walk)
}

/// The nodes, which are the numbers of the rows, in an order in which each stands behind those that
/// it needs, which are those of its row. There is none where a node needs itself, by way of others
/// or not. It takes time linear in the rows. Refused only where there is no memory.
pub fn order_of(alloc: Global, rows: &[Vec<usize>]) -> Result<Option<Vec<usize>>, AllocError>
    requires { IsWithin (length rows.now) (needs_of rows.now) }
    ensures { IfOk result (λ order.
        IsOrderOf (length rows.now) (needs_of rows.now) (option_map (λ v. v.items) order)) }
{
    let walk = settled(alloc, rows)?;
    if all_marked(&walk.placed) {
        return Ok(Some(walk.order));
    }
    Ok(None)
}
