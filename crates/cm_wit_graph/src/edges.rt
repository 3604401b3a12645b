//! Which interfaces use which.

ghost use Rattle.std.specs.Prelude.{◌≡◌, ◌++◌, ◌<◌, ◌↔◌, ℕ, Some, None, IfOk, IsTrue, OnOk, map};
ghost use Rattle.std.specs.Prelude.{is_none, vec_len};
ghost use Rattle.std.specs.List.{Contains, filter_map, list_any};
ghost use Rattle.cm_wit_graph.specs.Graphs.{IsMarked};
ghost use Rattle.cm_wit_graph.specs.Reach.{edge, used_by};
ghost use Rattle.cm_wit_graph.specs.Marked.{marked_edges};

use std::alloc::{AllocError, Global};

/// Adds the edges to an interface.
#[tactic(auto, using(crate::proofs::EdgeLaws::part_laws))]
fn add_edges(
    out: &mut Vec<(usize, usize)>,
    count: usize,
    number: usize,
    row: &[Option<usize>],
) -> Result<(), AllocError>
    ensures { OnOk result
        (out.new.items ≡ out.old.items ++ filter_map (edge count number) row.now) }
{
    for target in row {
        if let Some(used) = *target {
            if used < count {
                out.push((used, number))?;
            }
        }
    }
    Ok(())
}

/// The edges from what is used to what uses it.
#[tactic(auto, using(crate::proofs::EdgeLaws::edge_laws))]
pub fn used_by(
    alloc: Global,
    rows: &[Vec<Option<usize>>],
) -> Result<Vec<(usize, usize)>, AllocError>
    ensures { IfOk result (λ v. v.items ≡ used_by (map (λ r. r.items) rows.now)) }
{
    let mut edges = Vec::new(alloc);
    for (number, row) in rows.iter().enumerate() {
        add_edges(&mut edges, rows.len(), number, row)?;
    }
    Ok(edges)
}

/// Marks the interfaces that are named.
#[tactic(auto, using(crate::proofs::EdgeLaws::name_laws))]
pub fn named_marks(
    alloc: Global,
    count: usize,
    named: &[Option<usize>],
) -> Result<Vec<bool>, AllocError>
    ensures len { IfOk result (λ marks. vec_len marks ≡ count) }
    ensures marked { IfOk result (λ marks. (k : ℕ) →
        IsMarked marks.items k ↔ ((k < count) × Contains named.now (Some k))) }
{
    let mut marks = Vec::from_elem(alloc, false, count)?;
    for target in named {
        if let Some(number) = *target {
            if number < count {
                marks[number] = true;
            }
        }
    }
    Ok(marks)
}

/// Whether a path leads nowhere.
pub fn has_missing(row: &[Option<usize>]) -> bool
    ensures { result ≡ list_any is_none row.now }
{
    row.iter().any(|target| target.is_none())
}

/// The edges to marked nodes.
#[tactic(auto, using(crate::proofs::EdgeLaws::part_laws))]
pub fn marked_edges(
    alloc: Global,
    edges: &[(usize, usize)],
    marks: &[bool],
) -> Result<Vec<(usize, usize)>, AllocError>
    ensures { IfOk result (λ v. v.items ≡ marked_edges marks.now edges.now) }
{
    let mut kept = Vec::new(alloc);
    for edge in edges {
        if marks.get(edge.1).copied().unwrap_or(false) {
            kept.push(*edge)?;
        }
    }
    Ok(kept)
}
