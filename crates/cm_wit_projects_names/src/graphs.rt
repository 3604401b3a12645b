//! Graphs of what leads to what.

ghost use Rattle.std.specs.Prelude.{◌≡◌, IfOk, OnOk, vec_len};
ghost use Rattle.cm_wit_graph.specs.Graphs.{IsWithin};

use cm_wit_graph::Graph;
use std::alloc::{AllocError, Global};

/// Adds an edge, where it is between so many nodes.
fn keep(
    out: &mut Vec<(usize, usize)>,
    nodes: usize,
    from: usize,
    to: usize,
) -> Result<(), AllocError>
    ensures { OnOk result (IsWithin nodes out.old.items → IsWithin nodes out.new.items) }
{
    if from < nodes && to < nodes {
        out.push((from, to))?;
    }
    Ok(())
}

/// The edges that are between so many nodes.
fn edges_within(
    alloc: Global,
    nodes: usize,
    edges: &[(usize, usize)],
) -> Result<Vec<(usize, usize)>, AllocError>
    ensures { IfOk result (λ v. IsWithin nodes v.items) }
{
    let mut kept = Vec::new(alloc);
    for edge in edges {
        keep(&mut kept, nodes, edge.0, edge.1)?;
    }
    Ok(kept)
}

/// The graph of the edges that are between so many nodes.
fn graph_of(alloc: Global, nodes: usize, edges: &[(usize, usize)]) -> Result<Graph, AllocError>
    ensures { IfOk result (λ g. g.nodes ≡ nodes) }
{
    let kept = edges_within(alloc, nodes, edges)?;
    Graph::new(alloc, nodes, kept)
}

/// Marks of so many nodes, of which these are marked.
fn marks_of(alloc: Global, nodes: usize, starts: &[usize]) -> Result<Vec<bool>, AllocError>
    ensures { IfOk result (λ v. vec_len v ≡ nodes) }
{
    let mut marks = Vec::from_elem(alloc, false, nodes)?;
    for start in starts {
        if *start < marks.len() {
            marks[*start] = true;
        }
    }
    Ok(marks)
}

/// Marks each of so many nodes that leads to one of these, or is one, in time linear in the graph.
/// Refused only where there is no memory.
pub fn leading_to(
    alloc: Global,
    nodes: usize,
    edges: &[(usize, usize)],
    starts: &[usize],
) -> Result<Vec<bool>, AllocError> {
    let marks = marks_of(alloc, nodes, starts)?;
    graph_of(alloc, nodes, edges)?.leading_to(alloc, marks)
}

/// The least of so many nodes that leads to itself, if there is one, in time linear in the graph.
/// Refused only where there is no memory.
pub fn first_on_cycle(
    alloc: Global,
    nodes: usize,
    edges: &[(usize, usize)],
) -> Result<Option<usize>, AllocError> {
    graph_of(alloc, nodes, edges)?.first_on_cycle(alloc)
}

/// Whether a node is marked.
pub fn is_marked(marks: &[bool], node: usize) -> bool {
    marks.get(node).copied().unwrap_or(false)
}
