//! The edges of a graph, sorted by the nodes to which they lead.

ghost use Rattle.std.specs.Prelude.{◌≡◌, ◌<◌, ℕ, IfOk, vec_len};
ghost use Rattle.cm_wit_graph.specs.Graphs.{IsWithin};
ghost use Rattle.cm_wit_graph.specs.Rows.{row_of, sources};

use std::alloc::{AllocError, Global};

/// For each node the nodes from which an edge leads to it, in the order of the edges.
pub fn incoming(
    alloc: Global,
    nodes: usize,
    edges: &[(usize, usize)],
) -> Result<Vec<Vec<usize>>, AllocError>
    requires { IsWithin nodes edges.now }
    ensures rows { IfOk result (λ rows. vec_len rows ≡ nodes) }
    ensures sources { IfOk result (λ rows. (b : ℕ) → b < nodes →
        row_of rows.items b ≡ sources edges.now b) }
{
    let mut rows = Vec::with_capacity(alloc, nodes)?;
    for _node in 0..nodes {
        rows.push(Vec::new(alloc))?;
    }
    for (from, to) in edges {
        rows[*to].push(*from)?;
    }
    Ok(rows)
}
