//! The graphs of what the declarations of a file lead to.

ghost use Rattle.std.specs.Prelude.{◌≡◌, IfOk, IsTrue, ◌↔◌, length, map};
ghost use Rattle.cm_wit_graph.specs.Graphs.{IsMarked};
ghost use Rattle.cm_wit_names.specs.MentionViews.{mention_view};
ghost use Rattle.cm_wit_names.specs.Known.{edges, using_edges};

use crate::names::Names;
use cm_wit_graph::Graph;
use std::alloc::{AllocError, Global};

/// Whether a node is marked.
pub fn is_marked(marks: &[bool], node: usize) -> bool
    ensures { IsTrue result ↔ IsMarked marks.now node }
{
    marks.get(node).copied().unwrap_or(false)
}

impl Names<'_> {
    #[tactic(auto, using(crate::proofs::GraphLaws::graph_within))]
    /// What declarations lead to by the names in their texts, but for borrows.
    pub fn graph(&self, alloc: Global) -> Result<Graph, AllocError>
        ensures nodes { IfOk result (λ g. g.nodes ≡ length self.now.mentions.items) }
        ensures edges { IfOk result
            (λ g. g.edges ≡ edges (map mention_view self.now.mentions.items)) }
    {
        Graph::new(alloc, self.mentions.len(), self.edges(alloc)?)
    }

    #[tactic(auto, using(crate::proofs::GraphLaws::using_graph_within))]
    /// What used names lead to.
    pub fn using_graph(&self, alloc: Global) -> Result<Graph, AllocError>
        ensures nodes { IfOk result (λ g. g.nodes ≡ length self.now.mentions.items) }
        ensures edges { IfOk result
            (λ g. g.edges ≡ using_edges (map mention_view self.now.mentions.items)) }
    {
        Graph::new(alloc, self.mentions.len(), self.using_edges(alloc)?)
    }
}
