//! The first node of a graph that lies on a cycle.

ghost use Rattle.std.specs.Prelude.{◌≡◌, ◌<◌, ◌↔◌, ℕ, IfOk, IsTrue, slice_index};
ghost use Rattle.cm_wit_graph.specs.Graphs.{HasEdge, IsFirstOnCycle, IsMarked, IsWithin};
ghost use Rattle.cm_wit_graph.specs.Graphs.{NoneBelow, ReachesItself};

use crate::components::components;
use crate::graph::Graph;
use std::alloc::{AllocError, Global};

fn rank_of(ranks: &[usize], node: usize) -> usize
    ensures { result ≡ slice_index ranks.now node }
{
    ranks.get(node).copied().unwrap_or(0)
}

/// A node below which no node lies on a cycle, as these ranks show: along an edge no rank falls,
/// and from a node below it every edge leads to a greater rank. It is 0 where a rank falls, and
/// else the least node with an edge to a node of its own rank.
#[tactic(auto, using(crate::proofs::CycleLaws::rank_laws))]
fn first_candidate(edges: &[(usize, usize)], ranks: &[usize], nodes: usize) -> usize
    requires { IsWithin nodes edges.now }
    ensures { NoneBelow edges.now result }
{
    let mut least = nodes;
    for (from, to) in edges {
        let (here, there) = (rank_of(ranks, *from), rank_of(ranks, *to));
        if here > there {
            return 0;
        }
        if here == there && *from < least {
            least = *from;
        }
    }
    least
}

/// Whether an edge leads from a node to a marked one.
#[tactic(auto, using(crate::proofs::CycleLaws::target_laws))]
fn has_marked_target(edges: &[(usize, usize)], node: usize, marks: &[bool]) -> bool
    ensures { IsTrue result ↔
        ((b : ℕ) × HasEdge edges.now node b × IsMarked marks.now b) }
{
    for (from, to) in edges {
        if *from == node && is_marked(marks, *to) {
            return true;
        }
    }
    false
}

fn is_marked(marks: &[bool], node: usize) -> bool
    ensures { IsTrue result ↔ IsMarked marks.now node }
{
    marks.get(node).copied().unwrap_or(false)
}

impl Graph {
    /// Whether a node lies on a cycle.
    fn reaches_itself(&self, alloc: Global, node: usize) -> Result<bool, AllocError>
        requires { node < self.now.nodes }
        ensures { IfOk result (λ b. IsTrue b ↔ ReachesItself self.now.edges node) }
    {
        let mut marks = Vec::from_elem(alloc, false, self.nodes())?;
        marks[node] = true;
        let all = self.leading_to(alloc, marks)?;
        Ok(has_marked_target(self.edges(), node, &all))
    }

    #[tactic(auto, using(crate::proofs::CycleLaws::search_laws))]
    /// The least node that lies on a cycle, if there is one, in time linear in the graph. Refused
    /// only where there is no memory.
    pub fn first_on_cycle(&self, alloc: Global) -> Result<Option<usize>, AllocError>
        ensures { IfOk result (IsFirstOnCycle self.now.edges) }
    {
        let edges = self.edges();
        let ranks = components(alloc, self.rows(), edges.len())?;
        for node in first_candidate(edges, &ranks, self.nodes())..self.nodes() {
            if self.reaches_itself(alloc, node)? {
                return Ok(Some(node));
            }
        }
        Ok(None)
    }
}
