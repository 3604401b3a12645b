//! Graphs.

ghost use Rattle.std.specs.Prelude.{◌≡◌, ◌<◌, ◌↔◌, ℕ, IfOk, vec_len};
ghost use Rattle.cm_wit_graph.specs.Graphs.{IsMarked, IsWithin, LeadsToMarked};

use crate::leading::{marked_nodes, spread};
use crate::rows::incoming;
use std::alloc::{AllocError, Global};
use std::marker::Model;

/// A directed graph. Its nodes are the numbers below some number.
///
/// Contracts see a graph as that number and the list of its edges.
#[derive(Drop)]
pub struct Graph {
    edges: Vec<(usize, usize)>,
    /// For each node the nodes from which an edge leads to it.
    rows: Vec<Vec<usize>>,
}

impl Model for Graph {
    ghost use Rattle.std.specs.Prelude.{◌≡◌, ◌<◌, ℕ, length};
    ghost use Rattle.cm_wit_graph.specs.Graphs.{GraphTree, IsWithin};
    ghost use Rattle.cm_wit_graph.specs.Rows.{row_of, sources};

    ghost Value = { GraphTree };

    ghost view = { λ g. record { nodes = length g.rows.items; edges = g.edges.items } };

    ghost invariant = { λ g. IsWithin (length g.rows.items) g.edges.items
        × ((b : ℕ) → b < length g.rows.items → row_of g.rows.items b ≡ sources g.edges.items b) };
}

impl Graph {
    /// The graph of these edges, each the pair of the node that it comes from and the node that it
    /// leads to. Refused only where there is no memory.
    pub fn new(alloc: Global, nodes: usize, edges: Vec<(usize, usize)>) -> Result<Graph, AllocError>
        requires { IsWithin nodes edges.items }
        ensures nodes { IfOk result (λ g. g.nodes ≡ nodes) }
        ensures edges { IfOk result (λ g. g.edges ≡ edges.items) }
    {
        let rows = incoming(alloc, nodes, &edges)?;
        Ok(Graph { edges, rows })
    }

    /// How many nodes there are.
    pub fn nodes(&self) -> usize
        ensures { result ≡ self.now.nodes }
    {
        self.rows.len()
    }

    /// The edges.
    pub fn edges(&self) -> &[(usize, usize)]
        ensures edges { result.now ≡ self.now.edges }
        ensures within { IsWithin self.now.nodes self.now.edges }
    {
        &self.edges
    }

    /// For each node the nodes from which an edge leads to it.
    pub(crate) fn rows(&self) -> &[Vec<usize>] {
        &self.rows
    }

    /// Marks each node that leads to a marked one, in time linear in the graph. Refused only where
    /// there is no memory.
    #[tactic(auto, using(crate::proofs::GraphLaws::graph_laws))]
    pub fn leading_to(&self, alloc: Global, marks: Vec<bool>) -> Result<Vec<bool>, AllocError>
        requires { vec_len marks ≡ self.now.nodes }
        ensures len { IfOk result (λ all. vec_len all ≡ vec_len marks) }
        ensures marked { IfOk result (λ all. (a : ℕ) →
            IsMarked all.items a ↔ LeadsToMarked self.now.edges marks.items a) }
    {
        let pending = marked_nodes(alloc, &marks)?;
        spread(&self.rows, marks, pending)
    }
}
