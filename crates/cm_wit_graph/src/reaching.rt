//! What a world reaches.

ghost use Rattle.std.specs.Prelude.{◌≡◌, ◌↔◌, ◌||◌, ℕ, Bool, List, true, IfOk, IsTrue, is_none};
ghost use Rattle.std.specs.Prelude.{length, map};
ghost use Rattle.std.specs.Prelude.{slice_index_or, vec_len};
ghost use Rattle.std.specs.List.{list_any};
ghost use Rattle.cm_wit_graph.specs.Graphs.{IsMarked, LeadsToMarked, ReachesItself, Edges};
ghost use Rattle.cm_wit_graph.specs.Reach.{HasCycle, HasMissing, IsReached, row_at};

use crate::Graph;
use crate::edges::{has_missing, marked_edges, named_marks, used_by};
use std::alloc::{AllocError, Global};

/// The interfaces that a world reaches.
#[derive(Drop)]
pub struct Reach {
    /// For each interface whether it is reached.
    pub marks: Vec<bool>,
    /// Whether a path leads to no interface.
    pub missing: bool,
    /// Whether an interface that is reached uses itself, by way of others or not.
    pub cyclic: bool,
}

/// Whether a path in a marked interface leads nowhere.
#[tactic(auto, using(crate::proofs::ReachLaws::missing_laws))]
fn marked_missing(rows: &[Vec<Option<usize>>], marks: &[bool]) -> bool
    ensures { IsTrue result ↔ ((k : ℕ) × IsMarked marks.now k
        × (list_any is_none (row_at (map (λ r. r.items) rows.now) k) ≡ true)) }
{
    for (number, row) in rows.iter().enumerate() {
        if marks.get(number).copied().unwrap_or(false) && has_missing(row) {
            return true;
        }
    }
    false
}

/// Whether a node that is marked lies on a cycle, where each node is marked that leads to one.
#[tactic(auto, using(crate::proofs::ReachLaws::cycle_laws))]
fn has_cycle(alloc: Global, graph: &Graph, marks: &[bool]) -> Result<bool, AllocError>
    ensures { IfOk result (λ b. (starts : List Bool)
        → ((a : ℕ) → IsMarked marks.now a ↔ LeadsToMarked graph.now.edges starts a)
        → (IsTrue b ↔ ((k : ℕ) × IsMarked marks.now k × ReachesItself graph.now.edges k))) }
{
    let kept = marked_edges(alloc, graph.edges(), marks)?;
    let first = Graph::new(alloc, graph.nodes(), kept)?.first_on_cycle(alloc)?;
    Ok(first.is_some())
}

fn either(a: bool, b: bool) -> bool
    ensures { result ≡ (a || b) }
{
    a || b
}

/// The interfaces that are reached by a world that names these, where each interface uses those of
/// its row. It takes time linear in the rows. Refused only where there is no memory.
#[tactic(auto, using(crate::proofs::ReachLaws::reach_laws))]
pub fn reach_from(
    alloc: Global,
    rows: &[Vec<Option<usize>>],
    named: &[Option<usize>],
) -> Result<Reach, AllocError>
    ensures marks { IfOk result (λ r. (k : ℕ) →
        IsMarked r.marks.items k ↔ IsReached (map (λ r. r.items) rows.now) named.now k) }
    ensures missing { IfOk result (λ r.
        IsTrue r.missing ↔ HasMissing (map (λ r. r.items) rows.now) named.now) }
    ensures cyclic { IfOk result (λ r.
        IsTrue r.cyclic ↔ HasCycle (map (λ r. r.items) rows.now) named.now) }
{
    let edges = used_by(alloc, rows)?;
    let starts = named_marks(alloc, rows.len(), named)?;
    let graph = Graph::new(alloc, rows.len(), edges)?;
    let marks = graph.leading_to(alloc, starts)?;
    let inside = marked_missing(rows, &marks);
    let missing = either(has_missing(named), inside);
    let cyclic = has_cycle(alloc, &graph, &marks)?;
    Ok(Reach {
        marks,
        missing,
        cyclic,
    })
}
