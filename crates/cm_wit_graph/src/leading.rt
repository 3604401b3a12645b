//! Which nodes of a graph lead to marked ones.

ghost use Rattle.std.specs.Prelude.{◌≡◌, ◌<◌, ◌↔◌, ◌∷◌, [], ℕ, All, IfOk, OnOk, vec_len, length};
ghost use Rattle.std.specs.List.{Contains};
ghost use Rattle.cm_wit_graph.specs.Graphs.{IsMarked};
ghost use Rattle.cm_wit_graph.specs.Marking.{IsInto, LeadsBy, Marked};
ghost use Rattle.cm_wit_graph.specs.Rows.{row_of};

use std::alloc::{AllocError, Global};

/// Marks a node. One that was not marked becomes pending.
#[tactic(auto, using(crate::proofs::MarkLaws::mark_laws))]
fn mark(node: usize, marks: &mut Vec<bool>, pending: &mut Vec<usize>) -> Result<(), AllocError>
    requires { node < vec_len marks.old }
    ensures len { vec_len marks.new ≡ vec_len marks.old }
    ensures marked { OnOk result (Marked (node ∷ []) marks.old.items marks.new.items
        pending.old.items pending.new.items) }
{
    if !marks[node] {
        marks[node] = true;
        pending.push(node)?;
    }
    Ok(())
}

/// Marks nodes. Those that were not marked become pending.
#[tactic(auto, using(crate::proofs::MarkLaws::mark_laws))]
fn mark_all(
    nodes: &[usize],
    marks: &mut Vec<bool>,
    pending: &mut Vec<usize>,
) -> Result<(), AllocError>
    requires { All (λ a. a < vec_len marks.old) nodes.now }
    ensures len { vec_len marks.new ≡ vec_len marks.old }
    ensures marked { OnOk result (Marked nodes.now marks.old.items marks.new.items
        pending.old.items pending.new.items) }
{
    for node in nodes {
        mark(*node, marks, pending)?;
    }
    Ok(())
}

/// The marked nodes, in order.
#[tactic(auto, using(crate::proofs::MarkLaws::listing_laws))]
pub fn marked_nodes(alloc: Global, marks: &[bool]) -> Result<Vec<usize>, AllocError>
    ensures { IfOk result (λ nodes. (a : ℕ) → Contains nodes.items a ↔ IsMarked marks.now a) }
{
    let mut nodes = Vec::new(alloc);
    for (node, mark) in marks.iter().enumerate() {
        if *mark {
            nodes.push(node)?;
        }
    }
    Ok(nodes)
}

/// Marks all nodes that lead to the marked ones, which are all pending.
#[tactic(auto, using(crate::proofs::MarkLaws::spread_laws))]
pub fn spread(
    rows: &[Vec<usize>],
    mut marks: Vec<bool>,
    mut pending: Vec<usize>,
) -> Result<Vec<bool>, AllocError>
    requires rows { IsInto (vec_len marks) (row_of rows.now) }
    requires size { length rows.now ≡ vec_len marks }
    requires pending { (a : ℕ) → Contains pending.items a ↔ IsMarked marks.items a }
    ensures len { IfOk result (λ all. vec_len all ≡ vec_len marks) }
    ensures marked { IfOk result (λ all. (a : ℕ) →
        IsMarked all.items a ↔ LeadsBy (row_of rows.now) marks.items a) }
{
    while let Some(node) = pending.pop() {
        let Some(row) = rows.get(node) else {
            unreachable!();
        };
        mark_all(row, &mut marks, &mut pending)?;
    }
    Ok(marks)
}
