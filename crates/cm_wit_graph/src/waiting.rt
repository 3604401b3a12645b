//! The nodes that wait for others.

ghost use Rattle.std.specs.Prelude.{◌≡◌, ◌≢◌, ◌<◌, ◌++◌, ◌∷◌, [], ℕ, OnOk, vec_len};
ghost use Rattle.cm_wit_graph.specs.Walks.{IsOpenNeed, entries_of};

use std::alloc::{AllocError, Global};
use std::mem;

/// The first need, from a place on, that is not marked, with its place, if there is one.
pub fn open_need(row: &[usize], from: usize, marks: &[bool]) -> Option<(usize, usize)>
    ensures { IsOpenNeed row.now from marks.now result }
{
    for place in from..row.len() {
        let need = row[place];
        if !marks.get(need).copied().unwrap_or(false) {
            return Some((place, need));
        }
    }
    None
}

/// Lets an entry wait for a node.
pub fn wait_for(
    waiting: &mut Vec<Vec<(usize, usize)>>,
    node: usize,
    entry: (usize, usize),
) -> Result<(), AllocError>
    requires { node < vec_len waiting.old }
    ensures len { vec_len waiting.new ≡ vec_len waiting.old }
    ensures here { OnOk result (entries_of waiting.new.items node
        ≡ entries_of waiting.old.items node ++ entry ∷ []) }
    ensures others { (j : ℕ) → j ≢ node
        → entries_of waiting.new.items j ≡ entries_of waiting.old.items j }
{
    waiting[node].push(entry)?;
    Ok(())
}

/// The entries that wait for a node, which wait for it no more.
pub fn release(
    alloc: Global,
    waiting: &mut Vec<Vec<(usize, usize)>>,
    node: usize,
) -> Vec<(usize, usize)>
    requires { node < vec_len waiting.old }
    ensures entries { result.items ≡ entries_of waiting.old.items node }
    ensures len { vec_len waiting.new ≡ vec_len waiting.old }
    ensures here { entries_of waiting.new.items node ≡ [] }
    ensures others { (j : ℕ) → j ≢ node
        → entries_of waiting.new.items j ≡ entries_of waiting.old.items j }
{
    mem::replace(&mut waiting[node], Vec::new(alloc))
}
