//! What a set is made of before anything ran.

ghost use Rattle.std.specs.Prelude.{◌≡◌, replicate, true, length, map, nat_le, IfOk};
ghost use Rattle.std.specs.List.{list_all};
ghost use Rattle.cm_handles.specs.Handles.{no_handles};
ghost use Rattle.cm_machine_model.specs.Plan.{Plan};
ghost use Rattle.cm_machine_model.specs.State.{are_page_counts, fresh_state, zeros};
ghost use Rattle.cm_machine_parts.specs.Kept.{IsKept};
ghost use Rattle.cm_machine_parts.specs.States.{handles_in, state_of};

use cm_handles::Table;
use cm_machine_model::{MAX_PAGES, Memories, Memory};
use cm_machine_parts::{Lends, Passing, Stack, State};
use std::alloc::{AllocError, Global};

/// Whether no number of pages is above the most.
fn all_fit(pages: &[u32]) -> bool
    ensures { result ≡ list_all (λ p. nat_le p MAX_PAGES) pages.now }
{
    pages.iter().all(|&p| p <= MAX_PAGES)
}

/// Whether there is one number of pages for each of so many instances, none above the most.
pub fn are_page_counts(count: usize, pages: &[u32]) -> bool
    ensures { result ≡ are_page_counts count pages.now }
{
    pages.len() == count && all_fit(pages)
}

/// A memory of zeros for each number of pages.
fn memories_of(alloc: Global, pages: &[u32]) -> Result<Memories, AllocError>
    requires { list_all (λ p. nat_le p MAX_PAGES) pages.now ≡ true }
    ensures { IfOk result (λ m. m ≡ map zeros pages.now) }
{
    let mut memories = Memories::with_capacity(alloc, pages.len())?;
    for &count in pages {
        memories.push(Memory::new(alloc, count)?)?;
    }
    Ok(memories)
}

/// So many empty handle tables.
fn tables_of(alloc: Global, count: usize) -> Result<Vec<Table>, AllocError>
    ensures { IfOk result (λ tables. handles_in tables.items ≡ replicate count no_handles) }
{
    let mut tables = Vec::with_capacity(alloc, count)?;
    for _ in 0..count {
        tables.push(Table::new(alloc))?;
    }
    Ok(tables)
}

/// The state of so many instances before anything ran, with these numbers of pages.
pub fn fresh_state(alloc: Global, count: usize, pages: &[u32]) -> Result<State, AllocError>
    requires { are_page_counts count pages.now ≡ true }
    ensures fresh { IfOk result (λ s. state_of s ≡ fresh_state count pages.now) }
    ensures kept { (plan : Plan) → IfOk result (λ s. IsKept plan s) }
{
    let memories = memories_of(alloc, pages)?;
    let tables = tables_of(alloc, count)?;
    let closed = vec![in alloc; false; count]?;
    let stack = Stack::new(alloc)?;
    Ok(State {
        memories,
        tables,
        owners: Vec::new(alloc),
        lends: Lends::new(alloc),
        closed,
        stack,
        passing: Passing::new(alloc),
    })
}
