//! The moves that write what a host passes.

ghost use Rattle.std.specs.Prelude.{◌≡◌, ◌++◌, List, OnOk};
ghost use Rattle.cm_machine.specs.cm_machine_model.declared.moves.Move.{Move};
ghost use Rattle.cm_host.specs.Passing.{AreGrowths, AreWrites};

use cm_host_values::Lowered;
use cm_machine::{Bump, MAX_MEMORY_SIZE, Move, PAGE_SIZE};
use cm_types::CoreValue;
use std::alloc::{AllocError, Global};
use std::collections::VecDeque;

/// A whole memory, to be given out.
pub(crate) const ALL_ROOM: Bump = Bump {
    next: 0,
    end: MAX_MEMORY_SIZE as u32,
};

/// How many pages more a memory of so many bytes needs to reach an end; as many as can be asked for
/// where they are more.
fn missing_pages(bytes: usize, end: usize) -> u32 {
    let pages = end.saturating_sub(bytes).div_ceil(PAGE_SIZE);
    u32::try_from(pages).unwrap_or(u32::MAX)
}

/// Puts a growth behind other moves, where a memory of so many bytes does not reach an end.
pub(crate) fn push_growth(
    moves: &mut VecDeque<Move>,
    memory: usize,
    end: usize,
) -> Result<(), AllocError>
    ensures { OnOk result ((ms : List Move) × AreGrowths ms
        × (moves.new.items ≡ moves.old.items ++ ms)) }
{
    let pages = missing_pages(memory, end);
    if pages > 0 {
        moves.push_back(Move::Grow { pages })?;
    }
    Ok(())
}

/// Puts the moves that write what is passed behind others, in a memory of so many bytes.
pub(crate) fn push_writes(
    alloc: Global,
    moves: &mut VecDeque<Move>,
    lowered: &Lowered,
    memory: usize,
) -> Result<(), AllocError>
    ensures { OnOk result ((ms : List Move) × AreWrites lowered.now.bytes.items ms
        × (moves.new.items ≡ moves.old.items ++ ms)) }
{
    if lowered.bytes.is_empty() {
        return Ok(());
    }
    push_growth(moves, memory, lowered.bytes.len())?;
    moves.push_back(Move::write(alloc, 0, &lowered.bytes)?)?;
    Ok(())
}
