//! Guests of instances.

use cm_machine::{Event, Move, MoveQueue, SeeingGuest, WithAllocator};
use std::alloc::{AllocError, Global};
use std::collections::VecDeque;

/// The guest of an instance.
#[derive(Drop)]
pub enum Seat {
    /// It makes these moves.
    Moves(MoveQueue),
    /// It makes these moves, and answers its allocator's calls by itself.
    Allocating(WithAllocator<MoveQueue>),
}

impl SeeingGuest for Seat {
    ghost use Rattle.std.specs.Prelude.{⊤};

    // Which moves it makes is said by no contract.
    ghost plays = { λ _ _. ⊤ };

    fn next(&mut self, seen: &Event, memory: &[u8]) -> Move {
        match self {
            Seat::Moves(queue) => queue.next(seen, memory),
            Seat::Allocating(guest) => guest.next(seen, memory),
        }
    }
}

/// Guests that make these moves.
pub fn seats_of(
    alloc: Global,
    moves: Vec<VecDeque<Move>>,
) -> Result<Vec<Option<Seat>>, AllocError> {
    let mut seats = Vec::with_capacity(alloc, moves.len())?;
    for moves in moves {
        seats.push(Some(Seat::Moves(MoveQueue { moves })))?;
    }
    Ok(seats)
}
