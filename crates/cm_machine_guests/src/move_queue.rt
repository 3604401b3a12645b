//! A guest that plays the moves of a queue.

ghost use Rattle.std.specs.Prelude.{◌≡◌, ◌∷◌, ◌++◌, [], map, OnErr, OnOk};
ghost use Rattle.cm_machine_guests.specs.Moves.{IsNext, PlaysMoves};

use crate::seeing_guest::SeeingGuest;
use cm_machine_model::{Event, Guest, Move};
use std::alloc::{AllocError, Global};
use std::collections::VecDeque;

/// A guest that plays these moves in order, whatever it sees, and then stops.
#[derive(Drop)]
pub struct MoveQueue {
    /// The moves that are left, the next one first.
    pub moves: VecDeque<Move>,
}

impl MoveQueue {
    /// A queue of no moves, which stops at once.
    pub fn new(alloc: Global) -> MoveQueue
        ensures { result.moves.items ≡ [] }
    {
        MoveQueue {
            moves: VecDeque::new(alloc),
        }
    }

    /// Puts a move behind those that are left. Where there is no memory for it, nothing changes.
    pub fn push(&mut self, made: Move) -> Result<(), AllocError>
        ensures ok { OnOk result (self.new.moves.items ≡ self.old.moves.items ++ made ∷ []) }
        ensures err { OnErr result (self.new.moves.items ≡ self.old.moves.items) }
    {
        self.moves.push_back(made)?;
        Ok(())
    }

    /// Takes the next move out of the queue: `Unreachable` where none is left.
    pub fn take_next(&mut self) -> Move
        ensures { IsNext self.old.moves.items result self.new.moves.items }
    {
        match self.moves.pop_front() {
            Some(made) => made,
            None => Move::Unreachable,
        }
    }
}

impl Guest for MoveQueue {
    ghost plays = { λ queue told. PlaysMoves queue.moves.items (map (λ x. x.made) told) };

    fn next(&mut self, _seen: &Event) -> Move {
        self.take_next()
    }
}

impl SeeingGuest for MoveQueue {
    ghost plays = { λ queue told. PlaysMoves queue.moves.items (map (λ x. x.made) told) };

    fn next(&mut self, _seen: &Event, _memory: &[u8]) -> Move {
        self.take_next()
    }
}
