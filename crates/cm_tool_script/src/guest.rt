//! A guest that makes the moves of a script.

ghost use Rattle.cm_tool_script.specs.Moves.{Makes};

use cm_machine_model::{Event, Guest, Move};
use std::collections::VecDeque;

/// A guest that makes these moves in order, whatever it sees, and then stops.
#[derive(Drop)]
pub struct ScriptGuest {
    moves: VecDeque<Move>,
}

impl ScriptGuest {
    /// A guest that makes these moves, the front one first.
    pub fn new(moves: VecDeque<Move>) -> ScriptGuest {
        ScriptGuest { moves }
    }
}

impl Guest for ScriptGuest {
    ghost plays = { λ guest told. Makes guest.moves.items told };

    fn next(&mut self, _seen: &Event) -> Move {
        match self.moves.pop_front() {
            Some(made) => made,
            None => Move::Unreachable,
        }
    }
}
