//! A guest that makes one call.

ghost use Rattle.std.specs.Prelude.{◌≡◌, is_some};
ghost use Rattle.cm_machine.specs.cm_machine_guests.Allocating.{PlaysLeft, left_to_guest};
ghost use Rattle.cm_host.specs.Calls.{moves_of};

use crate::playing::Playing;
use cm_machine::{Bump, Event, Move, MoveQueue, SeeingGuest};
use std::alloc::Global;

/// A guest that makes one call, as a root, and returns: it plays the moves of a queue, and answers
/// its allocator's calls by itself.
#[derive(Drop)]
pub struct Caller {
    playing: Playing,
    queue: MoveQueue,
}

impl Caller {
    /// A guest that plays these moves, and may give out these regions.
    pub(crate) fn new(alloc: Global, regions: Bump, queue: MoveQueue) -> Caller
        ensures { moves_of result ≡ queue.moves.items }
    {
        Caller {
            playing: Playing::new(alloc, regions),
            queue,
        }
    }
}

impl SeeingGuest for Caller {
    ghost plays = { λ c told. PlaysLeft ⟦<MoveQueue as SeeingGuest>⟧.plays c.queue
        (left_to_guest (is_some c.playing.waiting) told) };

    fn next(&mut self, seen: &Event, memory: &[u8]) -> Move {
        match self.playing.allocator_move(seen, memory.len()) {
            Some(made) => made,
            None => self.queue.next(seen, memory),
        }
    }
}
