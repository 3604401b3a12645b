//! Guests that see the memory of their instance.

ghost use Rattle.std.specs.Prelude.{[], ◌∷◌, List, map};
ghost use Rattle.cm_machine_guests.specs.Sights.{Sight, exchange_of};

use cm_machine_model::{Event, Guest, Move};

/// A guest that sees the memory of its instance: what a core module does that reads what it was
/// given.
///
/// Its meaning is what it may see and make of it from now on.
pub trait SeeingGuest: Drop {
    ghost plays: { Self → List Sight → Type 0 };

    /// The move that the guest makes where its instance acts, this was the last event, and these
    /// are the bytes of its instance's memory.
    fn next(&mut self, seen: &Event, memory: &[u8]) -> Move
        ensures goes_on { (rest : List Sight) → plays self.new rest → plays self.old
            (record { seen = seen.now; memory = memory.now; made = result } ∷ rest) }
        ensures answers { plays self.old
            (record { seen = seen.now; memory = memory.now; made = result } ∷ []) };
}

/// A guest in a box is that guest, so that guests of several types take part in one drive.
impl SeeingGuest for Box<dyn SeeingGuest> {
    ghost plays = { λ guest told. (SeeingGuest-box guest).plays guest.value told };

    fn next(&mut self, seen: &Event, memory: &[u8]) -> Move {
        (**self).next(seen, memory)
    }
}

/// A guest that does not look at its memory sees it all the same.
impl SeeingGuest for Box<dyn Guest> {
    ghost plays = { λ guest told.
        (Guest-box guest).plays guest.value (map exchange_of told) };

    fn next(&mut self, seen: &Event, _memory: &[u8]) -> Move {
        (**self).next(seen)
    }
}
