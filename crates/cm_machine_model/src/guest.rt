//! Guests: what the core modules of instances do.

ghost use Rattle.std.specs.Prelude.{[], ◌∷◌, List};
ghost use Rattle.cm_machine_model.specs.Exchange.{Exchange};

use crate::event::Event;
use crate::moves::Move;

/// A guest: what the core module of an instance does, as a list of moves.
///
/// Its meaning is the exchanges that it may take part in from now on.
pub trait Guest: Drop {
    ghost plays: { Self → List Exchange → Type 0 };

    /// The move that the guest makes where its instance acts and this was the last event.
    fn next(&mut self, seen: &Event) -> Move
        ensures goes_on { (rest : List Exchange) → plays self.new rest
            → plays self.old (record { seen = seen.now; made = result } ∷ rest) }
        ensures answers { plays self.old (record { seen = seen.now; made = result } ∷ []) };
}
