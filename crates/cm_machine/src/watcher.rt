//! Who watches a drive.

ghost use Rattle.std.specs.Prelude.{Bool, ℕ};
ghost use Rattle.cm_machine_model.specs.declared.event.Event.{Event as EventTree};
ghost use Rattle.cm_machine_model.specs.declared.moves.Move.{Move as MoveTree};
ghost use Rattle.cm_machine_set.specs.Running.{RunningSet};

use cm_machine_model::{Event, Move};
use cm_machine_set::Set;

/// Who watches a drive.
///
/// Its meaning is what it makes of what it is shown: from which state it comes to which by the set
/// and the move that is about to be made, and by the set and the event that a move, or `begin`, led
/// to; there also whether it wants the drive to go on.
pub trait Watcher {
    ghost before: { Self → RunningSet → MoveTree → Self → Type 0 };

    ghost after: { Self → RunningSet → EventTree → Bool → Self → Type 0 };

    /// The acting instance is about to make this move, and the set is as it is before it.
    fn making(&mut self, set: &Set, made: &Move)
        ensures { before self.old set.now made.now self.new };

    /// The last move, or the begin of a drive, led to this event, and the set is as it is behind
    /// it. Answers whether the drive is to go on.
    fn told(&mut self, set: &Set, event: &Event) -> bool
        ensures { after self.old set.now event.now result self.new };
}
