//! Guests on their seats, and a drive that plays them.

ghost use Rattle.std.specs.Prelude.{◌≡◌, ◌≢◌, ℕ, ◌&&◌, not, Err, ◌⊎◌, OnOk, IfOk, IfErr, []};
ghost use Rattle.std.specs.Prelude.{None, Some, slice_get};
ghost use Rattle.cm_machine_model.specs.declared.event.Event.{Event};
ghost use Rattle.cm_machine_model.specs.declared.event.Misuse.{Misuse};
ghost use Rattle.cm_machine_model.specs.Run.{misuse_of_begin};
ghost use Rattle.cm_machine_set.specs.Running.{begun};
ghost use Rattle.cm_machine.specs.Player.{IsDrive, IsHalt, closes_between, is_taken};

use cm_machine_model::{Event, Guest, Misuse};
use cm_machine_set::Set;
use std::alloc::Global;

/// Plays root calls of a set.
pub struct Player;

impl Player {
    /// Begins a root call of the instance `root`, and asks the acting instance's guest for one move
    /// after the other, handing it the last event, until an event is `Ended` or `Trapped` or
    /// `limit` moves were made. Answers the events, that of `begin` first. The seat of an instance
    /// is the one at its place in `seats`; an empty or missing seat moves `Unreachable`. A trap
    /// drops the guests of the instances that it closes and leaves empty seats.
    ///
    /// Misuse: that of `Set::begin`, and set and seats are unchanged; or `Memory` where there is no
    /// room for an event, and set and seats are what the moves made so far left. Room for the event
    /// of `begin` is made right after it, room for a move's event before the move, and none once an
    /// event is `Ended` or `Trapped`.
    pub fn drive(
        alloc: Global,
        set: &mut Set,
        seats: &mut Vec<Option<Box<dyn Guest>>>,
        root: u32,
        limit: u64,
    ) -> Result<Vec<Event>, Misuse>
        ensures drive { IfOk result (λ events.
            IsDrive (λ g rest. plays g rest) root limit (begun set.old root)
            seats.old.items events.items set.new seats.new.items) }
        ensures emptied { OnOk result ((i : ℕ) → is_taken (slice_get seats.new.items i)
            ≡ (is_taken (slice_get seats.old.items i)
            && not (closes_between set.old.state.closed set.new.state.closed i))) }
        ensures begins { OnOk result (misuse_of_begin set.old.state root ≡ None) }
        ensures misuse { (m : Misuse) → misuse_of_begin set.old.state root ≡ Some m
            → result ≡ Err m }
        ensures only { IfErr result (λ m.
            (m ≡ Misuse.Memory) ⊎ (misuse_of_begin set.old.state root ≡ Some m)) }
        ensures unchanged { IfErr result (λ m. m ≢ Misuse.Memory
            → (set.new ≡ set.old) × (seats.new.items ≡ seats.old.items)) }
        ensures halt { IfErr result (λ m. m ≡ Misuse.Memory
            → IsHalt (λ g rest. plays g rest) (begun set.old root) (Event.Resume root [])
            seats.old.items limit set.new seats.new.items) }
    {
        Player::drive_seeing(alloc, set, seats, root, limit)
    }
}
