//! Drives whose guests see the memory of their instance.

ghost use Rattle.std.specs.Prelude.{◌≡◌, ◌≢◌, ℕ, ◌&&◌, not, Err, ◌⊎◌, OnOk, IfOk, IfErr, []};
ghost use Rattle.std.specs.Prelude.{None, Some, slice_get};
ghost use Rattle.cm_machine_model.specs.declared.event.Event.{Event};
ghost use Rattle.cm_machine_model.specs.declared.event.Misuse.{Misuse};
ghost use Rattle.cm_machine_model.specs.Run.{misuse_of_begin};
ghost use Rattle.cm_machine_set.specs.Running.{begun};
ghost use Rattle.cm_machine.specs.Player.{closes_between, is_taken};
ghost use Rattle.cm_machine.specs.Seeing.{IsSeeingDrive, IsSeeingHalt};

use crate::player::Player;
use crate::turns::{empty_closed, play_on};
use cm_machine_guests::SeeingGuest;
use cm_machine_model::{Event, Misuse};
use cm_machine_set::Set;
use std::alloc::Global;

impl Player {
    /// Plays a root call as `drive` does, and hands a guest its own instance's memory beside the
    /// last event, as the memory is before the guest's move.
    ///
    /// Misuse: that of `Set::begin`, and set and seats are unchanged; or `Memory` where there is no
    /// room for an event, and set and seats are what the moves made so far left.
    pub fn drive_seeing<G: SeeingGuest>(
        alloc: Global,
        set: &mut Set,
        seats: &mut Vec<Option<G>>,
        root: u32,
        limit: u64,
    ) -> Result<Vec<Event>, Misuse>
        ensures drive { IfOk result (λ events.
            IsSeeingDrive G.plays root limit (begun set.old root)
            seats.old.items events.items set.new seats.new.items) }
        ensures emptied { OnOk result ((i : ℕ) → is_taken (slice_get seats.new.items i)
            ≡ (is_taken (slice_get seats.old.items i)
            && not (closes_between set.old.state.closed set.new.state.closed i))) }
        ensures begins { OnOk result (misuse_of_begin set.old.state root ≡ None) }
        ensures misuse { (m : Misuse) → misuse_of_begin set.old.state root ≡ Some m
            → result ≡ Err m }
        ensures only { IfErr result (λ m.
            (m ≡ Misuse.Memory) ⊎ (misuse_of_begin set.old.state root ≡ Some m)) }
        ensures unchanged { IfErr result (λ m. m ≢ Misuse.Memory
            → (set.new ≡ set.old) × (seats.new.items ≡ seats.old.items)) }
        ensures halt { IfErr result (λ m. m ≡ Misuse.Memory
            → IsSeeingHalt G.plays (begun set.old root) (Event.Resume root [])
            seats.old.items limit set.new seats.new.items) }
    {
        let first = set.begin(root)?;
        let mut events = Vec::new(alloc);
        let Ok(()) = events.push(first) else {
            return Err(Misuse::Memory);
        };
        let before = set.closed_flags();
        play_on(set, seats, &mut events, limit)?;
        empty_closed(seats, before.as_slice(), set.closed_flags().as_slice());
        Ok(events)
    }
}
