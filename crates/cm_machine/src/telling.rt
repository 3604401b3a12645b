//! A drive whose events are told as they come.

ghost use Rattle.std.specs.Prelude.{◌≡◌, ℕ, ◌<◌, ◌&&◌, not, false, OnErr, OnOk, IfOk, List, ◌∷◌};
ghost use Rattle.std.specs.Prelude.{length, slice_get};
ghost use Rattle.std.specs.Fn.{CalledAt};
ghost use Rattle.std.specs.Result.{result_err};
ghost use Rattle.cm_machine_model.specs.declared.event.Event.{Event};
ghost use Rattle.cm_machine_model.specs.Events.{is_last};
ghost use Rattle.cm_machine_model.specs.Run.{misuse_of_begin};
ghost use Rattle.cm_machine_set.specs.Running.{begun};
ghost use Rattle.cm_machine.specs.Player.{closes_between, is_taken, last_of};
ghost use Rattle.cm_machine.specs.Seeing.{IsSeeingPlay, IsTold, IsToldDrive};

use crate::player::Player;
use crate::turns::{empty_closed, turn};
use cm_machine_guests::SeeingGuest;
use cm_machine_model::{Event, Misuse};
use cm_machine_set::Set;

/// Plays a set whose stack is not empty, where this event was the last, until an event is the last
/// or so many moves were made, and tells a listener each event. Answers the last one.
fn play_telling<G: SeeingGuest, F: FnMut(&Event)>(
    set: &mut Set,
    seats: &mut Vec<Option<G>>,
    first: Event,
    limit: u64,
    mut listener: F,
) -> Event
    requires callable { F.IsAlwaysCallable listener }
    requires more { is_last first ≡ false }
    requires stands { 0 < length set.old.state.stack }
    ensures { (told : List Event) × (result ≡ last_of first told)
        × IsTold (λ f e g. CalledAt F.FnMut f e tt g) listener (first ∷ told)
        × IsSeeingPlay G.plays set.old first seats.old.items limit told set.new seats.new.items }
{
    let mut last = first;
    listener(&last);
    for _ in 0..limit {
        if last.is_last() {
            return last;
        }
        last = turn(set, seats, &last);
        listener(&last);
    }
    last
}

impl Player {
    /// Plays a root call as `drive_seeing` does, and tells `listener` each event as it comes, that
    /// of `begin` first. Answers the last event. Takes no memory.
    ///
    /// Misuse: that of `Set::begin`; set and seats are unchanged then, and nothing was told.
    pub fn drive_telling<G: SeeingGuest, F: FnMut(&Event)>(
        set: &mut Set,
        seats: &mut Vec<Option<G>>,
        root: u32,
        limit: u64,
        listener: F,
    ) -> Result<Event, Misuse>
        requires { F.IsAlwaysCallable listener }
        ensures drive { IfOk result (λ last.
            IsToldDrive G.plays (λ f e g. CalledAt F.FnMut f e tt g) root limit
            (begun set.old root) seats.old.items listener last set.new seats.new.items) }
        ensures emptied { OnOk result ((i : ℕ) → is_taken (slice_get seats.new.items i)
            ≡ (is_taken (slice_get seats.old.items i)
            && not (closes_between set.old.state.closed set.new.state.closed i))) }
        ensures misuse { result_err result ≡ misuse_of_begin set.old.state root }
        ensures unchanged { OnErr result
            ((set.new ≡ set.old) × (seats.new.items ≡ seats.old.items)) }
    {
        let first = set.begin(root)?;
        let before = set.closed_flags();
        let last = play_telling(set, seats, first, limit, listener);
        empty_closed(seats, before.as_slice(), set.closed_flags().as_slice());
        Ok(last)
    }
}
