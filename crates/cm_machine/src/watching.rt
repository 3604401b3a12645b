//! A drive that is watched.

ghost use Rattle.std.specs.Prelude.{◌≡◌, ℕ, ◌<◌, ◌&&◌, not, false, length, OnErr, OnOk, IfOk};
ghost use Rattle.std.specs.Prelude.{slice_get};
ghost use Rattle.std.specs.Result.{result_err};
ghost use Rattle.cm_machine_model.specs.Events.{is_last};
ghost use Rattle.cm_machine_model.specs.Run.{misuse_of_begin};
ghost use Rattle.cm_machine_set.specs.Running.{begun};
ghost use Rattle.cm_machine.specs.Player.{closes_between, is_taken};
ghost use Rattle.cm_machine.specs.Watching.{IsLookedAt, IsWatchedDrive, IsWatchedPlay};

use crate::player::Player;
use crate::turns::{ask_one, empty_closed, memory_of};
use crate::watcher::Watcher;
use cm_machine_guests::SeeingGuest;
use cm_machine_model::{Event, Misuse};
use cm_machine_set::Set;

/// Asks the guest of the acting instance for a move, as `turn` does, shows it to the watcher, and
/// makes it. Answers the event that it leads to.
fn watched_turn<G: SeeingGuest, W: Watcher>(
    set: &mut Set,
    seats: &mut Vec<Option<G>>,
    seen: &Event,
    watcher: &mut W,
) -> Event
    requires { 0 < length set.old.state.stack }
    ensures turn { IsLookedAt G.plays W.before set.old seen.now seats.old.items watcher.old
        result set.new seats.new.items watcher.new }
    ensures goes_on { is_last result ≡ false → 0 < length set.new.state.stack }
{
    let Some(instance) = set.acting() else {
        unreachable!()
    };
    let made = ask_one(seats, instance, seen, memory_of(set, instance));
    watcher.making(set, &made);
    let Ok(event) = set.step(&made) else {
        unreachable!()
    };
    event
}

/// Plays a set whose stack is not empty, where this event was the last, until an event is the last,
/// a watcher has enough, or so many moves were made, and shows the watcher each move before it is
/// made and each event. Answers the last one.
fn play_watched<G: SeeingGuest, W: Watcher>(
    set: &mut Set,
    seats: &mut Vec<Option<G>>,
    first: Event,
    limit: u64,
    watcher: &mut W,
) -> Event
    requires more { is_last first ≡ false }
    requires stands { 0 < length set.old.state.stack }
    ensures { IsWatchedPlay G.plays W.before W.after set.old first seats.old.items watcher.old limit
        result set.new seats.new.items watcher.new }
{
    let mut last = first;
    let mut goes_on = watcher.told(set, &last);
    for _ in 0..limit {
        let is_over = last.is_last();
        if !goes_on || is_over {
            return last;
        }
        last = watched_turn(set, seats, &last, watcher);
        goes_on = watcher.told(set, &last);
    }
    last
}

impl Player {
    /// Plays a root call as `drive_seeing` does, and shows `watcher` each event, that of `begin`
    /// first, and each move before it is made; the drive also ends where the watcher wants it.
    /// Answers the last event. Takes no memory.
    ///
    /// Misuse: that of `Set::begin`; set, seats and watcher are unchanged then.
    pub fn drive_watched<G: SeeingGuest, W: Watcher>(
        set: &mut Set,
        seats: &mut Vec<Option<G>>,
        root: u32,
        limit: u64,
        watcher: &mut W,
    ) -> Result<Event, Misuse>
        ensures drive { IfOk result (λ last. IsWatchedDrive G.plays W.before W.after root limit
            (begun set.old root) seats.old.items watcher.old last set.new seats.new.items
            watcher.new) }
        ensures emptied { OnOk result ((i : ℕ) → is_taken (slice_get seats.new.items i)
            ≡ (is_taken (slice_get seats.old.items i)
            && not (closes_between set.old.state.closed set.new.state.closed i))) }
        ensures misuse { result_err result ≡ misuse_of_begin set.old.state root }
        ensures unchanged { OnErr result ((set.new ≡ set.old)
            × (seats.new.items ≡ seats.old.items) × (watcher.new ≡ watcher.old)) }
    {
        let first = set.begin(root)?;
        let before = set.closed_flags();
        let last = play_watched(set, seats, first, limit, watcher);
        empty_closed(seats, before.as_slice(), set.closed_flags().as_slice());
        Ok(last)
    }
}
