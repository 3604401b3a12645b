//! The turns of a drive, whose guests see the memory of their instance.

ghost use Rattle.std.specs.Prelude.{◌≡◌, ◌≢◌, ℕ, ◌<◌, false, OnErr, OnOk, IfErr, List, [], ◌∷◌};
ghost use Rattle.std.specs.Prelude.{Some, None, length, slice_get, slice_set};
ghost use Rattle.cm_machine_model.specs.declared.event.Event.{Event};
ghost use Rattle.cm_machine_model.specs.declared.event.Misuse.{Misuse};
ghost use Rattle.cm_machine_model.specs.Events.{is_last};
ghost use Rattle.cm_machine_model.specs.Memories.{memory_at};
ghost use Rattle.cm_machine.specs.Player.{StaysTaken, closes_between, last_of, seat_after_close};
ghost use Rattle.cm_machine.specs.Seeing.{IsSeeingHalt, IsSeeingPlay, IsTurn, SeatSees};

use cm_machine_guests::SeeingGuest;
use cm_machine_model::{Event, Misuse, Move};
use cm_machine_set::Set;

/// Asks the guest on a seat; an empty seat stops.
fn ask_seat<G: SeeingGuest>(seat: &mut Option<G>, seen: &Event, memory: &[u8]) -> Move
    ensures plays { SeatSees G.plays (Some seat.old) (Some seat.new)
        (record { seen = seen.now; memory = memory.now; made = result } ∷ []) }
    ensures stays { StaysTaken (Some seat.old) (Some seat.new) }
{
    match seat {
        Some(guest) => guest.next(seen, memory),
        None => Move::Unreachable,
    }
}

/// Asks the guest on an instance's seat; an empty or missing seat stops. No other seat changes.
pub(crate) fn ask_one<G: SeeingGuest>(
    seats: &mut Vec<Option<G>>,
    instance: u32,
    seen: &Event,
    memory: &[u8],
) -> Move
    ensures plays { SeatSees G.plays
        (slice_get seats.old.items instance) (slice_get seats.new.items instance)
        (record { seen = seen.now; memory = memory.now; made = result } ∷ []) }
    ensures stays { StaysTaken
        (slice_get seats.old.items instance) (slice_get seats.new.items instance) }
    ensures others { (i : ℕ) → i ≢ instance
        → slice_get seats.new.items i ≡ slice_get seats.old.items i }
{
    match seats.get_mut(instance as usize) {
        Some(seat) => ask_seat(seat, seen, memory),
        None => Move::Unreachable,
    }
}

/// The bytes of an instance's memory, none where there is no such instance.
pub(crate) fn memory_of(set: &Set, instance: u32) -> &[u8]
    ensures { result.now ≡ memory_at set.now.state.memories instance }
{
    match set.memory(instance) {
        Some(memory) => memory,
        None => &[],
    }
}

/// One turn of a set whose stack is not empty: shows the acting instance's guest the last event and
/// its memory, and makes the move that it answers. Answers what the move leads to.
pub(crate) fn turn<G: SeeingGuest>(set: &mut Set, seats: &mut Vec<Option<G>>, seen: &Event) -> Event
    requires { 0 < length set.old.state.stack }
    ensures turn { IsTurn G.plays set.old seen.now seats.old.items result set.new
        seats.new.items }
    ensures goes_on { is_last result ≡ false → 0 < length set.new.state.stack }
{
    let Some(instance) = set.acting() else {
        unreachable!()
    };
    let made = ask_one(seats, instance, seen, memory_of(set, instance));
    let Ok(event) = set.step(&made) else {
        unreachable!()
    };
    event
}

/// Whether the last of these events ends a drive.
fn is_over(events: &Vec<Event>) -> bool
    ensures { (first : Event) (told : List Event) → events.now.items ≡ first ∷ told
        → result ≡ is_last (last_of first told) }
{
    match events.last() {
        Some(event) => event.is_last(),
        None => false,
    }
}

/// Plays a set whose stack is not empty until an event is the last or so many moves were made. Room
/// for a move's event is made before the move; where there is none, the answer is `Memory`.
pub(crate) fn play_on<G: SeeingGuest>(
    set: &mut Set,
    seats: &mut Vec<Option<G>>,
    events: &mut Vec<Event>,
    limit: u64,
) -> Result<(), Misuse>
    requires one { (e : Event) × (events.old.items ≡ e ∷ []) × (is_last e ≡ false) }
    requires stands { 0 < length set.old.state.stack }
    ensures ok { OnOk result ((first : Event) → events.old.items ≡ first ∷ []
        → (told : List Event) × (events.new.items ≡ first ∷ told)
        × IsSeeingPlay G.plays set.old first seats.old.items limit told set.new seats.new.items) }
    ensures only { IfErr result (λ m. m ≡ Misuse.Memory) }
    ensures halt { OnErr result ((first : Event) → events.old.items ≡ first ∷ []
        → IsSeeingHalt G.plays set.old first seats.old.items limit set.new seats.new.items) }
{
    for _ in 0..limit {
        if is_over(events) {
            return Ok(());
        }
        if events.reserve(1).is_err() {
            return Err(Misuse::Memory);
        }
        let Some(seen) = events.last() else {
            unreachable!()
        };
        let event = turn(set, seats, seen);
        match events.push(event) {
            Ok(()) => {}
            Err(_) => unreachable!(),
        }
    }
    Ok(())
}

/// Whether these flags say that an instance is closed now and was not before.
fn closes_between(before: &[bool], after: &[bool], instance: usize) -> bool
    ensures { result ≡ closes_between before.now after.now instance }
{
    let was_closed = before.get(instance).copied().unwrap_or(false);
    after.get(instance).copied().unwrap_or(false) && !was_closed
}

/// Drops the guest on a seat.
fn empty_seat<G: SeeingGuest>(seats: &mut Vec<Option<G>>, seat: usize)
    requires { seat < length seats.old.items }
    ensures { seats.new.items ≡ slice_set seats.old.items seat None }
{
    seats[seat] = None;
}

/// Empties the seats of the instances that these flags say are closed now and were not before.
pub(crate) fn empty_closed<G: SeeingGuest>(
    seats: &mut Vec<Option<G>>,
    before: &[bool],
    after: &[bool],
)
    ensures { (i : ℕ) → slice_get seats.new.items i
        ≡ seat_after_close (closes_between before.now after.now i) (slice_get seats.old.items i) }
{
    for i in 0..seats.len() {
        let closes = closes_between(before, after, i);
        if closes {
            empty_seat(seats, i);
        }
    }
}
