//! Calls of a host.

ghost use Rattle.std.specs.Prelude.{◌≡◌, ◌≢◌, ℕ, [], ◌∷◌, ◌++◌, List, IfErr, IfOk, OnErr, OnOk};
ghost use Rattle.std.specs.Prelude.{Option, Some, slice_get};
ghost use Rattle.cm_types.specs.Values.{parts};
ghost use Rattle.cm_types.specs.ValueTrees.{values_of};
ghost use Rattle.cm_types.specs.declared.core_value.CoreValue.{CoreValue};
ghost use Rattle.cm_machine.specs.cm_machine_model.Memories.{memory_at};
ghost use Rattle.cm_machine.specs.cm_machine_model.declared.event.Event.{Event};
ghost use Rattle.cm_machine.specs.cm_machine_model.declared.event.Misuse.{Misuse};
ghost use Rattle.cm_machine.specs.cm_machine_model.declared.event.Trap.{Trap};
ghost use Rattle.cm_machine.specs.cm_machine_model.Moves.{CallsWith, ReturnsWith};
ghost use Rattle.cm_machine.specs.Player.{last_of};
ghost use Rattle.cm_host.specs.Calls.{Asks, EndsWith, HasEnded, WasAnswered, WasAsked, WasCalled};
ghost use Rattle.cm_host.specs.Calls.{is_now, number_answered};
ghost use Rattle.cm_host.specs.Calls.{moves_of, resumed_last, result_slots};
ghost use Rattle.cm_host.specs.Faults.{IsBefore, MayBeBefore};
ghost use Rattle.cm_host.specs.Passing.{Calls, Gets, IsCallOf};
ghost use Rattle.cm_host.specs.Seats.{instance_of};
ghost use Rattle.cm_host_values.specs.Lowering.{DenoteThere};
ghost use Rattle.cm_host_values.specs.HostTypes.{types_in, way_in};

use crate::caller::Caller;
use crate::fault::CallFault;
use crate::played::Played;
use crate::seat::{HostFunc, Seat};
use crate::service::Service;
use crate::writing::{ALL_ROOM, push_growth, push_writes};
use cm_host_values::{HostTypes, Lowered, ValuesFault, lift_values, lower_values};
use cm_machine::{
    Bump, Event, Flat, MAX_MEMORY_SIZE, Misuse, Move, MoveQueue, Player, Room, SeeingGuest, Set,
};
use cm_types::{CoreValue, Value};
use std::alloc::{AllocError, Global};

/// What is passed in a call, and where.
#[derive(Drop)]
struct Ready {
    lowered: Lowered,
    /// Where the results go, where they are passed in memory.
    place: Flat,
    /// What is left of the memory.
    regions: Bump,
}

/// A place for the tuple of results, where they are passed in memory.
fn results_place(alloc: Global, results: &HostTypes, regions: &mut Bump) -> Result<Flat, CallFault>
    ensures { IfErr result MayBeBefore }
{
    let head = results.layout(alloc)?.head;
    if head.width as usize <= results.way().flat_limit() {
        return Ok(Flat::new());
    }
    match regions.allocate(head.size, head.align, MAX_MEMORY_SIZE) {
        Room::At(at) => Ok(Flat::one(CoreValue::I32(at))),
        Room::Grow(_) | Room::Full => Err(CallFault::Arguments(ValuesFault::NoRoom)),
    }
}

/// Lowers the arguments of a call.
fn lower_call(alloc: Global, func: &HostFunc, args: &[Value]) -> Result<Ready, CallFault>
    ensures denote { IfOk result (λ r. DenoteThere (way_in func.now.params)
        (types_in func.now.params) (parts (values_of args.now)) r.lowered) }
    ensures before { IfErr result MayBeBefore }
{
    func.params.has_no_handles();
    let mut regions = ALL_ROOM;
    let lowered = match lower_values(alloc, &func.params, args, &mut regions) {
        Ok(lowered) => lowered,
        Err(fault) => return Err(CallFault::Arguments(fault)),
    };
    let place = results_place(alloc, &func.results, &mut regions)?;
    Ok(Ready {
        lowered,
        place,
        regions,
    })
}

/// The call of a core function with two lists of core values, one behind the other.
fn call_of(
    alloc: Global,
    func: u32,
    slots: &[CoreValue],
    more: &[CoreValue],
) -> Result<Move, AllocError>
    ensures { IfOk result (CallsWith func (slots.now ++ more.now)) }
{
    let mut args = Vec::new(alloc);
    args.extend_from_slice(slots)?;
    args.extend_from_slice(more)?;
    Ok(Move::Call { func, args })
}

/// The moves of a root that makes a call, in a memory of so many bytes.
fn queue_of(alloc: Global, func: u32, ready: &Ready, memory: usize) -> Result<MoveQueue, AllocError>
    ensures { IfOk result (λ q. IsCallOf func ready.now.lowered ready.now.place q.moves.items) }
{
    let mut queue = MoveQueue::new(alloc);
    let end = ready.regions.next as usize;
    push_growth(&mut queue.moves, memory, end)?;
    push_writes(alloc, &mut queue.moves, &ready.lowered, memory.max(end))?;
    let call = call_of(alloc, func, &ready.lowered.slots, ready.place.as_slice())?;
    queue.push(call)?;
    queue.push(Move::ret(alloc, &[])?)?;
    Ok(queue)
}

/// Puts a guest that makes a call on the seat of an instance.
fn sit<S: Service, G: SeeingGuest>(
    seats: &mut Vec<Option<Played<S, G>>>,
    instance: u32,
    caller: Caller,
) -> Result<(), CallFault>
    ensures sits { OnOk result (slice_get seats.new.items instance
        ≡ Some (Some (Played.Caller caller))) }
    ensures others { (i : ℕ) → i ≢ instance
        → slice_get seats.new.items i ≡ slice_get seats.old.items i }
    ensures err { IfErr result (λ e. e ≡ CallFault.Misuse Misuse.NoInstance) }
{
    match seats.get_mut(instance as usize) {
        Some(seat) => {
            *seat = Some(Played::Caller(caller));
            Ok(())
        }
        None => Err(CallFault::Misuse(Misuse::NoInstance)),
    }
}

/// The core values with which an instance went on last; none where it did not.
fn resumed_last(events: &[Event], instance: u32) -> Flat
    ensures { result ≡ resumed_last instance [] events.now }
{
    let mut kept = Flat::new();
    for event in events {
        keep_resumed(event, instance, &mut kept);
    }
    kept
}

/// Keeps the core values with which an instance goes on, where this is the event.
fn keep_resumed(event: &Event, instance: u32, kept: &mut Flat)
    ensures { kept.new ≡ resumed_last instance kept.old (event.now ∷ []) }
{
    if let Event::Resume {
        instance: by,
        values,
    } = event
    {
        if *by == instance {
            *kept = values.copied();
        }
    }
}

/// What a drive came to by its last event.
fn ended(last: Option<&Event>) -> Result<(), CallFault>
    ensures ended { OnOk result (is_now last.entry Event.Ended) }
    ensures trapped { IfErr result (λ e. (t : Trap) → e ≡ CallFault.Trapped t
        → is_now last.entry (Event.Trapped t)) }
    ensures after { IfErr result (λ e. IsBefore e → ⊥) }
{
    match last {
        Some(Event::Ended) => Ok(()),
        Some(Event::Trapped(trap)) => Err(CallFault::Trapped(*trap)),
        _ => Err(CallFault::Limit),
    }
}

/// What a drive of these events came to: the core values with which the root went on last.
fn came_to(events: &[Event], root: u32) -> Result<Flat, CallFault>
    ensures ended { IfOk result (λ f. EndsWith events.now Event.Ended
        × (f ≡ resumed_last root [] events.now)) }
    ensures trapped { IfErr result (λ e. (t : Trap) → e ≡ CallFault.Trapped t
        → EndsWith events.now (Event.Trapped t)) }
    ensures after { IfErr result (λ e. IsBefore e → ⊥) }
{
    match ended(events.last()) {
        Ok(()) => Ok(resumed_last(events, root)),
        Err(fault) => Err(fault),
    }
}

/// The bytes of an instance's memory.
fn memory_of(set: &Set, instance: u32) -> &[u8]
    ensures { result.now ≡ memory_at set.now.state.memories instance }
{
    match set.memory(instance) {
        Some(memory) => memory,
        None => &[],
    }
}

/// What a host gets of its results.
fn get(
    alloc: Global,
    memory: &[u8],
    results: &HostTypes,
    slots: &[CoreValue],
) -> Result<Vec<Value>, CallFault>
    ensures gets { IfOk result (λ vs. Gets memory.now results.now slots.now
        (parts (values_of vs.items))) }
    ensures after { IfErr result (λ e. IsBefore e → ⊥) }
    ensures no_trap { IfErr result (λ e. (t : Trap) → e ≡ CallFault.Trapped t → ⊥) }
{
    match lift_values(alloc, memory, results, slots) {
        Ok(values) => Ok(values),
        Err(fault) => Err(CallFault::Results(fault)),
    }
}

/// Where results stand: at their place, or in the core values of the last resumption.
fn slots_of(place: &Flat, resumed: Flat) -> Flat
    ensures { result ≡ result_slots place.now resumed }
{
    if place.as_slice().is_empty() {
        resumed
    } else {
        place.copied()
    }
}

impl<'b, 'a> Seat<'b, 'a> {
    /// Plays a root call of the seat's instance, by these moves, and answers the core values with
    /// which it went on last.
    fn play<S: Service, G: SeeingGuest>(
        &self,
        alloc: Global,
        set: &mut Set,
        seats: &mut Vec<Option<Played<S, G>>>,
        caller: Caller,
        limit: u64,
    ) -> Result<Flat, CallFault>
        ensures ended { IfOk result (λ f. HasEnded ⟦<Played<S, G> as SeeingGuest>⟧.plays
            (instance_of self.now) limit (moves_of caller) set.old seats.old.items Event.Ended
            set.new seats.new.items f) }
        ensures trapped { IfErr result (λ e. (t : Trap) → e ≡ CallFault.Trapped t
            → (f : List CoreValue) × HasEnded ⟦<Played<S, G> as SeeingGuest>⟧.plays
            (instance_of self.now) limit (moves_of caller) set.old seats.old.items
            (Event.Trapped t) set.new seats.new.items f) }
        ensures after { IfErr result (λ e. IsBefore e → ⊥) }
    {
        let instance = self.instance;
        sit(seats, instance, caller)?;
        match Player::drive_seeing(alloc, set, seats, instance, limit) {
            Ok(events) => came_to(&events, instance),
            Err(Misuse::Memory) => Err(CallFault::Memory),
            Err(misuse) => Err(CallFault::Misuse(misuse)),
        }
    }

    /// Calls a function that the seat's component imports, by its name, with these arguments, and
    /// answers its results: one value where it has a result, else none. A handle is its index in
    /// the table of the seat, of the type u32. The instance's own guest is replaced by one that
    /// makes the call; the guests of the others play, with `limit` moves in all at most, whose
    /// events are kept until the call is over.
    ///
    /// `NoFunction` where the component imports and lowers no function of this name, `NotUtf8`
    /// where it passes strings in another encoding, `Arguments` where the arguments are not passed
    /// (`lower_values` says which fault comes when): set and seats are unchanged then. Else
    /// `Misuse` where the machine does not begin the call, or the seat has no place among the
    /// seats; `Trapped` where the call trapped, `Limit` where it was not over after so many moves,
    /// `Results` where the core values of the result denote no values. `Memory` comes where there
    /// is no memory.
    pub fn call<S: Service, G: SeeingGuest>(
        &self,
        alloc: Global,
        set: &mut Set,
        seats: &mut Vec<Option<Played<S, G>>>,
        name: &str,
        args: &[Value],
        limit: u64,
    ) -> Result<Vec<Value>, CallFault>
        ensures answered { IfOk result (λ vs. WasAnswered ⟦<Played<S, G> as SeeingGuest>⟧.plays
            self.now name.now (parts (values_of args.now)) limit set.old seats.old.items set.new
            seats.new.items (parts (values_of vs.items))) }
        ensures trapped { IfErr result (λ e. (t : Trap) → e ≡ CallFault.Trapped t
            → WasCalled ⟦<Played<S, G> as SeeingGuest>⟧.plays self.now name.now
            (parts (values_of args.now)) limit set.old seats.old.items (Event.Trapped t) set.new
            seats.new.items) }
        ensures unchanged { IfErr result (λ e. IsBefore e
            → (set.new ≡ set.old) × (seats.new.items ≡ seats.old.items)) }
    {
        let func = self.imported(alloc, name)?;
        let ready = lower_call(alloc, &func, args)?;
        let memory = memory_of(set, self.instance).len();
        let queue = queue_of(alloc, func.core_func, &ready, memory)?;
        let caller = Caller::new(alloc, ready.regions, queue);
        let resumed = match self.play(alloc, set, seats, caller, limit) {
            Ok(resumed) => resumed,
            Err(fault) => return Err(fault),
        };
        let slots = slots_of(&ready.place, resumed);
        get(
            alloc,
            memory_of(set, self.instance),
            &func.results,
            slots.as_slice(),
        )
    }

    /// Calls one of the core functions that make, tell and drop handles with a number, and answers
    /// what it answers: an index, a representation, or nothing.
    ///
    /// `Misuse` where the machine does not begin the call, or the seat has no place among the
    /// seats; `Trapped` where the call trapped, `Limit` where it was not over after so many moves,
    /// `Memory` where there is no memory.
    pub fn ask<S: Service, G: SeeingGuest>(
        &self,
        alloc: Global,
        set: &mut Set,
        seats: &mut Vec<Option<Played<S, G>>>,
        func: u32,
        number: u32,
        limit: u64,
    ) -> Result<Option<u32>, CallFault>
        ensures answered { IfOk result (λ n. WasAsked ⟦<Played<S, G> as SeeingGuest>⟧.plays
            self.now func number limit set.old seats.old.items Event.Ended set.new
            seats.new.items n) }
        ensures trapped { IfErr result (λ e. (t : Trap) → e ≡ CallFault.Trapped t
            → (n : Option ℕ) × WasAsked ⟦<Played<S, G> as SeeingGuest>⟧.plays self.now func
            number limit set.old seats.old.items (Event.Trapped t) set.new seats.new.items n) }
    {
        let queue = asking(alloc, func, number)?;
        let caller = Caller::new(alloc, ALL_ROOM, queue);
        match self.play(alloc, set, seats, caller, limit) {
            Ok(resumed) => Ok(number_answered(resumed.as_slice())),
            Err(fault) => Err(fault),
        }
    }
}

/// The moves of a root that calls a core function with a number.
fn asking(alloc: Global, func: u32, number: u32) -> Result<MoveQueue, AllocError>
    ensures { IfOk result (λ q. Asks func number q.moves.items) }
{
    let mut queue = MoveQueue::new(alloc);
    queue.push(Move::call(alloc, func, &[CoreValue::I32(number)])?)?;
    queue.push(Move::ret(alloc, &[])?)?;
    Ok(queue)
}

/// What a core function of handles answered, where that is a number.
fn number_answered(values: &[CoreValue]) -> Option<u32>
    ensures { result ≡ number_answered values.now }
{
    match values {
        [CoreValue::I32(number)] => Some(*number),
        _ => None,
    }
}
