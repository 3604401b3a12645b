//! What goes on, told by moves and events, as far as adapters write memory for it.

ghost use Rattle.std.specs.Prelude.{◌≡◌, ◌+◌, ◌<◌, ◌≤◌, [], ◌∷◌, false, length, reverse, slice_get};
ghost use Rattle.std.specs.Prelude.{MatchOption, None, OnErr, OnOk, OnSome, true};
ghost use Rattle.cm_machine.specs.cm_machine_model.Events.{is_last};
ghost use Rattle.cm_live.specs.Calls.{IsLatest, IsToldAfter, IsToldAtCall, IsToldAtReturn, calls};
ghost use Rattle.cm_live.specs.Calls.{calls_after, calls_after_call, calls_after_return, earlier};
ghost use Rattle.cm_live.specs.Calls.{latest_has_come, number_of, opens, opens_by, without_result};
ghost use Rattle.cm_live.specs.Kept.{CanKeep, CanKeepOne, KeepsNothing, gives_values, rooms};
ghost use Rattle.cm_live.specs.Rooms.{asking_after_move, asking_by, asking_by_event, latest_place};
ghost use Rattle.cm_live.specs.Rooms.{older, rooms_after_move, rooms_answered, rooms_left};
ghost use Rattle.cm_live.specs.Rooms.{rooms_told, told_by_return, with_place};

use crate::answer::Written;
use arrayvec::ArrayVec;
use cm_abi_model::Region;
use cm_machine::{Event, Flat, MAX_FRAMES, Move};
use cm_types::CoreValue;
use std::alloc::{AllocError, Global};
use std::mem;

/// What goes on above the root: a call or a destructor.
#[derive(Clone, Copy, Default)]
pub(crate) struct Call {
    /// The instance that called.
    pub(crate) caller: u32,
    /// Where it wants a result that goes by memory and has not come.
    pub(crate) result: Option<Region>,
}

/// What the receiver's allocator is asked for.
#[derive(Clone, Copy)]
pub(crate) struct Asking {
    /// The bytes of the room.
    pub(crate) size: u32,
    /// Whether it hands back the room that it was answered last.
    pub(crate) hands_back: bool,
}

/// What goes on above the root, the latest last; and of the value on its way what the receiver's
/// allocator is asked for, and the rooms that it answered.
#[derive(Drop)]
pub(crate) struct GoingsOn {
    alloc: Global,
    calls: ArrayVec<Call, MAX_FRAMES>,
    asking: Option<Asking>,
    rooms: Vec<Region>,
}

/// The number of a core value: 0 where it is none of 32 bits.
pub(crate) fn number_at(values: &[CoreValue], index: usize) -> u32
    ensures { result ≡ number_of (slice_get values.now index) }
{
    match values.get(index) {
        Some(CoreValue::I32(number)) => *number,
        Some(CoreValue::I64(_)) | None => 0,
    }
}

/// Whether a move is a return that gives core values.
fn gives_values(made: &Move) -> bool
    ensures { result ≡ gives_values made.now }
{
    match made {
        Move::Return { values } => values.len() > 0,
        Move::Call { .. } | Move::Write { .. } | Move::Grow { .. } | Move::Unreachable => false,
    }
}

/// What an allocator is asked for by these core values: an old room and its size, an alignment and
/// a size (CanonicalABI.md, `canonopt.realloc`).
fn asking_by(args: &[CoreValue]) -> Asking
    ensures { result ≡ asking_by args.now }
{
    Asking {
        size: number_at(args, 3),
        hands_back: number_at(args, 1) > 0,
    }
}

impl Call {
    /// The same call, whose result has come or is none.
    fn without_result(self) -> Call
        ensures { result ≡ without_result self }
    {
        Call {
            caller: self.caller,
            result: None,
        }
    }
}

impl GoingsOn {
    /// Nothing.
    pub(crate) fn new(alloc: Global) -> GoingsOn
        ensures calls { calls result ≡ [] }
        ensures asking { result.asking ≡ None }
        ensures rooms { rooms result ≡ [] }
    {
        GoingsOn {
            alloc,
            calls: ArrayVec::new(),
            asking: None,
            rooms: Vec::new(alloc),
        }
    }

    /// Makes room for what a move may have told: a return that gives core values may answer an
    /// allocator's room, and hand a result over. A refusal changes nothing.
    pub(crate) fn make_room(&mut self, made: &Move) -> Result<(), AllocError>
        ensures calls { self.new.calls ≡ self.old.calls }
        ensures asking { self.new.asking ≡ self.old.asking }
        ensures rooms { rooms self.new ≡ rooms self.old }
        ensures room { OnOk result (gives_values made.now ≡ true → CanKeep self.new) }
        ensures refused { OnErr result (gives_values made.now ≡ true) }
    {
        if gives_values(made) {
            self.rooms.reserve(2)
        } else {
            Ok(())
        }
    }

    /// Nothing goes on.
    pub(crate) fn clear(&mut self)
        ensures calls { calls self.new ≡ [] }
        ensures asking { self.new.asking ≡ None }
        ensures rooms { rooms self.new ≡ [] }
    {
        self.calls.clear();
        self.asking = None;
        self.rooms.clear();
    }

    /// Goes on after a move with this event, which is this call where it is one, and tells what
    /// adapters wrote.
    pub(crate) fn go_on(&mut self, call: Call, made: &Move, event: &Event) -> Written
        ensures calls { (opens_by made.now event.now ≡ true
            → length (calls self.old) < MAX_FRAMES)
            → calls self.new ≡ calls_after made.now event.now call (calls self.old) }
        ensures told { is_last event.now ≡ false
            → IsToldAfter made.now event.now (calls self.old) result.instance }
        ensures last { is_last event.now ≡ true
            → (self.new.asking ≡ None) × (rooms self.new ≡ []) × (result.regions.items ≡ []) }
        ensures asking { is_last event.now ≡ false
            → self.new.asking ≡ asking_after_move made.now event.now self.old.asking }
        ensures rooms { CanKeep self.old → is_last event.now ≡ false → rooms self.new
            ≡ rooms_after_move made.now event.now self.old.asking (rooms self.old) }
        ensures regions { CanKeep self.old → is_last event.now ≡ false
            → reverse result.regions.items
            ≡ rooms_told made.now event.now self.old.asking (rooms self.old) (calls self.old) }
        ensures same_rooms { KeepsNothing made.now self.old → is_last event.now ≡ false
            → rooms self.new
            ≡ rooms_after_move made.now event.now self.old.asking (rooms self.old) }
        ensures no_more { KeepsNothing made.now self.old → is_last event.now ≡ false
            → reverse result.regions.items
            ≡ rooms_told made.now event.now self.old.asking (rooms self.old) (calls self.old) }
    {
        if event.is_last() {
            self.clear();
            return self.nothing_in(0);
        }
        match made {
            Move::Call { .. } => self.after_call(call, event),
            Move::Return { values } => self.after_return(values, event),
            Move::Write { .. } | Move::Grow { .. } | Move::Unreachable => self.nothing_in(0),
        }
    }

    /// Goes on after a call that this event answers: so far adapters wrote nothing.
    fn after_call(&mut self, call: Call, event: &Event) -> Written
        ensures calls { (opens event.now ≡ true → length (calls self.old) < MAX_FRAMES)
            → calls self.new ≡ calls_after_call event.now call (calls self.old) }
        ensures told { IsToldAtCall event.now result.instance }
        ensures asking { self.new.asking ≡ asking_by_event event.now self.old.asking }
        ensures rooms { rooms self.new ≡ rooms self.old }
        ensures regions { result.regions.items ≡ [] }
    {
        match event {
            Event::Enter { instance, .. } => {
                self.open(call);
                self.nothing_in(*instance)
            }
            Event::Realloc { args, .. } => {
                self.open(call);
                self.asking = Some(asking_by(args.as_slice()));
                self.nothing_in(0)
            }
            Event::Dtor { .. } => {
                self.open(call.without_result());
                self.nothing_in(0)
            }
            Event::Done
            | Event::Grown(_)
            | Event::Resume { .. }
            | Event::PostReturn { .. }
            | Event::Trapped(_)
            | Event::Ended => self.nothing_in(0),
        }
    }

    /// One more call, for which there is room.
    fn open(&mut self, call: Call)
        ensures calls { length (calls self.old) < MAX_FRAMES
            → calls self.new ≡ call ∷ calls self.old }
        ensures asking { self.new.asking ≡ self.old.asking }
        ensures rooms { self.new.rooms ≡ self.old.rooms }
    {
        if self.calls.len() < MAX_FRAMES {
            self.calls.push(call);
        }
    }

    /// Takes the latest call away.
    fn take_latest(&mut self) -> Option<Call>
        ensures latest { MatchOption result
            ((calls self.old ≡ []) × (calls self.new ≡ []))
            (λ call. calls self.old ≡ call ∷ calls self.new) }
        ensures room { OnSome result (length (calls self.new) < MAX_FRAMES) }
        ensures asking { self.new.asking ≡ self.old.asking }
        ensures rooms { self.new.rooms ≡ self.old.rooms }
    {
        // Read first, so that the check knows how many there are at most.
        let _ = self.calls.is_full();
        self.calls.pop()
    }

    /// Goes on after a return of these values that this event answers, and tells what adapters
    /// wrote.
    fn after_return(&mut self, values: &[CoreValue], event: &Event) -> Written
        ensures calls { calls self.new ≡ calls_after_return event.now (calls self.old) }
        ensures told { IsToldAtReturn event.now (calls self.old) result.instance }
        ensures asking { self.new.asking ≡ asking_by_event event.now None }
        ensures rooms { CanKeep self.old → rooms self.new ≡ rooms_left event.now
            (rooms_answered self.old.asking values.now (rooms self.old)) }
        ensures regions { CanKeep self.old → reverse result.regions.items
            ≡ told_by_return event.now
            (rooms_answered self.old.asking values.now (rooms self.old)) (calls self.old) }
        ensures same_rooms { self.old.asking ≡ None
            → rooms self.new ≡ rooms_left event.now (rooms self.old) }
        ensures no_more { self.old.asking ≡ None → latest_place (calls self.old) ≡ None
            → reverse result.regions.items
            ≡ told_by_return event.now (rooms self.old) (calls self.old) }
    {
        self.take_answer(values);
        match event {
            Event::Enter { instance, .. } => self.tell(*instance),
            Event::Realloc { args, .. } => {
                self.asking = Some(asking_by(args.as_slice()));
                self.nothing_in(0)
            }
            Event::PostReturn { .. } => self.hand_over(),
            Event::Resume { .. } => self.end_latest(),
            Event::Done | Event::Grown(_) | Event::Dtor { .. } | Event::Trapped(_) | Event::Ended =>
                self.nothing_in(0),
        }
    }

    /// The allocator answers these values, if it was asked.
    fn take_answer(&mut self, values: &[CoreValue])
        ensures calls { self.new.calls ≡ self.old.calls }
        ensures asking { self.new.asking ≡ None }
        ensures rooms { CanKeep self.old → rooms self.new
            ≡ rooms_answered self.old.asking values.now (rooms self.old) }
        ensures room { CanKeep self.old → CanKeepOne self.new }
        ensures same_rooms { self.old.asking ≡ None → rooms self.new ≡ rooms self.old }
    {
        let Some(asking) = self.asking.take() else {
            return;
        };
        if asking.hands_back {
            self.drop_latest();
        }
        self.keep(Region {
            at: number_at(values, 0),
            size: asking.size,
        });
    }

    /// The latest room was handed back.
    fn drop_latest(&mut self)
        ensures calls { self.new.calls ≡ self.old.calls }
        ensures asking { self.new.asking ≡ self.old.asking }
        ensures rooms { rooms self.new ≡ older (rooms self.old) }
        ensures room { CanKeep self.old → CanKeep self.new }
    {
        let _old = self.rooms.pop();
    }

    /// Keeps a room, for which there is memory.
    fn keep(&mut self, room: Region)
        ensures calls { self.new.calls ≡ self.old.calls }
        ensures asking { self.new.asking ≡ self.old.asking }
        ensures rooms { CanKeepOne self.old → rooms self.new ≡ room ∷ rooms self.old }
        ensures room { CanKeep self.old → CanKeepOne self.new }
    {
        let _kept = self.rooms.push(room);
    }

    /// The result of the latest call was handed over; the call goes on.
    fn hand_over(&mut self) -> Written
        ensures calls { calls self.new ≡ latest_has_come (calls self.old) }
        ensures asking { self.new.asking ≡ self.old.asking }
        ensures rooms { rooms self.new ≡ [] }
        ensures told { IsLatest (calls self.old) result.instance }
        ensures regions { CanKeepOne self.old → reverse result.regions.items
            ≡ with_place (latest_place (calls self.old)) (rooms self.old) }
        ensures no_more { latest_place (calls self.old) ≡ None
            → reverse result.regions.items ≡ rooms self.old }
    {
        let Some(call) = self.take_latest() else {
            return self.tell(0);
        };
        self.open(call.without_result());
        self.tell_result(call)
    }

    /// The latest call ended; its result was handed over, if that had not come before.
    fn end_latest(&mut self) -> Written
        ensures calls { calls self.new ≡ earlier (calls self.old) }
        ensures asking { self.new.asking ≡ self.old.asking }
        ensures rooms { rooms self.new ≡ [] }
        ensures told { IsLatest (calls self.old) result.instance }
        ensures regions { CanKeepOne self.old → reverse result.regions.items
            ≡ with_place (latest_place (calls self.old)) (rooms self.old) }
        ensures no_more { latest_place (calls self.old) ≡ None
            → reverse result.regions.items ≡ rooms self.old }
    {
        match self.take_latest() {
            Some(call) => self.tell_result(call),
            None => self.tell(0),
        }
    }

    /// The rooms of a result that was handed over to a caller, and the place that it gave.
    fn tell_result(&mut self, call: Call) -> Written
        ensures calls { self.new.calls ≡ self.old.calls }
        ensures asking { self.new.asking ≡ self.old.asking }
        ensures rooms { rooms self.new ≡ [] }
        ensures told { result.instance ≡ call.caller }
        ensures regions { CanKeepOne self.old → reverse result.regions.items
            ≡ with_place call.result (rooms self.old) }
        ensures no_more { call.result ≡ None → reverse result.regions.items ≡ rooms self.old }
    {
        if let Some(place) = call.result {
            self.keep(place);
        }
        self.tell(call.caller)
    }

    /// The rooms of a value that was handed over, in the memory of its receiver.
    fn tell(&mut self, instance: u32) -> Written
        ensures calls { self.new.calls ≡ self.old.calls }
        ensures asking { self.new.asking ≡ self.old.asking }
        ensures rooms { rooms self.new ≡ [] }
        ensures told { result.instance ≡ instance }
        ensures regions { result.regions.items ≡ self.old.rooms.items }
    {
        Written {
            instance,
            regions: mem::replace(&mut self.rooms, Vec::new(self.alloc)),
        }
    }

    /// Adapters wrote nothing, told as nothing in this instance's memory.
    pub(crate) fn nothing_in(&self, instance: u32) -> Written
        ensures told { result.instance ≡ instance }
        ensures regions { result.regions.items ≡ [] }
    {
        Written {
            instance,
            regions: Vec::new(self.alloc),
        }
    }
}
