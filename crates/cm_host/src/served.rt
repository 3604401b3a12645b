//! A guest whose functions are those of a service.

ghost use Rattle.std.specs.Prelude.{◌≡◌, ◌⊎◌, [], ◌∷◌, ◌++◌, OnErr, OnOk, Some, slice_get};
ghost use Rattle.cm_types.specs.Types.{FuncTy};
ghost use Rattle.cm_machine.specs.cm_machine_model.Moves.{ReturnsWith};
ghost use Rattle.cm_host.specs.Seats.{ArePassedBy, Exports, service_of};
ghost use Rattle.cm_host.specs.Serving.{Answers, DestroysBy, EntersAt, GoesOn, IsFollowed, Serves};
ghost use Rattle.cm_host.specs.Serving.{destructor_at, place_of, served_by};

use crate::answer::Answer;
use crate::fault::{SeatFault, ServeFault};
use crate::playing::{Playing, returns};
use crate::seat::{HostFunc, Seat};
use crate::service::Service;
use crate::writing::ALL_ROOM;
use cm_host_values::lift_values;
use cm_machine::{Event, Move, SeeingGuest};
use cm_types::{CoreValue, Value};
use std::alloc::{AllocError, Global};

/// A function that is served, with its key.
#[derive(Drop)]
pub(crate) struct Entry {
    pub(crate) func: HostFunc,
    pub(crate) key: u32,
}

/// A destructor that is served, with its key.
#[derive(Clone, Copy)]
pub(crate) struct Destructor {
    core_func: u32,
    key: u32,
}

/// A guest whose functions are those of a service: it plays the seat of a component that stands in
/// for a host. Its memory is given out anew for each call. What is not served, and what can't be
/// passed, traps.
///
/// Contracts see each of its turns as what its service got and what became of the answer: `Serves`.
#[derive(Drop)]
pub struct Served<S> {
    alloc: Global,
    service: S,
    entries: Vec<Entry>,
    destructors: Vec<Destructor>,
    playing: Playing,
}

/// The place of the first entry of a core function.
fn place_of(entries: &[Entry], core_func: u32) -> Option<usize>
    ensures { result ≡ place_of entries.now core_func }
{
    entries
        .iter()
        .position(|entry| entry.func.core_func == core_func)
}

/// The place of the first destructor that is served of a core function.
fn destructor_at(destructors: &[Destructor], core_func: u32) -> Option<usize>
    ensures { result ≡ destructor_at destructors.now core_func }
{
    destructors
        .iter()
        .position(|destructor| destructor.core_func == core_func)
}

/// The number that a call of a function of handles came to: 0 where it comes to none.
fn number_of(values: &[CoreValue]) -> u32 {
    match values {
        [CoreValue::I32(number)] => *number,
        _ => 0,
    }
}

impl<S: Service> Served<S> {
    /// A guest that serves nothing of this service yet.
    pub fn new(alloc: Global, service: S) -> Served<S>
        ensures service { service_of result ≡ service }
        ensures none { served_by result ≡ [] }
    {
        Served {
            alloc,
            service,
            entries: Vec::new(alloc),
            destructors: Vec::new(alloc),
            playing: Playing::new(alloc, ALL_ROOM),
        }
    }

    /// The service, as its functions left it.
    pub fn service(&self) -> &S
        ensures { result.now ≡ service_of self.now }
    {
        &self.service
    }

    /// Serves a function that the seat's component exports under a name, by the service's function
    /// of this key. What was said first of a function holds.
    ///
    /// `NoFunction` where the component exports no function of its own under the name, `NotUtf8`
    /// where it passes strings in another encoding, `Memory` where there is no memory; nothing is
    /// served then that was not.
    pub fn serve(&mut self, seat: &Seat<'_, '_>, name: &str, key: u32) -> Result<(), SeatFault>
        ensures ok { OnOk result ((e : Entry) × (ty : FuncTy) × (e.key ≡ key)
            × Exports seat.now name.now e.func.core_func ty
            × ArePassedBy ty e.func.params e.func.results
            × (served_by self.new ≡ served_by self.old ++ e ∷ [])) }
        ensures service { service_of self.new ≡ service_of self.old }
        ensures err { OnErr result (served_by self.new ≡ served_by self.old) }
    {
        let func = seat.exported(self.alloc, name)?;
        self.entries.push(Entry { func, key })?;
        Ok(())
    }

    /// Serves functions that the seat's component exports under these names, each by the service's
    /// function whose key is its place in the list, from 0. Where one is at fault, those before it
    /// are served; the faults are those of `serve`.
    pub fn serve_all(&mut self, seat: &Seat<'_, '_>, names: &[&str]) -> Result<(), SeatFault> {
        let mut key: u32 = 0;
        for name in names {
            self.serve(seat, name, key)?;
            key = key.saturating_add(1);
        }
        Ok(())
    }

    /// Serves the destructor of a resource that the seat's component exports under a name: the
    /// service's function of this key gets the representation, and answers nothing.
    ///
    /// `NoFunction` where the component exports no resource of its own with a destructor under the
    /// name, `Memory` where there is no memory; nothing is served then that was not.
    pub fn serve_destructor(
        &mut self,
        seat: &Seat<'_, '_>,
        name: &str,
        key: u32,
    ) -> Result<(), SeatFault>
        ensures functions { served_by self.new ≡ served_by self.old }
        ensures service { service_of self.new ≡ service_of self.old }
    {
        let Some(found) = seat.resource(name) else {
            return Err(SeatFault::NoFunction);
        };
        let Some(core_func) = found.destructor else {
            return Err(SeatFault::NoFunction);
        };
        self.destructors.push(Destructor { core_func, key })?;
        Ok(())
    }

    /// The move by which the answer of the function at a place is followed. Where it is not passed,
    /// the service is told why.
    fn follow(&mut self, place: usize, answer: Result<Answer, AllocError>, memory: usize) -> Move
        ensures followed { (e : Entry) → slice_get self.old.entries.items place ≡ Some e
            → IsFollowed place e.func.results answer result self.new.playing self.old.service
            self.new.service }
        ensures entries { self.new.entries ≡ self.old.entries }
        ensures destructors { self.new.destructors ≡ self.old.destructors }
    {
        let Some(entry) = self.entries.get(place) else {
            return Move::Unreachable;
        };
        match self.playing.follow(place, &entry.func, &answer, memory) {
            Ok(made) => made,
            Err(fault) => {
                self.service.refused(entry.key, ServeFault::Values(fault));
                Move::Unreachable
            }
        }
    }

    /// The first move of a body that begins, of the function at a place.
    fn enter_at(&mut self, place: usize, slots: &[CoreValue], memory: &[u8]) -> Move
        ensures enters { EntersAt S.does self.old (Some place) slots.now memory.now result
            self.new }
        ensures entries { self.new.entries ≡ self.old.entries }
        ensures destructors { self.new.destructors ≡ self.old.destructors }
    {
        let Some(entry) = self.entries.get(place) else {
            return Move::Unreachable;
        };
        match lift_values(self.alloc, memory, &entry.func.params, slots) {
            Ok(args) => {
                let answer = self.service.serve(entry.key, &args);
                self.follow(place, answer, memory.len())
            }
            Err(fault) => {
                self.service
                    .refused(entry.key, ServeFault::Arguments(fault));
                Move::Unreachable
            }
        }
    }

    /// The first move of a body that begins.
    fn enter(&mut self, core_func: u32, slots: &[CoreValue], memory: &[u8]) -> Move
        ensures enters { EntersAt S.does self.old (place_of self.old.entries.items core_func)
            slots.now memory.now result self.new }
        ensures entries { self.new.entries ≡ self.old.entries }
        ensures destructors { self.new.destructors ≡ self.old.destructors }
    {
        self.playing.begin();
        match place_of(&self.entries, core_func) {
            Some(place) => self.enter_at(place, slots, memory),
            None => Move::Unreachable,
        }
    }

    /// The move behind what a function asked, which came to these core values.
    fn resume(&mut self, values: &[CoreValue], memory: usize) -> Move
        ensures goes { GoesOn self.old self.old.playing.asking result self.new }
        ensures entries { self.new.entries ≡ self.old.entries }
        ensures destructors { self.new.destructors ≡ self.old.destructors }
    {
        let Some(place) = self.playing.asking.take() else {
            return returns(self.alloc, &[]);
        };
        let Some(entry) = self.entries.get(place) else {
            return Move::Unreachable;
        };
        let answer = self.service.go_on(entry.key, number_of(values));
        self.follow(place, answer, memory)
    }

    /// Hands a representation to the destructor at a place.
    fn destroy_at(&mut self, place: usize, rep: u32)
        ensures destroys { DestroysBy S.does self.old (Some place) rep self.new }
        ensures entries { self.new.entries ≡ self.old.entries }
        ensures destructors { self.new.destructors ≡ self.old.destructors }
    {
        if let Some(destructor) = self.destructors.get(place) {
            let _ = self
                .service
                .serve(destructor.key, &[Value::Unsigned(u64::from(rep))]);
        }
    }

    /// The move of a destructor that begins.
    fn destroy(&mut self, core_func: u32, rep: u32) -> Move
        ensures destroys { DestroysBy S.does self.old
            (destructor_at self.old.destructors.items core_func) rep self.new }
        ensures returns { ReturnsWith [] result ⊎ (result ≡ Move.Unreachable) }
        ensures entries { self.new.entries ≡ self.old.entries }
        ensures destructors { self.new.destructors ≡ self.old.destructors }
    {
        if let Some(place) = destructor_at(&self.destructors, core_func) {
            self.destroy_at(place, rep);
        }
        returns(self.alloc, &[])
    }

    /// The move behind a request or a growth: the next one of those that are left where it is none
    /// of the allocator's.
    fn allocate(&mut self, seen: &Event, memory: usize) -> Move
        ensures service { self.new.service ≡ self.old.service }
        ensures entries { self.new.entries ≡ self.old.entries }
        ensures destructors { self.new.destructors ≡ self.old.destructors }
    {
        match self.playing.allocator_move(seen, memory) {
            Some(made) => made,
            None => self.playing.next_move(),
        }
    }

    /// The move that the guest makes where this was the last event, with these bytes of its
    /// instance's memory.
    fn turn(&mut self, seen: &Event, memory: &[u8]) -> Move
        ensures answers { Answers S.does self.old seen.now memory.now result self.new }
        ensures entries { self.new.entries ≡ self.old.entries }
        ensures destructors { self.new.destructors ≡ self.old.destructors }
    {
        match seen {
            Event::Enter { func, args, .. } => self.enter(*func, args.as_slice(), memory),
            Event::Resume { values, .. } => self.resume(values.as_slice(), memory.len()),
            Event::Realloc { .. } | Event::Grown(_) => self.allocate(seen, memory.len()),
            Event::Done => self.playing.next_move(),
            Event::PostReturn { .. } => returns(self.alloc, &[]),
            Event::Dtor { func, rep, .. } => self.destroy(*func, *rep),
            Event::Trapped(_) | Event::Ended => Move::Unreachable,
        }
    }
}

impl<S: Service> SeeingGuest for Served<S> {
    ghost plays = { λ g told. Serves S.does g told };

    fn next(&mut self, seen: &Event, memory: &[u8]) -> Move {
        self.turn(seen, memory)
    }
}
