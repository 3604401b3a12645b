//! What a guest that serves has at hand while it plays: regions, and moves that are to come.

ghost use Rattle.std.specs.Prelude.{◌≡◌, ◌⊎◌, ◌∷◌, false, is_some, IfOk, MatchOption};
ghost use Rattle.cm_types.specs.Values.{parts};
ghost use Rattle.cm_types.specs.ValueTrees.{values_of};
ghost use Rattle.cm_machine.specs.cm_machine_guests.Allocating.{grows, is_of_allocator};
ghost use Rattle.cm_machine.specs.cm_machine_guests.Moves.{IsNext};
ghost use Rattle.cm_machine.specs.cm_machine_model.Moves.{ReturnsWith};
ghost use Rattle.cm_host.specs.Passing.{IsReturnOf, Returns};
ghost use Rattle.cm_host.specs.Serving.{Follows};

use crate::answer::Answer;
use crate::seat::HostFunc;
use crate::writing::{ALL_ROOM, push_writes};
use cm_host_values::{Lowered, ValuesFault, lower_values};
use cm_machine::{Bump, Event, Move, Room};
use cm_types::{CoreValue, Value};
use std::alloc::{AllocError, Global};
use std::collections::VecDeque;

/// A request for a region, as an allocator gets it.
#[derive(Clone, Copy)]
pub(crate) struct Wanted {
    size: u32,
    align: u32,
}

/// What a guest that serves has at hand while it plays.
#[derive(Drop)]
pub(crate) struct Playing {
    alloc: Global,
    regions: Bump,
    /// Whether the last call's body has returned, so that its regions are free.
    is_over: bool,
    /// The request that waits for the memory to grow.
    pub(crate) waiting: Option<Wanted>,
    /// The place of the function that asked for a handle.
    pub(crate) asking: Option<usize>,
    /// The moves that are to be made next.
    moves: VecDeque<Move>,
}

/// The request that an allocator's arguments are.
fn wanted_of(args: &[CoreValue]) -> Option<Wanted> {
    match args {
        [_, _, CoreValue::I32(align), CoreValue::I32(size)] => Some(Wanted {
            size: *size,
            align: *align,
        }),
        _ => None,
    }
}

/// Returns these core values; stops where there is no memory for the move.
pub(crate) fn returns(alloc: Global, values: &[CoreValue]) -> Move
    ensures returns { ReturnsWith values.now result ⊎ (result ≡ Move.Unreachable) }
    ensures stays { grows result ≡ false }
{
    Move::ret(alloc, values).unwrap_or(Move::Unreachable)
}

/// The moves that return values, in a memory of so many bytes.
fn returning(alloc: Global, lowered: &Lowered, memory: usize) -> Result<VecDeque<Move>, AllocError>
    ensures { IfOk result (λ moves. IsReturnOf lowered.now moves.items) }
{
    let mut moves = VecDeque::new(alloc);
    push_writes(alloc, &mut moves, lowered, memory)?;
    moves.push_back(Move::ret(alloc, &lowered.slots)?)?;
    Ok(moves)
}

impl Playing {
    /// Nothing is under way, and these regions may be given out.
    pub(crate) fn new(alloc: Global, regions: Bump) -> Playing
        ensures { is_some result.waiting ≡ false }
    {
        Playing {
            alloc,
            regions,
            is_over: false,
            waiting: None,
            asking: None,
            moves: VecDeque::new(alloc),
        }
    }

    /// A new call begins: regions are given out anew where the last one is over.
    pub(crate) fn begin(&mut self)
        ensures waiting { self.new.waiting ≡ self.old.waiting }
        ensures asking { self.new.asking ≡ self.old.asking }
    {
        if self.is_over {
            self.regions = ALL_ROOM;
            self.is_over = false;
        }
    }

    /// The move that answers a request, in a memory of so many bytes, where none waits.
    fn allocate(&mut self, wanted: Wanted, memory: usize) -> Move
        requires { is_some self.old.waiting ≡ false }
        ensures { is_some self.new.waiting ≡ grows result }
    {
        match self.regions.allocate(wanted.size, wanted.align, memory) {
            Room::At(at) => returns(self.alloc, &[CoreValue::I32(at)]),
            Room::Grow(pages) => {
                self.waiting = Some(wanted);
                Move::Grow { pages }
            }
            Room::Full => Move::Unreachable,
        }
    }

    /// The next of the moves that are left.
    pub(crate) fn next_move(&mut self) -> Move
        ensures { IsNext self.old.moves.items result self.new.moves.items }
    {
        match self.moves.pop_front() {
            Some(made) => made,
            None => Move::Unreachable,
        }
    }

    /// The move that the allocator makes, in a memory of so many bytes; none where the event is not
    /// its own: no request, and no growth that a request waited for.
    pub(crate) fn allocator_move(&mut self, seen: &Event, memory: usize) -> Option<Move>
        ensures own { is_some result ≡ is_of_allocator (is_some self.old.waiting) seen.now }
        ensures waits { MatchOption result (is_some self.new.waiting ≡ false)
            (λ made. is_some self.new.waiting ≡ grows made) }
    {
        let wanted = match (seen, self.waiting.take()) {
            (Event::Realloc { args, .. }, _) => wanted_of(args.as_slice()),
            (Event::Grown(pages), Some(wanted)) => pages.and(Some(wanted)),
            _ => return None,
        };
        self.begin();
        match wanted {
            Some(wanted) => Some(self.allocate(wanted, memory)),
            None => Some(Move::Unreachable),
        }
    }

    /// The first move by which values are returned, in a memory of so many bytes; stops where
    /// there is no memory for the moves.
    fn give(
        &mut self,
        func: &HostFunc,
        values: &[Value],
        memory: usize,
    ) -> Result<Move, ValuesFault>
        ensures { IfOk result (λ made. (made ≡ Move.Unreachable)
            ⊎ Returns func.now.results (parts (values_of values.now))
            (made ∷ self.new.moves.items)) }
    {
        func.results.has_no_handles();
        let lowered = lower_values(self.alloc, &func.results, values, &mut self.regions)?;
        self.is_over = true;
        match returning(self.alloc, &lowered, memory) {
            Ok(moves) => {
                self.moves = moves;
                Ok(self.next_move())
            }
            Err(AllocError) => Ok(Move::Unreachable),
        }
    }

    /// The first move by which the answer of the function at a place is followed, in a memory of
    /// so many bytes.
    pub(crate) fn follow(
        &mut self,
        place: usize,
        func: &HostFunc,
        answer: &Result<Answer, AllocError>,
        memory: usize,
    ) -> Result<Move, ValuesFault>
        ensures { IfOk result (λ made. (made ≡ Move.Unreachable)
            ⊎ Follows place func.now.results answer.now made self.new) }
    {
        match answer {
            Ok(Answer::Values(values)) => self.give(func, values, memory),
            Ok(Answer::Ask { func, number }) => {
                self.asking = Some(place);
                let made = Move::call(self.alloc, *func, &[CoreValue::I32(*number)]);
                Ok(made.unwrap_or(Move::Unreachable))
            }
            Ok(Answer::Stop) | Err(_) => Ok(Move::Unreachable),
        }
    }
}
