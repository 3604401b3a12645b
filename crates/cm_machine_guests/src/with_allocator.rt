//! A guest whose allocator is written already.

ghost use Rattle.std.specs.Prelude.{◌≡◌, false, is_some};
ghost use Rattle.cm_machine_guests.specs.Allocating.{PlaysLeft, grows, left_to_guest};

use crate::bump::{Bump, Room};
use crate::seeing_guest::SeeingGuest;
use cm_machine_model::{Event, Move};
use cm_types::CoreValue;
use std::alloc::Global;

/// A request for a region, as an allocator gets it.
#[derive(Clone, Copy)]
struct Request {
    size: u32,
    align: u32,
}

/// A guest that answers its allocator's calls by itself, and leaves everything else to another one.
///
/// It gives out the regions of a range of its memory, which it lets grow as far as they need. Where
/// there is no room, it stops. The other guest never sees `Event::Realloc`, nor what a growth of
/// this one's asking led to; it plays all that is left.
#[derive(Drop)]
pub struct WithAllocator<G> {
    alloc: Global,
    regions: Bump,
    /// The request that waits for the memory to grow.
    waiting: Option<Request>,
    guest: G,
}

impl<G: SeeingGuest> WithAllocator<G> {
    /// A guest that gives out these regions, and is `guest` in everything else. No request waits.
    pub fn new(alloc: Global, regions: Bump, guest: G) -> WithAllocator<G>
        ensures regions { result.regions ≡ regions }
        ensures waits { is_some result.waiting ≡ false }
        ensures guest { result.guest ≡ guest }
    {
        WithAllocator {
            alloc,
            regions,
            waiting: None,
            guest,
        }
    }

    /// The move that answers a request, in a memory of so many bytes, where none waits.
    fn answer(&mut self, request: Request, bytes: usize) -> Move
        requires { is_some self.old.waiting ≡ false }
        ensures waits { is_some self.new.waiting ≡ grows result }
        ensures guest { self.new.guest ≡ self.old.guest }
    {
        match self.regions.allocate(request.size, request.align, bytes) {
            Room::At(at) => returns(self.alloc, at),
            Room::Grow(pages) => {
                self.waiting = Some(request);
                Move::Grow { pages }
            }
            Room::Full => Move::Unreachable,
        }
    }
}

/// The request that an allocator's arguments are: the old pointer, the old size, the alignment, the
/// size.
fn request_of(args: &[CoreValue]) -> Option<Request> {
    match args {
        [_, _, CoreValue::I32(align), CoreValue::I32(size)] => Some(Request {
            size: *size,
            align: *align,
        }),
        _ => None,
    }
}

/// Returns an address; stops where there is no memory for the move.
fn returns(alloc: Global, at: u32) -> Move
    ensures { grows result ≡ false }
{
    Move::ret(alloc, &[CoreValue::I32(at)]).unwrap_or(Move::Unreachable)
}

impl<G: SeeingGuest> SeeingGuest for WithAllocator<G> {
    // Where its regions are is `Bump`'s to say.
    ghost plays = { λ g told.
        PlaysLeft G.plays g.guest (left_to_guest (is_some g.waiting) told) };

    fn next(&mut self, seen: &Event, memory: &[u8]) -> Move {
        let request = match (seen, self.waiting.take()) {
            (Event::Realloc { args, .. }, _) => request_of(args.as_slice()),
            (Event::Grown(pages), Some(request)) => pages.and(Some(request)),
            _ => return self.guest.next(seen, memory),
        };
        match request {
            Some(request) => self.answer(request, memory.len()),
            None => Move::Unreachable,
        }
    }
}
