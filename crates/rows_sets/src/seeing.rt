//! Drives of guests that see their memory.

use crate::events::write_event;
use crate::sets::{read_move, read_moves, write_misuse, write_ran};
use cm_machine::{Bump, Event, Move, MoveQueue, Player, SeeingGuest, Set, WithAllocator};
use cm_rows::{Line, word, words_from};
use cm_types::CoreValue;
use std::alloc::Global;
use std::collections::VecDeque;

/// What a guest does at its turn.
#[derive(Drop)]
enum Turn {
    /// It makes this move.
    Makes(Move),
    /// It calls its core function 0 with the byte at this address of its memory, put into this
    /// list, which has room for it.
    Tells(usize, Vec<CoreValue>),
}

/// A guest that does this in order, and then stops.
#[derive(Drop)]
struct Teller {
    turns: VecDeque<Turn>,
}

/// A call with this byte, put into this list; stops where there is none.
fn call_with(byte: Option<u8>, mut args: Vec<CoreValue>) -> Move {
    let Some(byte) = byte else {
        return Move::Unreachable;
    };
    match args.push(CoreValue::I32(u32::from(byte))) {
        Ok(()) => Move::Call { func: 0, args },
        Err(_) => Move::Unreachable,
    }
}

impl SeeingGuest for Teller {
    ghost plays = { λ _ _. Unit {0} };

    fn next(&mut self, _seen: &Event, memory: &[u8]) -> Move {
        match self.turns.pop_front() {
            Some(Turn::Makes(made)) => made,
            Some(Turn::Tells(at, args)) => call_with(memory.get(at).copied(), args),
            None => Move::Unreachable,
        }
    }
}

/// The turns of a guest: moves, as lines of a script spell them, or `tell AT`.
fn read_turns(alloc: Global, words: &[&str], line: &mut Line) -> Vec<Turn> {
    let mut turns = Vec::new(alloc);
    for words in words.split(|word| *word == ";") {
        if word(words, 0) == "tell" {
            let at = line.number(word(words, 1));
            if let Some(args) = line.kept(Vec::with_capacity(alloc, 1)) {
                line.push(&mut turns, Turn::Tells(at, args));
            }
        } else if let Some(made) = read_move(alloc, words, line) {
            line.push(&mut turns, Turn::Makes(made));
        }
    }
    turns
}

/// A guest on a seat.
#[derive(Drop)]
enum Seated {
    Teller(Teller),
    Allocator(WithAllocator<Teller>),
    Queue(MoveQueue),
}

impl SeeingGuest for Seated {
    ghost plays = { λ _ _. Unit {0} };

    fn next(&mut self, seen: &Event, memory: &[u8]) -> Move {
        match self {
            Seated::Teller(guest) => guest.next(seen, memory),
            Seated::Allocator(guest) => guest.next(seen, memory),
            Seated::Queue(guest) => guest.take_next(),
        }
    }
}

/// A guest as a seat spells it: the turns of a guest; `alloc NEXT END ; TURN ; ..`, which answers
/// its allocator's calls by the regions of a range; or `queue MOVE ; ..`.
fn read_guest(alloc: Global, words: &[&str], line: &mut Line) -> Seated {
    match word(words, 0) {
        "alloc" => {
            let next = line.number(word(words, 1));
            let end = line.number(word(words, 2));
            let teller = read_teller(alloc, words_from(words, 4), line);
            Seated::Allocator(WithAllocator::new(alloc, Bump { next, end }, teller))
        }
        "queue" => Seated::Queue(read_queue(alloc, words_from(words, 1), line)),
        _ => Seated::Teller(read_teller(alloc, words, line)),
    }
}

fn read_teller(alloc: Global, words: &[&str], line: &mut Line) -> Teller {
    let turns = VecDeque::from(read_turns(alloc, words, line));
    Teller { turns }
}

fn read_queue(alloc: Global, words: &[&str], line: &mut Line) -> MoveQueue {
    let mut queue = MoveQueue::new(alloc);
    for made in read_moves(alloc, words, line) {
        line.kept(queue.push(made));
    }
    queue
}

fn read_seats(alloc: Global, words: &[&str], line: &mut Line) -> Vec<Option<Seated>> {
    let mut seats = Vec::new(alloc);
    for words in words.split(|word| *word == "|") {
        let guest = read_guest(alloc, words, line);
        line.push(&mut seats, Some(guest));
    }
    seats
}

/// Writes what a drive answers, `ROOT LIMIT SEAT | ..`: all its events at its end. Each guest is in
/// a box of its own.
pub fn write_seen(alloc: Global, set: &mut Set, words: &[&str], line: &mut Line) {
    let root = line.number(word(words, 0));
    let limit = line.number(word(words, 1));
    let mut seats: Vec<Option<Box<dyn SeeingGuest>>> = Vec::new(alloc);
    for words in words_from(words, 2).split(|word| *word == "|") {
        let seated = read_guest(alloc, words, line);
        if let Some(made) = line.kept(Box::new(alloc, seated)) {
            let guest: Box<dyn SeeingGuest> = made;
            line.push(&mut seats, Some(guest));
        }
    }
    if !line.is_fine() {
        return;
    }
    write_ran(
        line,
        Player::drive_seeing(alloc, set, &mut seats, root, limit),
    );
}

/// Writes the same, each event as it comes.
pub fn write_heard(alloc: Global, set: &mut Set, words: &[&str], line: &mut Line) {
    let root = line.number(word(words, 0));
    let limit = line.number(word(words, 1));
    let mut seats = read_seats(alloc, words_from(words, 2), line);
    if !line.is_fine() {
        return;
    }
    let mut is_behind = false;
    let answer = Player::drive_telling(set, &mut seats, root, limit, |event| {
        if is_behind {
            line.put("; ");
        }
        is_behind = true;
        write_event(line, event);
    });
    if let Err(misuse) = answer {
        write_misuse(line, misuse);
    }
}
