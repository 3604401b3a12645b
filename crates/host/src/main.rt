//! A host: it loads two components as one set, and runs them with guests of its own.
#![tactic(auto)]

use anyhow::Result;
use huxarte::{CoreValue, Event, Guest, Move, Player, Set, load};
use std::alloc::Global;
use std::fs;

/// A guest that adds one: where it is entered with a number, it answers the next one. As the root
/// it calls its core function 0 with 41, and then returns. Where it has no memory for a move, it
/// stops.
#[derive(Drop)]
struct AddOne(Global);

impl Guest for AddOne {
    // Nothing is promised of what it does: what is proved of the machine holds all the same.
    ghost plays = { λ _ _. Unit {0} };

    fn next(&mut self, seen: &Event) -> Move {
        let made = match (seen, seen.values().as_slice()) {
            (Event::Enter { .. }, [CoreValue::I32(x)]) => {
                Move::ret(self.0, &[CoreValue::I32(x.wrapping_add(1))])
            }
            (Event::Resume { .. }, []) => Move::call(self.0, 0, &[CoreValue::I32(41)]),
            _ => Move::ret(self.0, &[]),
        };
        made.unwrap_or(Move::Unreachable)
    }
}

/// Drives instance 1 as the root, for a hundred moves at most.
fn drive(alloc: Global, set: &mut Set) -> Result<Vec<Event>> {
    let adds: Box<dyn Guest> = Box::new(alloc, AddOne(alloc))?;
    let calls: Box<dyn Guest> = Box::new(alloc, AddOne(alloc))?;
    let mut seats = Vec::from_array(alloc, [Some(adds), Some(calls)])?;
    Ok(Player::drive(alloc, set, &mut seats, 1, 100)?)
}

fn main(rt: HostRuntime) -> Result<()> {
    let provider = fs::read(&rt, "provider.wasm")?;
    let user = fs::read(&rt, "user.wasm")?;
    let mut set = load(rt.alloc(), &[&provider, &user], &[0, 0])?;
    for event in &drive(rt.alloc(), &mut set)? {
        println!(rt; "{event}")?;
    }
    Ok(())
}
