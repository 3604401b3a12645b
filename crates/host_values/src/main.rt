//! A host in terms of values: records, a resource with a destructor, and calls at fault.
#![tactic(auto)]

use anyhow::Result;
use huxarte::hosts::{Answer, Played, Seat, Served, Service, Value};
use huxarte::stub::{caller_for, provider_for};
use huxarte::{Component, Linked, Set, decode, link, validate};
use std::alloc::{AllocError, Global};
use std::fs;

const STEP: &str = "example:records/points#move";

const START: &str = "example:counters/counter@1.2.0#[constructor]counter";

const TOTAL: &str = "example:counters/counter@1.2.0#total";

const COUNTER: &str = "example:counters/counter@1.2.0#counter";

/// Moves points and has counters; it knows what makes a counter's handle, and how many are gone.
#[derive(Drop)]
struct Library(Global, u32, u32);

impl Service for Library {
    fn serve(&mut self, key: u32, args: &[Value]) -> Result<Answer, AllocError> {
        match args {
            [Value::Fields(point), Value::Signed(by)] => match point.as_slice() {
                [Value::Signed(x), Value::Signed(y)] => {
                    let x = Value::Signed(x.saturating_add(*by));
                    let moved = vec![in self.0; x, Value::Signed(*y)]?;
                    Answer::one(self.0, Value::Fields(moved))
                }
                _ => Ok(Answer::Stop),
            },
            [Value::Unsigned(start)] if key == 1 => Ok(Answer::ask(self.1, *start)),
            [Value::Unsigned(rep)] if key == 2 => Answer::one(self.0, Value::Unsigned(*rep)),
            _ => {
                self.2 = self.2.saturating_add(1);
                Ok(Answer::none(self.0))
            }
        }
    }

    fn go_on(&mut self, _key: u32, index: u32) -> Result<Answer, AllocError> {
        Answer::one(self.0, Value::Unsigned(u64::from(index)))
    }
}

type Seats = Vec<Option<Played<Library>>>;

/// The library on the first seat, and nothing on the caller's yet.
fn seats(alloc: Global, linked: &Linked<'_>) -> Result<Seats> {
    let seat = Seat::of(alloc, linked, 0)?;
    let make = seat.resource(COUNTER).and_then(|funcs| funcs.make);
    let mut library = Served::new(alloc, Library(alloc, make.unwrap_or(0), 0));
    library.serve_all(&seat, &[STEP, START, TOTAL])?;
    library.serve_destructor(&seat, COUNTER, 3)?;
    Ok(vec![in alloc; Some(Played::Host(library)), None]?)
}

/// The first number among values, or in the record that they are; else 0.
fn number(values: &[Value]) -> i64 {
    match values {
        [Value::Unsigned(number)] => i64::try_from(*number).unwrap_or(0),
        [Value::Fields(fields)] => match fields.first() {
            Some(Value::Signed(number)) => *number,
            _ => 0,
        },
        _ => 0,
    }
}

/// A function's name, and the values that it is called with.
type Call = (&'static str, Vec<Value>);

/// Calls that move a point, start a counter, and ask for its total, once by no handle.
fn calls(alloc: Global) -> Result<Vec<Call>> {
    let point = Value::Fields(vec![in alloc; Value::Signed(1), Value::Signed(2)]?);
    let mut calls: Vec<Call> = Vec::new(alloc);
    calls.push((STEP, vec![in alloc; point, Value::Signed(3)]?))?;
    calls.push((START, vec![in alloc; Value::Unsigned(7)]?))?;
    calls.push((TOTAL, vec![in alloc; Value::Unsigned(1)]?))?;
    calls.push((TOTAL, vec![in alloc; Value::Bool(true)]?))?;
    Ok(calls)
}

/// Makes a call, and says what it came to.
fn told(
    alloc: Global,
    seat: &Seat<'_, '_>,
    set: &mut Set,
    seats: &mut Seats,
    call: &Call,
) -> Result<String> {
    let (name, args) = call;
    Ok(match seat.call(alloc, set, seats, name, args, 50) {
        Ok(values) => format!(in alloc; "{name}: {}", number(&values))?,
        Err(fault) => format!(in alloc; "{name}: {fault}")?,
    })
}

/// How many counters are gone.
fn gone(seats: &Seats) -> u32 {
    match seats.first() {
        Some(Some(Played::Host(library))) => library.service().2,
        _ => 0,
    }
}

/// Makes all calls, lets the counter go, and asks once more for its total, which traps.
fn tell_all(
    alloc: Global,
    seat: &Seat<'_, '_>,
    set: &mut Set,
    seats: &mut Seats,
) -> Result<Vec<String>> {
    let mut lines = Vec::new(alloc);
    for call in &calls(alloc)? {
        lines.push(told(alloc, seat, set, seats, call)?)?;
    }
    let drops = seat.resource(COUNTER).and_then(|funcs| funcs.let_go);
    seat.ask(alloc, set, seats, drops.unwrap_or(0), 1, 50)?;
    lines.push(format!(in alloc; "counters that are gone: {}", gone(seats))?)?;
    let again = (TOTAL, vec![in alloc; Value::Unsigned(1)]?);
    lines.push(told(alloc, seat, set, seats, &again)?)?;
    Ok(lines)
}

/// Plays a linked set of two hosts.
fn play(alloc: Global, linked: &Linked<'_>) -> Result<Vec<String>> {
    let mut set = Set::new(alloc, linked, &[0, 0])?;
    let mut seats = seats(alloc, linked)?;
    tell_all(alloc, &Seat::of(alloc, linked, 1)?, &mut set, &mut seats)
}

/// Links two hosts, and plays them.
fn run(alloc: Global, hosts: &[Component]) -> Result<Vec<String>> {
    let mut checked = Vec::new(alloc);
    for host in hosts {
        checked.push(validate(alloc, host)?)?;
    }
    play(alloc, &link(alloc, checked)?)
}

/// What serves the imports of components, and what calls that.
fn hosts(alloc: Global, users: &[Component]) -> Result<Vec<Component>> {
    let mut hosts = vec![in alloc; provider_for(alloc, users)?]?;
    let caller = caller_for(alloc, &hosts)?;
    hosts.push(caller)?;
    Ok(hosts)
}

fn main(rt: HostRuntime) -> Result<()> {
    let alloc = rt.alloc();
    let counters = decode(alloc, &fs::read(&rt, "counter-user.wasm")?)?;
    let points = decode(alloc, &fs::read(&rt, "records-imported.wasm")?)?;
    let users = vec![in alloc; counters, points]?;
    for line in &run(alloc, &hosts(alloc, &users)?)? {
        println!(rt; "{line}")?;
    }
    Ok(())
}
