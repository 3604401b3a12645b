//! Playing a script on a set.

use cm_machine::{Event, Guest, Misuse, Player, Set};
use cm_tool_commands::{Drive, Fault, Outcome, Script, ScriptGuest, report, write_event};
use std::alloc::Global;
use std::io;
use std::io::Write;

/// Plays each drive of a script, in order, for so many moves at most, and prints its events. A
/// drive that is refused or that reaches its limit has a line on standard error, and the later ones
/// run.
pub fn play<O: Write, E: Write>(
    alloc: Global,
    set: &mut Set,
    script: Script,
    limit: u64,
    out: &mut O,
    err: &mut E,
) -> Result<Outcome, Fault> {
    let Script {
        pages: _,
        moves,
        begins,
    } = script;
    let components = moves.len();
    let mut seats: Vec<Option<Box<dyn Guest>>> = Vec::with_capacity(alloc, moves.len())?;
    for moves in moves {
        let guest: Box<dyn Guest> = Box::new(alloc, ScriptGuest::new(moves))?;
        seats.push(Some(guest))?;
    }
    let mut worst = Outcome::Done;
    for (index, root) in begins.into_iter().enumerate() {
        let drive = Drive {
            index,
            root,
            components,
        };
        let played = Player::drive(alloc, set, &mut seats, root, limit);
        worst = worst.max(tell_of_drive(played, drive, limit, out, err)?);
    }
    Ok(worst)
}

/// Prints the events of a drive and answers its outcome. Where it was refused or reached its limit,
/// a line on standard error says so.
fn tell_of_drive<O: Write, E: Write>(
    played: Result<Vec<Event>, Misuse>,
    drive: Drive,
    limit: u64,
    out: &mut O,
    err: &mut E,
) -> io::Result<Outcome> {
    match played {
        Ok(events) => {
            print_events(events.as_slice(), out)?;
            Ok(match events.last() {
                Some(Event::Ended) => Outcome::Done,
                Some(Event::Trapped(_)) => Outcome::Trapped,
                _ => refuse(&Fault::Limit { limit, drive }, err),
            })
        }
        Err(misuse) => Ok(refuse(&Fault::Begin { misuse, drive }, err)),
    }
}

fn print_events<O: Write>(events: &[Event], out: &mut O) -> io::Result<()> {
    for event in events {
        write_event(out, event)?;
    }
    out.flush()
}

/// Reports the fault of a drive.
fn refuse<E: Write>(fault: &Fault, err: &mut E) -> Outcome {
    report(err, fault);
    Outcome::Refused
}
