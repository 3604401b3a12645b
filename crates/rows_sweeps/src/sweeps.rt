//! Sweeps: all lists of so many moves, each on a new set, by the machine and by the plain
//! interpreter.

use crate::plain::MOST_FRAMES;
use crate::rules::{Core, Frame, Instance, Item, Plain, Purpose, Stop, Where, small};
use cm_machine::{Event, Linked, Misuse, Move, Place, Set};
use std::alloc::{AllocError, Global};

/// What a sweep is made of.
#[derive(Clone, Copy)]
pub struct Sweep<'l, 'a> {
    pub linked: &'l Linked<'a>,
    pub pages: &'l [u32],
    /// The core functions of each instance.
    pub core: &'l [Vec<Core>],
    pub root: u32,
    pub moves: &'l [Move],
    pub length: u32,
}

/// How many lists there were, how many differed, and the first that did.
#[derive(Clone, Copy)]
pub struct Swept {
    pub lists: u64,
    pub differ: u64,
    pub first: Option<u64>,
}

/// A list of moves is a number, whose digits in the base of how many moves there are name the
/// moves, the first one last.
fn chosen(alloc: Global, sweep: &Sweep<'_, '_>, list: u64) -> Result<Vec<Move>, Stop> {
    let base = sweep.moves.len().max(1) as u64;
    let mut chosen = Vec::new(alloc);
    let mut rest = list;
    for _ in 0..sweep.length {
        let made = sweep.moves.get((rest % base) as usize).ok_or(Stop::Untrue)?;
        chosen.push(made.clone()?)?;
        rest /= base;
    }
    Ok(chosen)
}

pub fn run_sweep(alloc: Global, sweep: &Sweep<'_, '_>) -> Result<Swept, Stop> {
    let lists = (sweep.moves.len() as u64).saturating_pow(sweep.length);
    let mut swept = Swept {
        lists,
        differ: 0,
        first: None,
    };
    for list in 0..lists {
        let moves = chosen(alloc, sweep, list)?;
        if !is_alike(alloc, sweep, &moves)? {
            swept.differ = swept.differ.saturating_add(1);
            swept.first = swept.first.or(Some(list));
        }
    }
    Ok(swept)
}

/// Whether a list of moves leads to the same by both.
fn is_alike(alloc: Global, sweep: &Sweep<'_, '_>, moves: &[Move]) -> Result<bool, Stop> {
    let mut set = match Set::new(alloc, sweep.linked, sweep.pages) {
        Ok(set) => set,
        Err(Misuse::Memory) => return Err(Stop::Memory),
        Err(_) => return Err(Stop::Untrue),
    };
    let Ok(_) = set.begin(sweep.root) else {
        return Err(Stop::Untrue);
    };
    let mut plain = new_plain(alloc, sweep)?;
    let events = match set.run(alloc, moves) {
        Ok(events) => events,
        Err(Misuse::Memory) => return Err(Stop::Memory),
        Err(_) => return Err(Stop::Untrue),
    };
    Ok(are_told(&mut plain, moves, &events)? && are_states_alike(&set, &plain))
}

fn new_plain(alloc: Global, sweep: &Sweep<'_, '_>) -> Result<Plain, Stop> {
    let mut instances = Vec::new(alloc);
    for (core, pages) in sweep.core.iter().zip(sweep.pages) {
        let length = (*pages as usize).saturating_mul(65_536);
        instances.push(Instance {
            memory: Vec::from_elem(alloc, 0, length)?,
            handles: Vec::new(alloc),
            freed: Vec::new(alloc),
            closed: false,
            core: core.to_vec(alloc)?,
        })?;
    }
    let mut frames = Vec::with_capacity(alloc, MOST_FRAMES)?;
    frames.push(Frame {
        instance: sweep.root,
        purpose: Purpose::Root,
    })?;
    Ok(Plain {
        alloc,
        instances,
        frames,
        places: Vec::new(alloc),
        item: Item::Nothing,
        asked: Vec::new(alloc),
        answered: 0,
        last: 0,
        returned: Vec::new(alloc),
        result: None,
    })
}

/// Whether these are the events of these moves, up to the last one.
fn are_told(plain: &mut Plain, moves: &[Move], events: &[Event]) -> Result<bool, Stop> {
    let mut count = 0;
    for made in moves {
        let Some(event) = plain.step(made)? else {
            break;
        };
        if events.get(count) != Some(&event) {
            return Ok(false);
        }
        count = count.saturating_add(1);
    }
    Ok(events.len() == count)
}

/// Whether memories, closed instances, the acting instance and the places of resources are the
/// same.
fn are_states_alike(set: &Set, plain: &Plain) -> bool {
    let mut alike = set.acting() == plain.actor();
    for (i, instance) in plain.instances.iter().enumerate() {
        alike &= set.is_closed(small(i)) == Some(instance.closed);
        alike &= are_bytes_alike(set.memory(small(i)).unwrap_or(&[]), &instance.memory);
    }
    for (serial, place) in plain.places.iter().enumerate() {
        alike &= are_places_alike(set.place(serial as u64), *place);
    }
    alike && set.place(plain.places.len() as u64).is_none()
}

/// Whether a resource is at this place.
fn are_places_alike(ours: Option<Place>, plain: Where) -> bool {
    match (ours, plain) {
        (
            Some(Place::InTable { instance, index }),
            Where::InTable {
                instance: of,
                index: at,
            },
        ) => instance == of && index == at,
        (Some(Place::Travelling { frame }), Where::Travelling { frame: at }) => frame == at,
        (Some(Place::Abandoned), Where::Abandoned) | (Some(Place::Dropped), Where::Dropped) => true,
        _ => false,
    }
}

/// Whether bytes are the same.
fn are_bytes_alike(ours: &[u8], plain: &[u8]) -> bool {
    let mut differ = 0;
    for (a, b) in ours.iter().zip(plain) {
        differ |= *a ^ *b;
    }
    differ == 0 && ours.len() == plain.len()
}
