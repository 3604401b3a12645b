//! What rows do to a set, and what they see of it.

use cm_machine::{Event, Misuse, Move, Place, Set};
use cm_rows::Line;
use cm_tool_lines::write_event;
use std::alloc::Global;

/// What a row does to a set.
#[derive(Drop)]
pub enum Act {
    /// Nothing is left to do: the row made what it asks for.
    Made,
    Begin(u32),
    Step(Move),
    /// The set is asked for its state.
    Ask,
}

/// What a row sees of a set.
#[derive(Drop)]
pub enum Seen {
    Made,
    NoSet,
    Event(Result<Event, Misuse>),
    State(State),
}

/// The state of a set, as far as a row shows it.
#[derive(Clone, Copy)]
pub struct State {
    acting: Option<u32>,
    memory: Option<usize>,
    is_closed: Option<bool>,
    place: Option<Place>,
    records: usize,
}

impl State {
    /// The state of this set.
    fn of(set: &Set) -> State {
        State {
            acting: set.acting(),
            memory: set.memory(0).map(|memory| memory.len()),
            is_closed: set.is_closed(0),
            place: set.place(0),
            records: set.work().records,
        }
    }

    fn write(&self, line: &mut Line) {
        line.put("acting ");
        line.found(self.acting);
        line.put(", memory ");
        line.found(self.memory);
        line.put(", closed ");
        line.found(self.is_closed);
        line.put(", resource ");
        line.put(match self.place {
            None => "none",
            Some(Place::InTable { .. }) => "in a table",
            Some(Place::Travelling { .. }) => "travelling",
            Some(Place::Abandoned) => "abandoned",
            Some(Place::Dropped) => "dropped",
        });
        line.put(", records ");
        line.show(self.records);
    }
}

impl Act {
    /// Does it.
    pub fn of_set(&self, set: &mut Set) -> Seen {
        match self {
            Act::Made => Seen::Made,
            Act::Begin(instance) => Seen::Event(set.begin(*instance)),
            Act::Step(made) => Seen::Event(set.step(made)),
            Act::Ask => Seen::State(State::of(set)),
        }
    }
}

impl Seen {
    /// Writes what was seen.
    pub fn write(&self, alloc: Global, line: &mut Line) {
        match self {
            Seen::Made => line.put("made"),
            Seen::NoSet => line.refuse(),
            Seen::Event(Ok(event)) => write_line_of(alloc, event, line),
            Seen::Event(Err(misuse)) => {
                line.put("misuse ");
                line.debug(misuse);
            }
            Seen::State(state) => state.write(line),
        }
    }
}

/// Writes an event as `play` prints it.
fn write_line_of(alloc: Global, event: &Event, line: &mut Line) {
    let mut bytes = Vec::new(alloc);
    if write_event(&mut bytes, event).is_err() {
        line.refuse_for(true);
    }
    for byte in &bytes {
        if *byte != b'\n' {
            line.show(char::from(*byte));
        }
    }
}
