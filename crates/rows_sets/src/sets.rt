//! Rows on links and runs, each of which acts on what the earlier ones left.

use crate::checks::write_shape;
use crate::components::read_components;
use crate::events::{write_event, write_events};
use crate::links::{link_components, read_item, write_link_fault};
use crate::seeing::{write_heard, write_seen};
use cm_binary::Component;
use cm_machine::{Event, Flat, Guest, Misuse, Move, Place, Player, Set};
use cm_match::Linked;
use cm_rows::{
    Line, NamedFiles, RowFault, read_core_values, read_text, word, words_from, write_core_values,
    write_units,
};
use cm_tool_script::{LineFault, ScriptGuest, Statement};
use cm_types::CoreValue;
use std::alloc::Global;
use std::collections::VecDeque;

/// The components that were linked last, and the machine that was made last.
#[derive(Drop)]
pub struct Sets {
    linked: Option<Vec<Component>>,
    set: Option<Set>,
}

impl Sets {
    pub fn new() -> Sets {
        Sets {
            linked: None,
            set: None,
        }
    }

    /// Links the components of the sources, in this order.
    pub fn link(&mut self, alloc: Global, files: &NamedFiles, sources: &[&str], line: &mut Line) {
        let components = read_components(alloc, files, sources, line);
        match link_components(alloc, &components, line) {
            Ok(linked) => write_plan(line, &linked),
            Err(fault) => return write_link_fault(line, fault),
        }
        if line.is_fine() {
            self.linked = Some(components);
        }
    }

    /// The answer to `target COMPONENT IMPORT ITEM`, `new PAGES..` (of the set linked last), `begin
    /// INSTANCE`, `step MOVE`, `run MOVE ; ..`, `acting`, `work`, `place SERIAL`, `memory
    /// INSTANCE`, `is_closed INSTANCE`, `drives ROOTS LIMIT SEAT | ..`, `sees ROOT LIMIT SEAT |
    /// ..`, `hears ROOT LIMIT SEAT | ..` or `flat VALUE..`.
    pub fn answer(&mut self, alloc: Global, words: &[&str], line: &mut Line) {
        match word(words, 0) {
            "target" => self.write_target(alloc, words, line),
            "new" => self.make(alloc, words_from(words, 1), line),
            "flat" => {
                let values = read_core_values(alloc, words_from(words, 1), line);
                write_flat(line, &values);
            }
            call => match &mut self.set {
                Some(set) => answer_of_set(alloc, set, call, words_from(words, 1), line),
                None => line.refuse(),
            },
        }
    }

    fn write_target(&self, alloc: Global, words: &[&str], line: &mut Line) {
        let Some(components) = self.linked.as_ref() else {
            return line.refuse();
        };
        let component = line.number(word(words, 1));
        let import = line.number(word(words, 2));
        let item = read_item(word(words, 3), line);
        let Ok(linked) = link_components(alloc, components, line) else {
            return line.refuse();
        };
        let Some(target) = linked.target(component, import, item) else {
            return line.put("none");
        };
        line.put("core function ");
        line.show(target.core_func);
        line.put(" of ");
        line.show(target.component);
        if let Some(checked) = linked.components().get(target.component as usize) {
            write_shape(line, checked.types(), target.ty);
        }
    }

    fn make(&mut self, alloc: Global, pages: &[&str], line: &mut Line) {
        let Some(components) = self.linked.as_ref() else {
            return line.refuse();
        };
        let mut numbers = Vec::new(alloc);
        for number in pages {
            let number = line.number(number);
            line.push(&mut numbers, number);
        }
        let Ok(linked) = link_components(alloc, components, line) else {
            return line.refuse();
        };
        match Set::new(alloc, &linked, &numbers) {
            Ok(set) => {
                self.set = Some(set);
                line.put("made");
            }
            Err(misuse) => write_misuse(line, misuse),
        }
    }
}

/// Writes the number of components, and `IMPORTER.IMPORT=PROVIDER.EXPORT` for each line of the
/// plan.
fn write_plan(line: &mut Line, linked: &Linked<'_>) {
    line.show(linked.components().len());
    line.put(" components:");
    for planned in linked.plan() {
        line.put(" ");
        line.show(planned.importer);
        line.put(".");
        line.show(planned.import);
        line.put("=");
        line.show(planned.provider);
        line.put(".");
        line.show(planned.export);
    }
}

/// Writes a misuse; want of memory is that of the row.
pub(crate) fn write_misuse(line: &mut Line, misuse: Misuse) {
    line.fail_if_memory(misuse == Misuse::Memory);
    line.put("misuse ");
    line.debug(&misuse);
}

fn answer_of_set(alloc: Global, set: &mut Set, call: &str, words: &[&str], line: &mut Line) {
    match call {
        "step" => {
            if let Some(made) = read_move(alloc, words, line) {
                write_stepped(line, set.step(&made));
            }
        }
        "run" => {
            let moves = read_moves(alloc, words, line);
            write_ran(line, set.run(alloc, &moves));
        }
        "drives" => {
            let limit = line.number(word(words, 1));
            write_drives(
                alloc,
                set,
                word(words, 0),
                limit,
                words_from(words, 2),
                line,
            );
        }
        "sees" => write_seen(alloc, set, words, line),
        "hears" => write_heard(alloc, set, words, line),
        "acting" => line.found(set.acting()),
        "work" => write_work(line, set),
        "place" => {
            let serial = line.number(word(words, 0));
            write_place(line, set.place(serial));
        }
        call => answer_of_instance(set, call, line.number(word(words, 0)), line),
    }
}

fn answer_of_instance(set: &mut Set, call: &str, instance: u32, line: &mut Line) {
    match call {
        "begin" => write_stepped(line, set.begin(instance)),
        "memory" => match set.memory(instance) {
            Some(memory) => {
                line.show(memory.len());
                line.put(" bytes: ");
                write_units(line, memory, 1);
            }
            None => line.put("none"),
        },
        "is_closed" => line.found(set.is_closed(instance)),
        _ => line.refuse(),
    }
}

/// Writes the event of a step, or its misuse.
fn write_stepped(line: &mut Line, event: Result<Event, Misuse>) {
    match event {
        Ok(event) => write_event(line, &event),
        Err(misuse) => write_misuse(line, misuse),
    }
}

/// Writes the events of a run, or its misuse.
pub(crate) fn write_ran(line: &mut Line, events: Result<Vec<Event>, Misuse>) {
    match events {
        Ok(events) => write_events(line, &events),
        Err(misuse) => write_misuse(line, misuse),
    }
}

/// A move, as a line of a script spells it.
pub(crate) fn read_move(alloc: Global, words: &[&str], line: &mut Line) -> Option<Move> {
    let text = read_text(alloc, words, line);
    match Statement::parse(alloc, text.as_str()) {
        Ok(Statement::Move(made)) => return Some(made),
        Err(LineFault::Memory) => line.fail(RowFault::Memory),
        _ => line.refuse(),
    }
    None
}

pub(crate) fn read_moves(alloc: Global, words: &[&str], line: &mut Line) -> Vec<Move> {
    let mut moves = Vec::new(alloc);
    if words.is_empty() {
        return moves;
    }
    for words in words.split(|word| *word == ";") {
        if let Some(made) = read_move(alloc, words, line) {
            line.push(&mut moves, made);
        }
    }
    moves
}

/// Writes for each root what the drive from it answers, which seats have a guest behind it, and
/// which instances are closed then. A seat is `-` for nobody, or the moves of a guest, which stops
/// after them; `no` seats are none.
fn write_drives(
    alloc: Global,
    set: &mut Set,
    roots: &str,
    limit: u64,
    words: &[&str],
    line: &mut Line,
) {
    let mut seats: Vec<Option<Box<dyn Guest>>> = Vec::new(alloc);
    if word(words, 0) != "no" {
        for words in words.split(|word| *word == "|") {
            if word(words, 0) == "-" {
                line.push(&mut seats, None);
                continue;
            }
            let moves = VecDeque::from(read_moves(alloc, words, line));
            if let Some(made) = line.kept(Box::new(alloc, ScriptGuest::new(moves))) {
                let guest: Box<dyn Guest> = made;
                line.push(&mut seats, Some(guest));
            }
        }
    }
    for (i, root) in roots.split(',').enumerate() {
        if i > 0 {
            line.put(", then ");
        }
        let root = line.number(root);
        write_ran(line, Player::drive(alloc, set, &mut seats, root, limit));
        write_seats(line, &seats);
        write_closed(line, set);
    }
}

fn write_seats(line: &mut Line, seats: &Vec<Option<Box<dyn Guest>>>) {
    line.put(" seats ");
    for seat in seats {
        line.put(if seat.is_some() { "x" } else { "-" });
    }
}

fn write_closed(line: &mut Line, set: &Set) {
    line.put(" closed");
    for instance in 0..16 {
        match set.is_closed(instance) {
            Some(true) => {
                line.put(" ");
                line.show(instance);
            }
            Some(false) => {}
            None => break,
        }
    }
}

/// Writes the values as they are kept in place; more than 16 are no row.
fn write_flat(line: &mut Line, values: &[CoreValue]) {
    let flat = match values {
        [] => Flat::new(),
        [value] => Flat::one(*value),
        values if values.len() <= 16 => Flat::from_slice(values),
        _ => return line.refuse(),
    };
    line.put("values");
    write_core_values(line, flat.as_slice());
}

/// Writes where a resource is.
fn write_place(line: &mut Line, place: Option<Place>) {
    match place {
        None => line.put("never issued"),
        Some(Place::InTable { instance, index }) => {
            line.put("index ");
            line.show(index);
            line.put(" of ");
            line.show(instance);
        }
        Some(Place::Travelling { frame }) => {
            line.put("travelling in frame ");
            line.show(frame);
        }
        Some(Place::Abandoned) => line.put("abandoned"),
        Some(Place::Dropped) => line.put("dropped"),
    }
}

/// Writes how many records, handles and lends the topmost call keeps.
fn write_work(line: &mut Line, set: &Set) {
    let work = set.work();
    line.show(work.records);
    line.put(" records, ");
    line.show(work.handles);
    line.put(" handles, ");
    line.show(work.lends);
    line.put(" lends");
}
