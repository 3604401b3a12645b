//! The state between rows: files, and the set that was made last.

use crate::components::read_components;
use crate::links::link_components;
use crate::seen::{Act, Seen};
use cm_binary::Component;
use cm_machine::{Misuse, Set};
use cm_rows::{Line, NamedFiles, RowFault, word, words_from};
use cm_tool_script::{LineFault, Statement};
use std::alloc::Global;

/// Files by their names, and the set that the moves are played on.
#[derive(Drop)]
pub struct Plays {
    files: NamedFiles,
    set: Option<Set>,
}

impl Plays {
    pub fn new(alloc: Global) -> Plays {
        Plays {
            files: NamedFiles::new(alloc),
            set: None,
        }
    }

    /// Reads a row, and does all of it that may take memory. `None` where the row is answered.
    pub fn prepare(&mut self, alloc: Global, words: &[&str], line: &mut Line) -> Option<Act> {
        match word(words, 0) {
            "file" => {
                self.files.name(alloc, word(words, 1), word(words, 2), line);
                None
            }
            "set" => {
                let (pages, names) = line.split(words_from(words, 1), "of");
                self.make(alloc, pages, names, line);
                Some(Act::Made)
            }
            "state" => Some(Act::Ask),
            _ => read_act(alloc, words, line),
        }
    }

    fn make(&mut self, alloc: Global, pages: &[&str], names: &[&str], line: &mut Line) {
        let mut numbers = Vec::new(alloc);
        for number in pages {
            let number = line.number(number);
            line.push(&mut numbers, number);
        }
        let components = read_components(alloc, &self.files, names, line);
        self.set = make_set(alloc, &components, &numbers, line);
    }

    /// Does what was read.
    pub fn act(&mut self, act: &Act) -> Seen {
        match &mut self.set {
            Some(set) => act.of_set(set),
            None => Seen::NoSet,
        }
    }
}

/// The set of these components, which are to be valid and to be linked.
fn make_set(
    alloc: Global,
    components: &[Component],
    pages: &[u32],
    line: &mut Line,
) -> Option<Set> {
    let Ok(linked) = link_components(alloc, components, line) else {
        line.refuse();
        return None;
    };
    match Set::new(alloc, &linked, pages) {
        Ok(set) => Some(set),
        Err(misuse) => {
            line.refuse_for(misuse == Misuse::Memory);
            None
        }
    }
}

/// A move, or `begin I`, as a line of a script spells it.
fn read_act(alloc: Global, words: &[&str], line: &mut Line) -> Option<Act> {
    let mut text = Line::new(alloc);
    for (i, word) in words.iter().enumerate() {
        if i > 0 {
            text.put(" ");
        }
        text.put(word);
    }
    line.keep_fault_of(&text);
    match Statement::parse(alloc, text.as_str()) {
        Ok(Statement::Move(made)) => Some(Act::Step(made)),
        Ok(Statement::Begin(instance)) => Some(Act::Begin(instance)),
        Err(LineFault::Memory) => {
            line.fail(RowFault::Memory);
            None
        }
        _ => {
            line.refuse();
            None
        }
    }
}
