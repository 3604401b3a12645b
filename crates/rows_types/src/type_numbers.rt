//! Rows on the numbers of types by places.

use crate::runs::Runs;
use cm_rows::{Arena, Line, read_move, read_resources, word, words_from};
use cm_types_arena::{Replacement, Row, Types};
use cm_types_numbers::Numbers;
use std::alloc::Global;

/// The answer to `RESOURCES ITEM ; ITEM .. | RESOURCES ITEM ; ITEM ..`: types by places, each list
/// with what stands for resources, which is a row of them joined by commas, `-` for none, or
/// `move:FIRST,COUNT,NEXT`. For each item that is a type it is how many different numbers stood
/// before the first with the same number, in the order of the lists, and so, behind `/`, for each
/// function.
pub fn answer(alloc: Global, words: &[&str], line: &mut Line) {
    let mut table = Table {
        alloc,
        numbers: Numbers::new(alloc),
        types: Classes::new(alloc),
        funcs: Classes::new(alloc),
        is_begun: false,
    };
    for words in words.split(|word| *word == "|") {
        table.read_list(words, line);
    }
}

/// The numbers so far, and which of them were met.
#[derive(Drop)]
struct Table {
    alloc: Global,
    numbers: Numbers,
    types: Classes,
    funcs: Classes,
    /// Whether anything is written.
    is_begun: bool,
}

impl Table {
    fn read_list(&mut self, words: &[&str], line: &mut Line) {
        let resources = word(words, 0);
        let Some(arena) = Arena::read(self.alloc, words_from(words, 1), line) else {
            return;
        };
        if self.is_begun {
            line.put(" | ");
        }
        if let Some(numbers) = resources.strip_prefix("move:") {
            if let Some(moved) = read_move(numbers, line) {
                self.number(&moved, &arena.types, arena.first, line);
            }
            return;
        }
        let row = read_resources(self.alloc, resources, line);
        self.number(&Row(&row), &arena.types, arena.first, line);
    }

    fn number<R: Replacement>(
        &mut self,
        resources: &R,
        types: &Types,
        first: usize,
        line: &mut Line,
    ) {
        let numbers = self.numbers.number_types(self.alloc, resources, types);
        let numbers = line.kept(numbers).unwrap_or(Vec::new(self.alloc));
        let funcs = self.numbers.number_funcs(self.alloc, types, &numbers);
        let funcs = line.kept(funcs).unwrap_or(Vec::new(self.alloc));
        let numbers = numbers.get(first..).unwrap_or(&[]);
        self.is_begun |= !numbers.is_empty() || !funcs.is_empty();
        self.types.write(numbers, line);
        if !funcs.is_empty() {
            line.put(" / ");
        }
        self.funcs.write(&funcs, line);
    }
}

/// The different numbers that were met, in their order.
#[derive(Drop)]
struct Classes {
    met: Vec<usize>,
}

impl Classes {
    fn new(alloc: Global) -> Classes {
        Classes {
            met: Vec::new(alloc),
        }
    }

    /// The place of a number among those met.
    fn class(&mut self, number: usize, line: &mut Line) -> usize {
        if let Some(class) = self.met.iter().position(|met| *met == number) {
            return class;
        }
        let class = self.met.len();
        line.push(&mut self.met, number);
        class
    }

    /// Writes the classes of numbers, one after another.
    fn write(&mut self, numbers: &[usize], line: &mut Line) {
        let mut runs = Runs::new();
        for number in numbers {
            runs.add(self.class(*number, line), line);
        }
        runs.end_run(line);
    }
}
