//! What rows tell the plain interpreter of a set, and its sweeps.

use crate::rules::{Core, Encoding, Kind, Link, Side, Stop};
use crate::sweeps::{Sweep, Swept, run_sweep};
use cm_binary::{Component, decode};
use cm_machine::{Linked, Move};
use cm_match::link;
use cm_rows::{Line, NamedFiles, RowFault, read_text, word, words_from};
use cm_tool_script::{LineFault, Statement};
use cm_validate_spaces::validate;
use std::alloc::Global;

/// The files of a family, and the core functions of each instance.
#[derive(Drop)]
pub struct Told {
    files: NamedFiles,
    core: Vec<Vec<Core>>,
}

impl Told {
    pub fn new(alloc: Global) -> Told {
        Told {
            files: NamedFiles::new(alloc),
            core: Vec::new(alloc),
        }
    }

    /// The answer to `files name NAME BYTES`, `instance`, `core FUNCTION`, or `sweep ROOT LENGTH
    /// PAGES.. : SOURCE.. : MOVE ; ..`.
    pub fn answer_row(&mut self, alloc: Global, words: &[&str], line: &mut Line) {
        match word(words, 0) {
            "files" => self.files.name(alloc, word(words, 2), word(words, 3), line),
            "instance" => {
                line.show(self.core.len());
                line.push(&mut self.core, Vec::new(alloc));
            }
            "core" => {
                let core = read_core(words_from(words, 1), line);
                match self.core.last_mut() {
                    Some(cores) => {
                        line.show(cores.len());
                        line.push(cores, core);
                    }
                    None => line.refuse(),
                }
            }
            "sweep" => self.sweep(alloc, words_from(words, 1), line),
            _ => line.refuse(),
        }
    }

    fn sweep(&self, alloc: Global, words: &[&str], line: &mut Line) {
        let (numbers, rest) = line.split(words, ":");
        let (sources, moves) = line.split(rest, ":");
        let asked = read_asked(alloc, numbers, moves, line);
        let components = self.components(alloc, sources, line);
        write_swept(
            line,
            sweep_components(alloc, &components, &self.core, &asked),
        );
    }

    fn components(&self, alloc: Global, sources: &[&str], line: &mut Line) -> Vec<Component> {
        let mut components = Vec::new(alloc);
        for source in sources {
            let file = self.files.read(alloc, source, line);
            match decode(alloc, &file) {
                Ok(component) => line.push(&mut components, component),
                Err(_) => line.refuse(),
            }
        }
        components
    }
}

/// A function: `guest`, `new`, `rep`, `drop`, `drop DESTRUCTOR`, or `lowered CALLEE FUNCTION
/// PARAMETER RESULT ENCODING ALLOCATOR ENCODING ALLOCATOR POST-RETURN`, of the caller and then of
/// the callee; `-` is none.
fn read_core(words: &[&str], line: &mut Line) -> Core {
    match word(words, 0) {
        "guest" => Core::Guest,
        "new" => Core::New,
        "rep" => Core::Rep,
        "drop" => Core::Drop {
            destructor: read_index(word(words, 1), line),
        },
        "lowered" => Core::Lowered(read_link(words, line)),
        _ => {
            line.refuse();
            Core::Guest
        }
    }
}

fn read_link(words: &[&str], line: &mut Line) -> Link {
    Link {
        callee: line.number(word(words, 1)),
        func: line.number(word(words, 2)),
        param: read_kind(word(words, 3), line),
        result: read_kind(word(words, 4), line),
        lower: read_side(word(words, 5), word(words, 6), line),
        lift: read_side(word(words, 7), word(words, 8), line),
        post_return: read_index(word(words, 9), line),
    }
}

fn read_side(encoding: &str, realloc: &str, line: &mut Line) -> Side {
    Side {
        encoding: match encoding {
            "utf16" => Encoding::Utf16,
            _ => Encoding::Utf8,
        },
        realloc: read_index(realloc, line).unwrap_or(0),
    }
}

fn read_index(word: &str, line: &mut Line) -> Option<u32> {
    match word {
        "-" | "" => None,
        word => Some(line.number(word)),
    }
}

fn read_kind(word: &str, line: &mut Line) -> Option<Kind> {
    match word {
        "u32" => Some(Kind::Number),
        "string" => Some(Kind::Text),
        "own" => Some(Kind::Owned),
        "borrow" => Some(Kind::Borrowed),
        "-" => None,
        _ => {
            line.refuse();
            None
        }
    }
}

fn read_move(alloc: Global, words: &[&str], line: &mut Line) -> Option<Move> {
    let text = read_text(alloc, words, line);
    match Statement::parse(alloc, text.as_str()) {
        Ok(Statement::Move(made)) => return Some(made),
        Err(LineFault::Memory) => line.fail(RowFault::Memory),
        _ => line.refuse(),
    }
    None
}

fn read_moves(alloc: Global, words: &[&str], line: &mut Line) -> Vec<Move> {
    let mut moves = Vec::new(alloc);
    for words in words.split(|word| *word == ";") {
        if let Some(made) = read_move(alloc, words, line) {
            line.push(&mut moves, made);
        }
    }
    moves
}

/// What a row asks of a set: its root, how long the lists are, the pages and the moves.
#[derive(Drop)]
struct Asked {
    root: u32,
    length: u32,
    pages: Vec<u32>,
    moves: Vec<Move>,
}

fn read_asked(alloc: Global, numbers: &[&str], moves: &[&str], line: &mut Line) -> Asked {
    let mut pages = Vec::new(alloc);
    for number in words_from(numbers, 2) {
        let number = line.number(number);
        line.push(&mut pages, number);
    }
    Asked {
        root: line.number(word(numbers, 0)),
        length: line.number(word(numbers, 1)),
        pages,
        moves: read_moves(alloc, moves, line),
    }
}

fn sweep_components(
    alloc: Global,
    components: &[Component],
    core: &[Vec<Core>],
    asked: &Asked,
) -> Result<Swept, Stop> {
    let linked = linked_all(alloc, components).ok_or(Stop::Untrue)?;
    let sweep = Sweep {
        linked: &linked,
        pages: &asked.pages,
        core,
        root: asked.root,
        moves: &asked.moves,
        length: asked.length,
    };
    run_sweep(alloc, &sweep)
}

/// The components as a linked set, if they are one.
fn linked_all(alloc: Global, components: &[Component]) -> Option<Linked<'_>> {
    let mut checked = Vec::new(alloc);
    for component in components {
        checked.push(validate(alloc, component).ok()?).ok()?;
    }
    link(alloc, checked).ok()
}

fn write_swept(line: &mut Line, swept: Result<Swept, Stop>) {
    match swept {
        Ok(
            Swept {
                lists,
                differ,
                first,
            },
        ) => {
            line.show(lists);
            line.put(" lists, ");
            line.show(differ);
            line.put(" differ");
            if let Some(first) = first {
                line.put(", the first one ");
                line.show(first);
            }
        }
        Err(Stop::Memory) => line.fail(RowFault::Memory),
        Err(_) => line.refuse(),
    }
}
