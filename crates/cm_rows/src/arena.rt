//! Types by places, and types of functions, as rows spell them.
//!
//! The primitive types stand at the places 0 to 10, and items follow: `list PLACE`, `option PLACE`,
//! `fixed:LENGTH PLACE`, `tuple PLACE..`, `record:LABELS PLACE..`, `variant:LABELS PAYLOAD..` and
//! `result PAYLOAD PAYLOAD`, where a payload is a place or `-`, `enum:LABELS`, `flags:LABELS`,
//! `own:COMPONENT.NUMBER`, `borrow:COMPONENT.NUMBER`, and primitive types by name. LABELS are
//! joined by commas. The type of a function is `func:LABELS PLACE.. -> PAYLOAD`, or
//! `func -> PAYLOAD` without parameters. A place is its number, the name of a primitive type, or
//! `last`, that of the type that was added last. `N*` before an item stands for N of them, before
//! a place for N of that place.

use crate::line::Line;
use crate::named_types::{primitive_named, read_labels, read_resource};
use crate::words::{split_repeat, word, words_from};
use cm_types::Label;
use cm_types_arena::{CaseDef, DefFault, FieldDef, FuncDef, TypeDef, Types};
use std::alloc::Global;

/// The types so far.
#[derive(Drop)]
pub struct Arena {
    alloc: Global,
    pub types: Types,
    /// Where the items begin: the primitive types stand before them.
    pub first: usize,
}

/// What became of an item.
#[derive(Clone, Copy)]
pub enum Outcome {
    /// A type, at this place.
    Type(usize),
    /// The type of a function, at this place.
    Func(usize),
    Refused(DefFault),
    /// A part has no place.
    Unordered,
}

impl Arena {
    /// The primitive types alone.
    pub fn new(alloc: Global, line: &mut Line) -> Option<Arena> {
        let types = line.kept(Types::new(alloc))?;
        Some(Arena {
            alloc,
            first: types.len(),
            types,
        })
    }

    /// The types of `ITEM ; ITEM ..`. Want of memory for one is kept as that of the row.
    pub fn read(alloc: Global, words: &[&str], line: &mut Line) -> Option<Arena> {
        let mut arena = Arena::new(alloc, line)?;
        for words in words.split(|word| *word == ";") {
            let outcome = arena.read_item(words, line);
            line.fail_if_memory(matches!(outcome, Outcome::Refused(DefFault::Memory)));
        }
        Some(arena)
    }

    /// Adds an item, or several alike: what became of the last.
    pub fn read_item(&mut self, words: &[&str], line: &mut Line) -> Outcome {
        let (times, item) = split_repeat(word(words, 0));
        let mut outcome = Outcome::Unordered;
        for _ in 0..times {
            outcome = self.push(item, words_from(words, 1), line);
        }
        outcome
    }

    fn push(&mut self, word: &str, words: &[&str], line: &mut Line) -> Outcome {
        let (name, operand) = word.split_once(':').unwrap_or((word, ""));
        let places = Places::of(self.alloc, &self.types);
        if name == "func" {
            return self.push_func(places.read_func(operand, words, line));
        }
        match places.read_def(name, operand, words, line) {
            Some(def) => self.push_type(def),
            None => Outcome::Unordered,
        }
    }

    fn push_type(&mut self, def: TypeDef) -> Outcome {
        if !def.has_parts_below(self.types.len()) {
            return Outcome::Unordered;
        }
        match self.types.push(self.alloc, def) {
            Ok(place) => Outcome::Type(place),
            Err(fault) => Outcome::Refused(fault),
        }
    }

    fn push_func(&mut self, def: FuncDef) -> Outcome {
        if !def.has_parts_below(self.types.len()) {
            return Outcome::Unordered;
        }
        match self.types.push_func(self.alloc, def) {
            Ok(place) => Outcome::Func(place),
            Err(fault) => Outcome::Refused(fault),
        }
    }
}

/// The places of so many types, by which definitions name their parts.
#[derive(Clone, Copy)]
pub struct Places {
    alloc: Global,
    count: usize,
}

impl Places {
    pub fn of(alloc: Global, types: &Types) -> Places {
        Places {
            alloc,
            count: types.len(),
        }
    }

    fn read_func(self, labels: &str, words: &[&str], line: &mut Line) -> FuncDef {
        let (params, answer) = line.split(words, "->");
        FuncDef {
            params: self.read_fields(labels, params, line),
            result: self.read_payload(word(answer, 0), line),
        }
    }

    fn read_def(
        self,
        name: &str,
        operand: &str,
        words: &[&str],
        line: &mut Line,
    ) -> Option<TypeDef> {
        let first = word(words, 0);
        Some(match name {
            "list" => TypeDef::List(self.read(first, line)),
            "option" => TypeDef::Option(self.read(first, line)),
            "fixed" => TypeDef::FixedList {
                element: self.read(first, line),
                length: line.number(operand),
            },
            "tuple" => TypeDef::Tuple(self.read_places(words, line)),
            "record" => TypeDef::Record(self.read_fields(operand, words, line)),
            "variant" => TypeDef::Variant(self.read_cases(operand, words, line)),
            "result" => TypeDef::Result {
                ok: self.read_payload(first, line),
                error: self.read_payload(word(words, 1), line),
            },
            "enum" => TypeDef::Enum(read_labels(self.alloc, operand, line)),
            "flags" => TypeDef::Flags(read_labels(self.alloc, operand, line)),
            "own" => TypeDef::Own(read_resource(operand, line)),
            "borrow" => TypeDef::Borrow(read_resource(operand, line)),
            name => TypeDef::Primitive(line.wanted(primitive_named(name))?),
        })
    }

    /// A place by its number, by the name of a primitive type, or as `last`.
    pub fn read(self, word: &str, line: &mut Line) -> usize {
        if word == "last" {
            return line.wanted(self.count.checked_sub(1)).unwrap_or(0);
        }
        match primitive_named(word) {
            Some(primitive) => primitive as usize,
            None => line.number(word),
        }
    }

    fn read_places(self, words: &[&str], line: &mut Line) -> Vec<usize> {
        let mut places = Vec::new(self.alloc);
        for word in words {
            let (times, word) = split_repeat(word);
            let place = self.read(word, line);
            for _ in 0..times {
                line.push(&mut places, place);
            }
        }
        places
    }

    fn read_payload(self, word: &str, line: &mut Line) -> Option<usize> {
        match word {
            "-" => None,
            word => Some(self.read(word, line)),
        }
    }

    /// As many fields as places, with these labels.
    fn read_fields(self, labels: &str, words: &[&str], line: &mut Line) -> Vec<FieldDef> {
        let labels = labels_of(self.alloc, labels, line);
        let places = self.read_places(words, line);
        if labels.len() != places.len() {
            line.refuse();
        }
        let mut fields = Vec::new(self.alloc);
        for (label, place) in labels.into_iter().zip(&places) {
            line.push(&mut fields, FieldDef { label, ty: *place });
        }
        fields
    }

    /// As many cases as payloads, with these labels.
    fn read_cases(self, labels: &str, words: &[&str], line: &mut Line) -> Vec<CaseDef> {
        let labels = labels_of(self.alloc, labels, line);
        if labels.len() != words.len() {
            line.refuse();
        }
        let mut cases = Vec::new(self.alloc);
        for (label, word) in labels.into_iter().zip(words) {
            let payload = self.read_payload(word, line);
            line.push(&mut cases, CaseDef { label, payload });
        }
        cases
    }
}

/// The labels that a text spells; none where it is empty.
fn labels_of(alloc: Global, text: &str, line: &mut Line) -> Vec<Label> {
    if text.is_empty() {
        Vec::new(alloc)
    } else {
        read_labels(alloc, text, line)
    }
}
