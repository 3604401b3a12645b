//! Labels, names and resources as rows spell them.

use crate::line::Line;
use crate::words::split_repeat;
use cm_types::{ExternName, Label, NameFault, ResourceId};
use cm_types_arena::{Move, Primitive};
use std::alloc::Global;

/// Labels joined by commas, where `N*` before one stands for N of them.
pub fn read_labels(alloc: Global, text: &str, line: &mut Line) -> Vec<Label> {
    let mut labels = Vec::new(alloc);
    for part in text.split(',') {
        add_label(alloc, &mut labels, part, line);
    }
    labels
}

fn add_label(alloc: Global, labels: &mut Vec<Label>, word: &str, line: &mut Line) {
    let (times, label) = split_repeat(word);
    for _ in 0..times {
        if let Some(label) = named(Label::parse(alloc, label), line) {
            line.push(labels, label);
        }
    }
}

/// The name of an import or an export.
pub fn read_name(alloc: Global, text: &str, line: &mut Line) -> Option<ExternName> {
    named(ExternName::parse(alloc, text), line)
}

/// The name that a row spells.
pub fn named<T: Drop>(name: Result<T, NameFault>, line: &mut Line) -> Option<T> {
    match name {
        Ok(name) => Some(name),
        Err(fault) => {
            line.refuse_for(fault == NameFault::Memory);
            None
        }
    }
}

/// The resource `COMPONENT.NUMBER`.
pub fn read_resource(text: &str, line: &mut Line) -> ResourceId {
    let (component, number) = text.split_once('.').unwrap_or(("", ""));
    ResourceId {
        component: line.number(component),
        number: line.number(number),
    }
}

/// The primitive types by their names.
const PRIMITIVES: [(&str, Primitive); 11] = [
    ("bool", Primitive::Bool),
    ("s8", Primitive::S8),
    ("u8", Primitive::U8),
    ("s16", Primitive::S16),
    ("u16", Primitive::U16),
    ("s32", Primitive::S32),
    ("u32", Primitive::U32),
    ("s64", Primitive::S64),
    ("u64", Primitive::U64),
    ("char", Primitive::Char),
    ("string", Primitive::String),
];

/// The primitive type that a word names, if it names one.
pub fn primitive_named(word: &str) -> Option<Primitive> {
    for (name, primitive) in &PRIMITIVES {
        if *name == word {
            return Some(*primitive);
        }
    }
    None
}

/// Resources joined by commas; `-` for none.
pub fn read_resources(alloc: Global, text: &str, line: &mut Line) -> Vec<ResourceId> {
    let mut resources = Vec::new(alloc);
    if text == "-" {
        return resources;
    }
    for part in text.split(',') {
        let resource = read_resource(part, line);
        line.push(&mut resources, resource);
    }
    resources
}

/// The move `FIRST,COUNT,NEXT`.
pub fn read_move(text: &str, line: &mut Line) -> Option<Move> {
    let (first, others) = text.split_once(',').unwrap_or(("", ""));
    let (count, next) = others.split_once(',').unwrap_or(("", ""));
    let moved = Move::new(line.number(first), line.number(count), line.number(next));
    line.wanted(moved)
}
