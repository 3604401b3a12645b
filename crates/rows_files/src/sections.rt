//! Components of sections as rows spell them, joined by `|`: `custom NAME BYTES`, `module BYTES` or
//! `types COUNT`, so many types of functions with no parameters and no result.

use cm_binary::{CustomSection, Section};
use cm_rows::{Line, word};
use cm_types::{DefType, FuncType};
use std::alloc::Global;

/// The sections that words spell.
pub fn read_sections(alloc: Global, words: &[&str], line: &mut Line) -> Vec<Section> {
    let mut sections = Vec::new(alloc);
    if words.is_empty() {
        return sections;
    }
    for words in words.split(|word| *word == "|") {
        if let Some(section) = read_section(alloc, words, line) {
            line.push(&mut sections, section);
        }
    }
    sections
}

fn read_section(alloc: Global, words: &[&str], line: &mut Line) -> Option<Section> {
    let first = word(words, 1);
    Some(match word(words, 0) {
        "custom" => Section::Custom(CustomSection {
            name: line.kept(String::from_str(alloc, first))?,
            bytes: line.bytes(alloc, word(words, 2)),
        }),
        "module" => Section::CoreModule(line.bytes(alloc, first)),
        "types" => Section::Types(empty_funcs(alloc, line.number(first), line)),
        _ => return line.wanted(None),
    })
}

fn empty_funcs(alloc: Global, count: usize, line: &mut Line) -> Vec<DefType> {
    let mut types = Vec::new(alloc);
    for _ in 0..count {
        let params = Vec::new(alloc);
        let func = FuncType {
            params,
            result: None,
        };
        line.push(&mut types, DefType::Func(func));
    }
    types
}
