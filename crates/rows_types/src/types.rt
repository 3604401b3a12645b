//! Rows on types as trees: their limits and their equality.

use crate::values::read_value;
use cm_rows::{
    Line, read_func, read_params, read_resources, read_tree, read_type, word, words_from,
};
use cm_types::{Func, TypeFault, TypeNode, TypeTree, has_type};
use cm_types_arena::{same_func, same_type};
use std::alloc::Global;

/// The answer to `within TYPE`, `within_func TYPE..` (of the parameters), `equal TYPE | TYPE ..`,
/// `same LEFT RIGHT TYPE = TYPE`, `has TYPE = VALUE`, `same_func FUNC = FUNC` or `faults`. LEFT and
/// RIGHT are resources joined by commas, or `-`.
pub fn answer(alloc: Global, words: &[&str], line: &mut Line) {
    let rest = words_from(words, 1);
    match word(words, 0) {
        "within" => {
            if let Some(ty) = read_type(alloc, rest, line) {
                write_limit(line, TypeTree::new(ty).err());
            }
        }
        "within_func" => {
            let params = read_params(alloc, rest, line);
            write_limit(line, Func::new(params, None).err());
        }
        "equal" => write_equals(alloc, rest, line),
        "same" => write_same(alloc, rest, line),
        "has" => write_has(alloc, rest, line),
        "same_func" => write_same_func(alloc, rest, line),
        "faults" => write_faults(line),
        _ => line.refuse(),
    }
}

fn write_same(alloc: Global, words: &[&str], line: &mut Line) {
    let left = read_resources(alloc, word(words, 0), line);
    let right = read_resources(alloc, word(words, 1), line);
    let (a, b) = line.split(words_from(words, 2), "=");
    if let Some(a) = read_type(alloc, a, line) {
        if let Some(b) = read_type(alloc, b, line) {
            line.show(same_type(&a, &b, &left, &right));
        }
    }
}

fn write_has(alloc: Global, words: &[&str], line: &mut Line) {
    let (ty, value) = line.split(words, "=");
    if let Some(ty) = read_tree(alloc, ty, line) {
        if let Some(value) = read_value(alloc, value, line) {
            line.show(has_type(&value, &ty));
        }
    }
}

fn write_same_func(alloc: Global, funcs: &[&str], line: &mut Line) {
    let (a, b) = line.split(funcs, "=");
    if let Some(a) = read_func(alloc, a, line) {
        if let Some(b) = read_func(alloc, b, line) {
            line.show(same_func(&a, &b, &[], &[]));
        }
    }
}

/// Writes `within`, or the fault.
fn write_limit(line: &mut Line, fault: Option<TypeFault>) {
    match fault {
        None => line.put("within"),
        Some(fault) => line.fault(&fault),
    }
}

fn write_faults(line: &mut Line) {
    for fault in [TypeFault::TooLarge, TypeFault::NotSpellable] {
        line.number_of_debug(&fault, fault.number());
    }
}

/// Writes for each type its place, from 0, and then the places of the types that are equal to it.
fn write_equals(alloc: Global, words: &[&str], line: &mut Line) {
    let left = read_several(alloc, words, line);
    let right = read_several(alloc, words, line);
    for (i, a) in left.iter().enumerate() {
        if i > 0 {
            line.put(" ");
        }
        line.show(i);
        line.put(":");
        write_equals_of(line, a, &right);
    }
}

fn write_equals_of(line: &mut Line, ty: &TypeNode, others: &[TypeNode]) {
    for (i, other) in others.iter().enumerate() {
        if same_type(ty, other, &[], &[]) {
            line.show(i);
        }
    }
}

fn read_several(alloc: Global, words: &[&str], line: &mut Line) -> Vec<TypeNode> {
    let mut types = Vec::new(alloc);
    for words in words.split(|word| *word == "|") {
        if let Some(ty) = read_type(alloc, words, line) {
            line.push(&mut types, ty);
        }
    }
    types
}
