//! Core values, as rows spell them: `i32:NUMBER` or `i64:NUMBER`.

use crate::line::Line;
use crate::words::split_repeat;
use cm_types::CoreValue;
use std::alloc::Global;

/// The core values that words spell, where `N*` before one stands for N of them.
pub fn read_core_values(alloc: Global, words: &[&str], line: &mut Line) -> Vec<CoreValue> {
    let mut values = Vec::new(alloc);
    for word in words {
        let (times, word) = split_repeat(word);
        let value = read_core_value(word, line);
        for _ in 0..times {
            line.push(&mut values, value);
        }
    }
    values
}

/// The core value that a word spells.
pub fn read_core_value(word: &str, line: &mut Line) -> CoreValue {
    match word.split_once(':') {
        Some(("i32", number)) => CoreValue::I32(line.number(number)),
        Some(("i64", number)) => CoreValue::I64(line.number(number)),
        _ => {
            line.refuse();
            CoreValue::I32(0)
        }
    }
}

/// Writes each core value behind a space.
pub fn write_core_values(line: &mut Line, values: &[CoreValue]) {
    for value in values {
        match value {
            CoreValue::I32(number) => {
                line.put(" i32:");
                line.show(*number);
            }
            CoreValue::I64(number) => {
                line.put(" i64:");
                line.show(*number);
            }
        }
    }
}
