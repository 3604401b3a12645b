//! Words of a line, and those that are numbers and core values.

use crate::fault::HuxLineFault;
use cm_tool_script::{LineFault, read_u32, read_u64};

/// The first word of a text, and what stands behind it and a space, if a space is there.
pub(crate) fn first_word(text: &str) -> (&str, Option<&str>) {
    match text.split_once(' ') {
        Some((word, rest)) => (word, Some(rest)),
        None => (text, None),
    }
}

/// The first of several words, and what stands behind it and a space, if a space is there.
pub(crate) fn next_word(rest: Option<&str>) -> Option<(&str, Option<&str>)> {
    match rest {
        Some(text) => Some(first_word(text)),
        None => None,
    }
}

/// The number that a word is.
pub(crate) fn number(word: &str) -> Result<u32, HuxLineFault> {
    read_u32(word).ok_or(HuxLineFault::Line(LineFault::NotAStatement))
}

/// The component that a word names, of so many.
pub(crate) fn component(word: &str, components: usize) -> Result<u32, HuxLineFault> {
    let component = number(word)?;
    if (component as usize) < components {
        Ok(component)
    } else {
        Err(HuxLineFault::Line(LineFault::NoSuchComponent))
    }
}

fn is_value(word: &str) -> bool {
    match word.split_once(':') {
        Some(("i32", number)) => read_u32(number).is_some(),
        Some(("i64", number)) => read_u64(number).is_some(),
        _ => false,
    }
}

/// Whether words are core values, each `i32:N` or `i64:N`.
pub(crate) fn are_values(rest: Option<&str>) -> bool {
    match rest {
        Some(text) => text.split(' ').all(|word| is_value(word)),
        None => true,
    }
}

/// Whether words are so many numbers.
pub(crate) fn are_numbers(rest: Option<&str>, count: usize) -> bool {
    match rest {
        Some(text) => {
            text.split(' ').all(|word| read_u32(word).is_some()) && text.split(' ').count() == count
        }
        None => count == 0,
    }
}
