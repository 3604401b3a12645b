//! Core functions as a line names them.

use crate::fault::{HuxLineFault, NameFault};
use crate::numbers::first_word;
use cm_tool_script::{LineFault, read_u32};

/// The core functions of components by name.
pub trait CoreNames {
    /// How many components there are.
    fn count(&self) -> usize;

    /// The core function of a component, both from 0, to which a name leads: that which lowers the
    /// import of the name, else the only export of a core instance that has it.
    fn core_func(&self, component: usize, name: &str) -> Result<u32, NameFault>;
}

/// A core function as a line names it.
#[derive(Clone, Copy)]
pub(crate) enum FuncWord<'a> {
    Number(u32),
    Name(&'a str),
}

/// The core function that a text begins with, and the words behind it. A name that begins with a
/// digit or has a space stands between double quotes; else they may be left out.
pub(crate) fn func_word(text: &str) -> Result<(FuncWord<'_>, Option<&str>), HuxLineFault> {
    match text.strip_prefix('"') {
        Some(quoted) => quoted_name(quoted),
        None => {
            let (word, rest) = first_word(text);
            Ok((plain_word(word)?, rest))
        }
    }
}

/// The name before the next quote.
fn quoted_name(quoted: &str) -> Result<(FuncWord<'_>, Option<&str>), HuxLineFault> {
    match quoted.split_once('"') {
        Some((name, "")) => Ok((FuncWord::Name(name), None)),
        Some((name, rest)) => match rest.strip_prefix(' ') {
            Some(rest) => Ok((FuncWord::Name(name), Some(rest))),
            None => Err(HuxLineFault::Line(LineFault::NotAStatement)),
        },
        None => Err(HuxLineFault::Line(LineFault::NotAStatement)),
    }
}

/// A word that is a number, or else a name that begins with no digit.
fn plain_word(word: &str) -> Result<FuncWord<'_>, HuxLineFault> {
    match word.as_bytes() {
        [] => Err(HuxLineFault::Line(LineFault::NotAStatement)),
        [b'0'..=b'9', ..] => match read_u32(word) {
            Some(number) => Ok(FuncWord::Number(number)),
            None => Err(HuxLineFault::Line(LineFault::NotAStatement)),
        },
        _ => Ok(FuncWord::Name(word)),
    }
}

/// The number of the core function of a component that a line names.
pub(crate) fn func_number<N: CoreNames>(
    word: FuncWord<'_>,
    component: usize,
    names: &N,
) -> Result<u32, HuxLineFault> {
    match word {
        FuncWord::Number(number) => Ok(number),
        FuncWord::Name(name) => match names.core_func(component, name) {
            Ok(number) => Ok(number),
            Err(fault) => Err(HuxLineFault::Name(fault)),
        },
    }
}
