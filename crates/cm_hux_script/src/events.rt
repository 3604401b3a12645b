//! Events that are expected.

use crate::fault::HuxLineFault;
use crate::functions::{CoreNames, func_number, func_word};
use crate::numbers::{are_numbers, are_values, component, first_word, next_word, number};
use crate::traps::{is_trap, trap_named};
use cm_tool_script::read_u32;
use std::alloc::Global;

/// How many numbers an allocator gets.
const ALLOCATOR_NUMBERS: usize = 4;

/// The line of the event that a text says, in which a core function may stand by its name, and a
/// trap too.
pub(crate) fn event_line<N: CoreNames>(
    alloc: Global,
    text: &str,
    names: &N,
) -> Result<String, HuxLineFault> {
    let (kind, rest) = first_word(text);
    match kind {
        "enter" | "postreturn" | "realloc" | "dtor" => body_line(alloc, kind, rest, names),
        "trapped" => trap_line(alloc, rest),
        _ if is_plain(kind, rest, names)? => Ok(String::from_str(alloc, text)?),
        _ => Err(HuxLineFault::NotAnEvent),
    }
}

/// Whether these words may stand behind the core function of an event of this kind.
fn are_given(kind: &str, rest: Option<&str>) -> bool {
    match kind {
        "realloc" => are_numbers(rest, ALLOCATOR_NUMBERS),
        "dtor" => are_numbers(rest, 1),
        _ => are_values(rest),
    }
}

/// The instance that a word names, of so many.
fn instance(word: &str, count: usize) -> Result<u32, HuxLineFault> {
    match read_u32(word) {
        None => Err(HuxLineFault::NotAnEvent),
        Some(_) => component(word, count),
    }
}

/// Whether these are the words of an event that names no core function and no trap.
fn is_plain<N: CoreNames>(kind: &str, rest: Option<&str>, names: &N) -> Result<bool, HuxLineFault> {
    match (kind, rest) {
        ("done" | "ended", None) => Ok(true),
        ("grown", Some(word)) => Ok(word == "none" || read_u32(word).is_some()),
        ("resume", Some(text)) => {
            let (word, values) = first_word(text);
            let _instance = instance(word, names.count())?;
            Ok(are_values(values))
        }
        _ => Ok(false),
    }
}

/// The line of an event at which a core function begins: `KIND I F ..`, where the words behind F
/// are as they have to be.
fn body_line<N: CoreNames>(
    alloc: Global,
    kind: &str,
    rest: Option<&str>,
    names: &N,
) -> Result<String, HuxLineFault> {
    let Some((word, Some(rest))) = next_word(rest) else {
        return Err(HuxLineFault::NotAnEvent);
    };
    let instance = instance(word, names.count())?;
    let Ok((func, rest)) = func_word(rest) else {
        return Err(HuxLineFault::NotAnEvent);
    };
    if !are_given(kind, rest) {
        return Err(HuxLineFault::NotAnEvent);
    }
    let func = func_number(func, instance as usize, names)?;
    Ok(match rest {
        Some(rest) => format!(in alloc; "{kind} {instance} {func} {rest}")?,
        None => format!(in alloc; "{kind} {instance} {func}")?,
    })
}

/// The line of a trap, which stands by its number or its name.
fn trap_line(alloc: Global, rest: Option<&str>) -> Result<String, HuxLineFault> {
    let Some(word) = rest else {
        return Err(HuxLineFault::NotAnEvent);
    };
    if let Some(trap) = trap_named(word) {
        let number = trap.number();
        return Ok(format!(in alloc; "trapped {number}")?);
    }
    match number(word) {
        Ok(number) if is_trap(number) => Ok(format!(in alloc; "trapped {number}")?),
        _ => Err(HuxLineFault::NoSuchTrap),
    }
}
