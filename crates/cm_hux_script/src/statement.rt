//! The statements of scripts of `hux`, one a line.

use crate::check::Wanted;
use crate::events::event_line;
use crate::fault::HuxLineFault;
use crate::functions::{CoreNames, FuncWord, func_number, func_word};
use crate::numbers::{component, first_word, next_word, number};
use cm_tool_script::{LineFault, ScriptFault, Statement, script_bytes};
use std::alloc::Global;

/// The most bytes that one statement prints.
pub(crate) const MAX_PRINTED: u32 = 65_536;

/// A statement: one of `component_tool`, or what is to be seen.
#[derive(Drop)]
pub(crate) enum HuxStatement {
    Plain(Statement),
    Check(Wanted),
}

/// The statement that a line is, where the guest of this component is named last.
pub(crate) fn read_statement<N: CoreNames>(
    alloc: Global,
    line: &str,
    guest: Option<usize>,
    names: &N,
) -> Result<HuxStatement, HuxLineFault> {
    let (first, rest) = first_word(line);
    match (first, rest) {
        ("expect", Some(event)) => {
            let line = event_line(alloc, event, names)?;
            Ok(HuxStatement::Check(Wanted::Event(line)))
        }
        ("memory", rest) => Ok(HuxStatement::Check(read_memory(alloc, rest, names)?)),
        ("print", rest) => Ok(HuxStatement::Check(read_print(rest, names)?)),
        ("call", Some(rest)) => Ok(HuxStatement::Plain(read_call(
            alloc, line, rest, guest, names,
        )?)),
        _ => Ok(HuxStatement::Plain(Statement::parse(alloc, line)?)),
    }
}

/// `memory I AT HEX`, from `I` on.
fn read_memory<N: CoreNames>(
    alloc: Global,
    rest: Option<&str>,
    names: &N,
) -> Result<Wanted, HuxLineFault> {
    let (instance, at, last) = read_place(rest, names)?;
    let bytes = match script_bytes(alloc, last) {
        Ok(bytes) => bytes,
        Err(ScriptFault::BadHex) => return Err(HuxLineFault::Line(LineFault::BadHex)),
        Err(ScriptFault::Memory) => return Err(HuxLineFault::Line(LineFault::Memory)),
    };
    Ok(Wanted::Memory {
        instance,
        at,
        bytes,
    })
}

/// `print I AT SIZE`, from `I` on.
fn read_print<N: CoreNames>(rest: Option<&str>, names: &N) -> Result<Wanted, HuxLineFault> {
    let (instance, at, last) = read_place(rest, names)?;
    let size = number(last)?;
    if size > MAX_PRINTED {
        return Err(HuxLineFault::TooMany);
    }
    Ok(Wanted::Print { instance, at, size })
}

/// An instance, an address, and the only word behind them.
fn read_place<'a, N: CoreNames>(
    rest: Option<&'a str>,
    names: &N,
) -> Result<(u32, u32, &'a str), HuxLineFault> {
    let Some((instance, rest)) = next_word(rest) else {
        return Err(HuxLineFault::Line(LineFault::NotAStatement));
    };
    let Some((at, Some(last))) = next_word(rest) else {
        return Err(HuxLineFault::Line(LineFault::NotAStatement));
    };
    Ok((component(instance, names.count())?, number(at)?, last))
}

/// A call, whose core function may stand by its name: the statement with the number in its place.
fn read_call<N: CoreNames>(
    alloc: Global,
    line: &str,
    rest: &str,
    guest: Option<usize>,
    names: &N,
) -> Result<Statement, HuxLineFault> {
    let (word, values) = func_word(rest)?;
    if let FuncWord::Number(_) = word {
        return Ok(Statement::parse(alloc, line)?);
    }
    let guest = guest.ok_or(HuxLineFault::Line(LineFault::NoGuest))?;
    let func = func_number(word, guest, names)?;
    let line = match values {
        Some(values) => format!(in alloc; "call {func} {values}")?,
        None => format!(in alloc; "call {func}")?,
    };
    Ok(Statement::parse(alloc, line.as_str())?)
}
