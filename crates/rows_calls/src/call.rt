//! The calls of rows.

ghost use Rattle.std.specs.Prelude.{◌≡◌, ◌<◌, ◌^◌, IfOk, length};
ghost use Rattle.std.specs.Option.{IfSome};
ghost use Rattle.cm_abi_model.specs.Receives.{call_kinds};
ghost use Rattle.cm_abi_model.specs.Requests.{IsStored};
ghost use Rattle.cm_abi_model.specs.Ways.{way_of};
ghost use Rattle.cm_types.specs.Funcs.{func_of};
ghost use Rattle.cm_types.specs.Types.{Fields};
ghost use Rattle.rows_calls.specs.Calls.{IsOf};

use crate::giving::read_receiver;
use crate::passing::{read_encoding, read_way};
use cm_abi_model::{Receiver, Request, StringEncoding, Way};
use cm_layout::{FlatFunc, Layout, Side, flatten_func, layout_of_params};
use cm_rows::{Line, RowFault, make_func, read_core_values};
use cm_types::{CoreKind, CoreValue, Func};
use std::alloc::{AllocError, Global};

/// How strings are encoded on both sides of a call, how many bytes the receiver's memory has, and
/// who it is.
#[derive(Clone, Copy)]
pub struct Sides {
    pub source: StringEncoding,
    pub target: StringEncoding,
    pub length: u32,
    pub to: Receiver,
}

/// A call: what its giver passes, and what its receiver answers.
#[derive(Drop)]
pub struct Call {
    pub sides: Sides,
    pub way: Way,
    pub layout: Layout,
    pub kinds: Vec<CoreKind>,
    pub slots: Vec<CoreValue>,
    pub memory: Vec<u8>,
    pub answers: Vec<u32>,
}

/// An encoding in which strings are stored.
pub fn read_stored(word: &str, line: &mut Line) -> StringEncoding
    ensures { IsStored result }
{
    match read_encoding(word, line) {
        StringEncoding::Latin1OrUtf16 => {
            line.refuse();
            StringEncoding::Utf8
        }
        StringEncoding::Utf8 => StringEncoding::Utf8,
        StringEncoding::Utf16 => StringEncoding::Utf16,
    }
}

/// What words say of both sides.
pub fn read_sides(
    source: &str,
    target: &str,
    length: &str,
    instance: &str,
    line: &mut Line,
) -> Sides
    ensures { IsStored result.target }
{
    let target = read_stored(target, line);
    Sides {
        source: read_encoding(source, line),
        target,
        length: line.number(length),
        to: read_receiver(instance, line),
    }
}

/// The kinds of the core values that pass the parameters of a function one way or the other.
fn kinds_passed(alloc: Global, func: &Func, way: Way) -> Result<Vec<CoreKind>, AllocError>
    ensures { IfOk result (λ ks. ks.items ≡ call_kinds (way_of way) (func_of func.now).params) }
{
    let FlatFunc { params, .. } = flatten_func(alloc, func, Side::Lift)?;
    if params.len() <= way.flat_limit() {
        return Ok(params);
    }
    let mut pointer = Vec::new(alloc);
    pointer.push(CoreKind::I32)?;
    Ok(pointer)
}

/// The bytes of a memory, of which more than 2^30 are no row.
fn read_memory(alloc: Global, word: &str, line: &mut Line) -> Vec<u8>
    ensures { length result.items < 2 ^ 62 }
{
    let memory = line.bytes(alloc, word);
    if memory.len() > 1 << 30 {
        line.refuse();
        return Vec::new(alloc);
    }
    memory
}

/// The call that words say: `TYPE.. = SLOT..`, the giver's memory, and the answers.
pub fn read_call(
    alloc: Global,
    sides: Sides,
    way: &str,
    memory: &str,
    words: &[&str],
    answers: &[&str],
    line: &mut Line,
) -> Option<Call>
    requires { IsStored sides.target }
    ensures { IfSome result (λ c. (types : Fields) × IsOf c types) }
{
    let way = read_way(way, line);
    let (types, slots) = line.split(words, "=");
    let func = make_func(alloc, types, None, line)?;
    let Ok(layout) = layout_of_params(alloc, &func) else {
        line.fail(RowFault::Memory);
        return None;
    };
    let Ok(kinds) = kinds_passed(alloc, &func, way) else {
        line.fail(RowFault::Memory);
        return None;
    };
    Some(Call {
        sides,
        way,
        layout,
        kinds,
        slots: read_core_values(alloc, slots, line),
        memory: read_memory(alloc, memory, line),
        answers: read_answers(alloc, answers, line),
    })
}

/// The numbers that words say.
pub fn read_answers(alloc: Global, words: &[&str], line: &mut Line) -> Vec<u32> {
    let mut answers = Vec::new(alloc);
    for word in words {
        let answer = line.number(word);
        line.push(&mut answers, answer);
    }
    answers
}

/// Writes a request behind a space, with its old pointer.
pub fn write_request(line: &mut Line, request: Request, old: u32) {
    line.put(" (");
    line.show(old);
    line.put(",");
    line.show(request.old_size);
    line.put(",");
    line.show(request.align);
    line.put(",");
    line.show(request.size);
    line.put(")");
}
