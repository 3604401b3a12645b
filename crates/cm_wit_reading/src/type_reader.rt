//! Reading types.

ghost use Rattle.std.specs.Prelude.{◌≡◌, ◌+◌, map, zero, suc};
ghost use Rattle.std.specs.Option.{option_map};
ghost use Rattle.cm_wit_tokens.specs.declared.operator.Operator.TheVariants as operator;
ghost use Rattle.cm_wit_tokens.specs.Faults.{Gives};
ghost use Rattle.cm_wit_tokens.specs.Grammar.{first, passes, token, steps, with_front};
ghost use Rattle.cm_wit_tokens.specs.Lists.{items, next_item};
ghost use Rattle.cm_wit_tokens.specs.Reading.{Reads};
ghost use Rattle.cm_wit_reading.specs.Types.{begins_type_in, borrow_rest, error_rest, list_rest};
ghost use Rattle.cm_wit_reading.specs.Types.{only_error, option_rest, result_rest, start_in};
ghost use Rattle.cm_wit_reading.specs.Types.{tuple_rest, ty};
ghost use Rattle.cm_wit_reading.specs.TypeViews.{head_tree, type_tree};

use crate::types::{Head, WitType, begins_type_in, keyword_head};
use cm_wit_tokens::{Cursor, Form, Operator, ReadError, WitReason};
use std::alloc::Global;

/// Reads what the first token of a type says.
fn read_head(cursor: &mut Cursor, borrows: bool) -> Result<Head, ReadError>
    ensures { Reads (token (start_in borrows)) head_tree cursor.old cursor.new result }
{
    let keyword = match cursor.next() {
        Some(Form::Identifier(_)) => return Ok(Head::Named(cursor.identifier()?)),
        Some(Form::Keyword(keyword)) => *keyword,
        _ => return Err(cursor.unexpected()),
    };
    match keyword_head(keyword) {
        Some(Head::Borrow) if !borrows => Err(cursor.unexpected()),
        Some(head) => {
            cursor.take();
            Ok(head)
        }
        None => Err(cursor.unexpected()),
    }
}

/// Whether the next token begins a type; without `borrows` no borrow.
fn next_begins_type_in(cursor: &Cursor, borrows: bool) -> bool
    ensures { result ≡ passes (begins_type_in borrows) (first cursor.now) }
{
    match cursor.next() {
        Some(form) => begins_type_in(form, borrows),
        None => false,
    }
}

/// The fault where a type would be too deep.
#[tactic(auto, using(crate::proofs::TypeLaws::deep_where_type))]
fn too_deep(cursor: &Cursor, borrows: bool) -> Result<WitType, ReadError>
    ensures { Reads (ty borrows 0) type_tree cursor.now cursor.now result }
{
    if next_begins_type_in(cursor, borrows) {
        Err(ReadError::Fault(WitReason::TooDeep))
    } else {
        Err(cursor.unexpected())
    }
}

fn read_borrow(cursor: &mut Cursor) -> Result<WitType, ReadError>
    ensures { Reads borrow_rest type_tree cursor.old cursor.new result }
{
    cursor.expect(Operator::LessThan)?;
    let name = cursor.identifier()?;
    cursor.expect(Operator::GreaterThan)?;
    Ok(WitType::Borrow(name))
}

/// Reads a type that is at most `room` deep; without `borrows` no borrow may stand in it. A
/// deeper one is a fault at the first byte of the first type in it that is.
#[cycle(types)]
#[tactic(auto, unfolding(crate::specs::Types::ty))]
pub fn read_type(
    alloc: Global,
    cursor: &mut Cursor,
    borrows: bool,
    room: u32,
) -> Result<WitType, ReadError>
    ensures { Reads (ty borrows room) type_tree cursor.old cursor.new result }
{
    if room == 0 {
        return too_deep(cursor, borrows);
    }
    match read_head(cursor, borrows)? {
        Head::Primitive(primitive) => Ok(WitType::Primitive(primitive)),
        Head::Named(name) => Ok(WitType::Named(name)),
        Head::Borrow => read_borrow(cursor),
        Head::List => read_list(alloc, cursor, borrows, room - 1),
        Head::Option => read_option(alloc, cursor, borrows, room - 1),
        Head::Tuple => read_tuple(alloc, cursor, borrows, room - 1),
        Head::Result => read_result(alloc, cursor, borrows, room - 1),
    }
}

#[cycle(types)]
fn read_list(
    alloc: Global,
    cursor: &mut Cursor,
    borrows: bool,
    room: u32,
) -> Result<WitType, ReadError>
    ensures { Reads (list_rest (ty borrows room)) type_tree cursor.old cursor.new result }
{
    cursor.expect(Operator::LessThan)?;
    let element = Box::new(alloc, read_type(alloc, cursor, borrows, room)?)?;
    if cursor.next_is(Operator::Comma) {
        cursor.expect(Operator::Comma)?;
        let length = cursor.length()?;
        cursor.expect(Operator::GreaterThan)?;
        Ok(WitType::FixedList { element, length })
    } else {
        cursor.expect(Operator::GreaterThan)?;
        Ok(WitType::List(element))
    }
}

#[cycle(types)]
fn read_option(
    alloc: Global,
    cursor: &mut Cursor,
    borrows: bool,
    room: u32,
) -> Result<WitType, ReadError>
    ensures { Reads (option_rest (ty borrows room)) type_tree cursor.old cursor.new result }
{
    cursor.expect(Operator::LessThan)?;
    let payload = Box::new(alloc, read_type(alloc, cursor, borrows, room)?)?;
    cursor.expect(Operator::GreaterThan)?;
    Ok(WitType::Option(payload))
}

#[cycle(types)]
fn read_tuple(
    alloc: Global,
    cursor: &mut Cursor,
    borrows: bool,
    room: u32,
) -> Result<WitType, ReadError>
    ensures { Reads (tuple_rest (ty borrows room)) type_tree cursor.old cursor.new result }
{
    cursor.expect(Operator::LessThan)?;
    let types = read_types(alloc, cursor, borrows, room)?;
    cursor.expect(Operator::GreaterThan)?;
    Ok(WitType::Tuple(types))
}

/// Reads one type, and others behind commas.
#[cycle(types)]
fn read_types(
    alloc: Global,
    cursor: &mut Cursor,
    borrows: bool,
    room: u32,
) -> Result<Vec<WitType>, ReadError>
    ensures { Reads (items operator.GreaterThan (ty borrows room)) (λ v. map type_tree v.items)
        cursor.old cursor.new result }
{
    let mut types = Vec::new(alloc);
    types.push(read_type(alloc, cursor, borrows, room)?)?;
    read_further_types(alloc, cursor, borrows, room, types)
}

/// Reads the types behind commas, and puts them behind those that were read.
#[cycle(types)]
fn read_further_types(
    alloc: Global,
    cursor: &mut Cursor,
    borrows: bool,
    room: u32,
    mut types: Vec<WitType>,
) -> Result<Vec<WitType>, ReadError>
    ensures { Gives (λ v. map type_tree v.items) cursor.new result (with_front
        (map type_tree types.items)
        ((steps (next_item operator.GreaterThan (ty borrows room))).reads cursor.old)) }
{
    while let Some(ty) = read_next_type(alloc, cursor, borrows, room)? {
        types.push(ty)?;
    }
    Ok(types)
}

/// Reads a comma and the type behind it, where they stand.
#[cycle(types)]
fn read_next_type(
    alloc: Global,
    cursor: &mut Cursor,
    borrows: bool,
    room: u32,
) -> Result<Option<WitType>, ReadError>
    ensures { Reads (next_item operator.GreaterThan (ty borrows room)) (λ o. option_map type_tree o)
        cursor.old cursor.new result }
{
    if !cursor.next_is(Operator::Comma) {
        return Ok(None);
    }
    cursor.expect(Operator::Comma)?;
    if cursor.next_is(Operator::GreaterThan) {
        Ok(None)
    } else {
        Ok(Some(read_type(alloc, cursor, borrows, room)?))
    }
}

#[cycle(types)]
fn read_result(
    alloc: Global,
    cursor: &mut Cursor,
    borrows: bool,
    room: u32,
) -> Result<WitType, ReadError>
    ensures { Reads (result_rest (ty borrows room)) type_tree cursor.old cursor.new result }
{
    if !cursor.next_is(Operator::LessThan) {
        return Ok(WitType::Result {
            ok: None,
            error: None,
        });
    }
    cursor.expect(Operator::LessThan)?;
    if cursor.next_is(Operator::Underscore) {
        read_only_error(alloc, cursor, borrows, room)
    } else {
        let ok = Box::new(alloc, read_type(alloc, cursor, borrows, room)?)?;
        read_error(alloc, cursor, borrows, room, ok)
    }
}

#[cycle(types)]
fn read_only_error(
    alloc: Global,
    cursor: &mut Cursor,
    borrows: bool,
    room: u32,
) -> Result<WitType, ReadError>
    ensures { Reads (only_error (ty borrows room)) type_tree cursor.old cursor.new result }
{
    cursor.expect(Operator::Underscore)?;
    cursor.expect(Operator::Comma)?;
    let error = Box::new(alloc, read_type(alloc, cursor, borrows, room)?)?;
    cursor.expect(Operator::GreaterThan)?;
    Ok(WitType::Result {
        ok: None,
        error: Some(error),
    })
}

#[cycle(types)]
fn read_error(
    alloc: Global,
    cursor: &mut Cursor,
    borrows: bool,
    room: u32,
    ok: Box<WitType>,
) -> Result<WitType, ReadError>
    ensures { Reads (error_rest (ty borrows room) (type_tree ok.value)) type_tree
        cursor.old cursor.new result }
{
    if cursor.next_is(Operator::Comma) {
        cursor.expect(Operator::Comma)?;
        let error = Box::new(alloc, read_type(alloc, cursor, borrows, room)?)?;
        cursor.expect(Operator::GreaterThan)?;
        Ok(WitType::Result {
            ok: Some(ok),
            error: Some(error),
        })
    } else {
        cursor.expect(Operator::GreaterThan)?;
        Ok(WitType::Result {
            ok: Some(ok),
            error: None,
        })
    }
}
