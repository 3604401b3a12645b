//! Lists of things of one grammar.

ghost use Rattle.std.specs.Prelude.{◌≡◌, map};
ghost use Rattle.std.specs.Option.{option_map};
ghost use Rattle.cm_wit_tokens.specs.Exact.{Lawful, Shortens};
ghost use Rattle.cm_wit_tokens.specs.Faults.{Gives};
ghost use Rattle.cm_wit_tokens.specs.Grammar.{steps, with_front};
ghost use Rattle.cm_wit_tokens.specs.Reading.{Reads};
ghost use Rattle.cm_wit_tokens.specs.Lists.{at_most, items, items_and, last_comma, members};
ghost use Rattle.cm_wit_tokens.specs.Lists.{next_item, next_member};

use crate::cursor::Cursor;
use crate::fault::ReadError;
use crate::{Label, Operator};
use std::alloc::Global;

/// A form of WIT texts: how it is read.
pub trait Item: Drop + Sized {
    ghost use Rattle.cm_wit_tokens.specs.Grammar.{Grammar};
    ghost use Rattle.cm_wit_tokens.specs.Reading.{Reads};

    // A value as contracts see it.
    ghost Tree: { Type 0 };

    ghost tree: { Self → Tree };

    // Which tokens spell a value, and what is the first fault of others.
    ghost grammar: { Grammar Tree };

    /// Reads a value at the front of the tokens that are left. Beside the grammar's faults it may
    /// be that memory is refused.
    fn read(alloc: Global, cursor: &mut Cursor) -> Result<Self, ReadError>
        ensures { Reads grammar tree cursor.old cursor.new result };
}

impl Item for Label {
    ghost use Rattle.std.specs.Prelude.{ℕ, List};
    ghost use Rattle.cm_wit_tokens.specs.Parts.{identifier};

    ghost Tree = { List ℕ };

    ghost tree = { λ label. label };

    ghost grammar = { identifier };

    fn read(_alloc: Global, cursor: &mut Cursor) -> Result<Label, ReadError> {
        cursor.identifier()
    }
}

/// Reads a comma and the thing behind it, where they stand.
fn next_item<T: Item>(
    alloc: Global,
    cursor: &mut Cursor,
    closing: Operator,
) -> Result<Option<T>, ReadError>
    ensures { Reads (next_item closing T.grammar) (λ o. option_map T.tree o)
        cursor.old cursor.new result }
{
    if !cursor.next_is(Operator::Comma) {
        return Ok(None);
    }
    cursor.expect(Operator::Comma)?;
    if cursor.next_is(closing) {
        Ok(None)
    } else {
        Ok(Some(T::read(alloc, cursor)?))
    }
}

/// Reads the things behind commas, and puts them behind those that were read.
fn further_items<T: Item>(
    alloc: Global,
    cursor: &mut Cursor,
    closing: Operator,
    mut list: Vec<T>,
) -> Result<Vec<T>, ReadError>
    requires { Lawful T.grammar }
    ensures { Gives (λ v. map T.tree v.items) cursor.new result (with_front
        (map T.tree list.items) ((steps (next_item closing T.grammar)).reads cursor.old)) }
{
    while let Some(one) = next_item::<T>(alloc, cursor, closing)? {
        list.push(one)?;
    }
    Ok(list)
}

/// Reads things, at least one, one behind the other with commas, up to the mark that closes the
/// list; one more comma may stand behind the last.
pub fn read_items<T: Item>(
    alloc: Global,
    cursor: &mut Cursor,
    closing: Operator,
) -> Result<Vec<T>, ReadError>
    requires { Lawful T.grammar }
    ensures { Reads (items closing T.grammar) (λ v. map T.tree v.items)
        cursor.old cursor.new result }
{
    let mut list = Vec::new(alloc);
    list.push(T::read(alloc, cursor)?)?;
    further_items(alloc, cursor, closing, list)
}

fn last_comma(cursor: &mut Cursor) -> Result<(), ReadError>
    ensures { Reads last_comma (λ _. tt) cursor.old cursor.new result }
{
    if cursor.next_is(Operator::Comma) {
        cursor.expect(Operator::Comma)?;
    }
    Ok(())
}

/// Reads things behind commas, so many at most, and puts them behind those that were read.
fn at_most<T: Item>(
    alloc: Global,
    cursor: &mut Cursor,
    closing: Operator,
    most: usize,
    mut list: Vec<T>,
) -> Result<Vec<T>, ReadError>
    ensures { Gives (λ v. map T.tree v.items) cursor.new result (with_front
        (map T.tree list.items) ((at_most most closing T.grammar).reads cursor.old)) }
{
    for _turn in 0..most {
        match next_item::<T>(alloc, cursor, closing)? {
            Some(one) => list.push(one)?,
            None => return Ok(list),
        }
    }
    last_comma(cursor)?;
    Ok(list)
}

/// Reads things, at least one and so many more at most, as [`read_items`] does.
pub fn read_items_and<T: Item>(
    alloc: Global,
    cursor: &mut Cursor,
    closing: Operator,
    more: usize,
) -> Result<Vec<T>, ReadError>
    ensures { Reads (items_and more closing T.grammar) (λ v. map T.tree v.items)
        cursor.old cursor.new result }
{
    let mut list = Vec::new(alloc);
    list.push(T::read(alloc, cursor)?)?;
    at_most(alloc, cursor, closing, more, list)
}

/// Reads one more thing, but before a `}` and at the end.
fn next_member<T: Item>(alloc: Global, cursor: &mut Cursor) -> Result<Option<T>, ReadError>
    ensures { Reads (next_member T.grammar) (λ o. option_map T.tree o)
        cursor.old cursor.new result }
{
    match cursor.next() {
        Some(form) if !form.is_operator(Operator::RightBrace) => Ok(Some(T::read(alloc, cursor)?)),
        _ => Ok(None),
    }
}

/// Reads things one behind the other, up to a `}` or to the end of the tokens.
pub fn read_members<T: Item>(alloc: Global, cursor: &mut Cursor) -> Result<Vec<T>, ReadError>
    requires lawful { Lawful T.grammar }
    requires shortens { Shortens T.grammar }
    ensures { Reads (members T.grammar) (λ v. map T.tree v.items) cursor.old cursor.new result }
{
    let mut list = Vec::new(alloc);
    while let Some(one) = next_member::<T>(alloc, cursor)? {
        list.push(one)?;
    }
    Ok(list)
}
