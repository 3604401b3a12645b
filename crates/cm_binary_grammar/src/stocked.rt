//! Forms that take of a stock, and several of them.

ghost use Rattle.std.specs.Prelude.{◌≡◌, ◌-◌, map};
ghost use Rattle.cm_binary_grammar.specs.Grammar.{chain, stocked};
ghost use Rattle.cm_binary_grammar.specs.Reading.{Reads};

use crate::cursor::Cursor;
use crate::fault::ReadError;
use std::alloc::Global;

/// A form of a format of which only so many may stand: how it is read out of a stock.
///
/// `R` are the reasons of the format's faults, and `Place` names the part of the format where the
/// form stands, as in [`Form`](crate::Form).
pub trait StockedForm<R: Copy, Place>: Drop + Sized {
    ghost use Rattle.std.specs.Prelude.{ℕ};
    ghost use Rattle.cm_binary_grammar.specs.Grammar.{Grammar};

    // A value as contracts see it.
    ghost Tree: { Type 0 };

    ghost tree: { Self → Tree };

    // Which bytes spell a value out of a stock of so many, and what is the first fault of others.
    ghost grammar: { ℕ → Grammar R Tree };

    // How many of the stock a value takes.
    ghost cost: { Tree → ℕ };

    /// Reads a value at the front of what is left, out of a stock of so many. Beside the grammar's
    /// faults it may be that memory is refused.
    fn read(alloc: Global, cursor: &mut Cursor<'_, R>, stock: usize) -> Result<Self, ReadError<R>>
        ensures read { Reads (grammar stock) tree cursor.old cursor.new result }
        ensures end { cursor.new.end ≡ cursor.old.end };

    /// What the value leaves of a stock of so many; nothing where it takes more.
    fn rest_of(&self, stock: usize) -> usize
        ensures { result ≡ stock - cost (tree self.now) };
}

/// Reads a count, and so many values out of a stock. A count that is no number is a fault of the
/// reason `bad` at its first byte.
pub fn read_stocked<R: Copy, Place, T: StockedForm<R, Place>>(
    alloc: Global,
    cursor: &mut Cursor<'_, R>,
    bad: R,
    stock: usize,
) -> Result<Vec<T>, ReadError<R>>
    ensures read { Reads (stocked bad T.grammar T.cost stock)
        (λ v. map T.tree v.items) cursor.old cursor.new result }
    ensures end { cursor.new.end ≡ cursor.old.end }
{
    let count = cursor.number(bad)?;
    read_so_many::<R, Place, T>(alloc, cursor, count, stock)
}

/// Reads so many values out of a stock.
fn read_so_many<R: Copy, Place, T: StockedForm<R, Place>>(
    alloc: Global,
    cursor: &mut Cursor<'_, R>,
    count: u32,
    stock: usize,
) -> Result<Vec<T>, ReadError<R>>
    ensures read { Reads (chain T.grammar (λ left x. left - T.cost x) count stock)
        (λ v. map T.tree v.items) cursor.old cursor.new result }
    ensures end { cursor.new.end ≡ cursor.old.end }
{
    let mut values = Vec::new(alloc);
    let mut left = stock;
    for _ in 0..count {
        let value = T::read(alloc, cursor, left)?;
        left = value.rest_of(left);
        values.push(value)?;
    }
    Ok(values)
}
