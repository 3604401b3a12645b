//! Forms: values that are read by a grammar, one or several of them.

ghost use Rattle.std.specs.Prelude.{◌≡◌, ◌++◌, map, OnOk};
ghost use Rattle.cm_binary_grammar.specs.Grammar.{times, vec};
ghost use Rattle.cm_binary_grammar.specs.Reading.{Reads};
ghost use Rattle.cm_binary_grammar.specs.Spelling.{blob_spelling};

use crate::cursor::Cursor;
use crate::fault::ReadError;
use cm_leb::formats::write_count;
use std::alloc::{AllocError, Global};

/// A form of a format: how it is read at a place of it.
///
/// `R` are the reasons of the format's faults. `Place` names the part of the format where the form
/// stands, since values of one type may be spelled otherwise in another part; it has no values of
/// its own.
pub trait Form<R: Copy, Place>: Drop + Sized {
    ghost use Rattle.cm_binary_grammar.specs.Grammar.{Grammar};

    // A value as contracts see it.
    ghost Tree: { Type 0 };

    ghost tree: { Self → Tree };

    // Which bytes spell a value, and what is the first fault of others.
    ghost grammar: { Grammar R Tree };

    /// Reads a value at the front of what is left. Beside the grammar's faults it may be that
    /// memory is refused.
    fn read(alloc: Global, cursor: &mut Cursor<'_, R>) -> Result<Self, ReadError<R>>
        ensures read { Reads grammar tree cursor.old cursor.new result }
        ensures end { cursor.new.end ≡ cursor.old.end };
}

/// Reads a count, and so many values. A count that is no number is a fault of the reason `bad` at
/// its first byte.
pub fn read_vec<R: Copy, Place, T: Form<R, Place>>(
    alloc: Global,
    cursor: &mut Cursor<'_, R>,
    bad: R,
) -> Result<Vec<T>, ReadError<R>>
    ensures read { Reads (vec bad T.grammar)
        (λ v. map T.tree v.items) cursor.old cursor.new result }
    ensures end { cursor.new.end ≡ cursor.old.end }
{
    let count = cursor.number(bad)?;
    read_times::<R, Place, T>(alloc, cursor, count)
}

/// Reads so many values.
fn read_times<R: Copy, Place, T: Form<R, Place>>(
    alloc: Global,
    cursor: &mut Cursor<'_, R>,
    count: u32,
) -> Result<Vec<T>, ReadError<R>>
    ensures read { Reads (times T.grammar count)
        (λ v. map T.tree v.items) cursor.old cursor.new result }
    ensures end { cursor.new.end ≡ cursor.old.end }
{
    let mut values = Vec::new(alloc);
    for _ in 0..count {
        let value = T::read(alloc, cursor)?;
        values.push(value)?;
    }
    Ok(values)
}

/// Appends the number of bytes, and the bytes. Where memory is refused the list may hold a part of
/// them.
pub fn write_blob(out: &mut Vec<u8>, bytes: &[u8]) -> Result<(), AllocError>
    ensures { OnOk result (out.new.items ≡ out.old.items ++ blob_spelling bytes.now) }
{
    write_count(out, bytes.len())?;
    out.extend_from_slice(bytes)
}
