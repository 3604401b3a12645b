//! Values that hold no others.

ghost use Rattle.std.specs.Prelude.{◌≡◌, ◌≤◌, ◌^◌};
ghost use Rattle.cm_types.specs.ValueTrees.{value_of};
ghost use Rattle.cm_values.specs.Quoted.{one_char};
ghost use Rattle.cm_values.specs.Reading.{Reads};
ghost use Rattle.cm_values.specs.Values.{char_value, handle_value, signed_value};
ghost use Rattle.cm_values.specs.Values.{string_value, truth_value, unsigned_value};

use crate::cursor::Cursor;
use crate::numbers::read_magnitude;
use crate::quoted::read_quoted_text;
use crate::value_fault::{ReadError, ValueReason};
use cm_types::{ResourceId, Value};
use std::alloc::Global;

pub fn read_truth(cursor: &mut Cursor<'_>) -> Result<Value, ReadError>
    ensures { Reads truth_value value_of cursor.old cursor.new result }
{
    cursor.gap();
    let start = *cursor;
    let word = cursor.word()?;
    let yes: &[u8] = b"true";
    let no: &[u8] = b"false";
    if word == yes {
        Ok(Value::Bool(true))
    } else if word == no {
        Ok(Value::Bool(false))
    } else {
        Err(start.fault(ValueReason::Unexpected))
    }
}

/// Reads a number without a sign, below the limit.
pub fn read_unsigned(cursor: &mut Cursor<'_>, limit: u128) -> Result<Value, ReadError>
    requires { limit ≤ 2 ^ 64 }
    ensures { Reads (unsigned_value limit) value_of cursor.old cursor.new result }
{
    cursor.gap();
    Ok(Value::Unsigned(read_magnitude(cursor, limit)?))
}

/// Reads a number with a sign, from the negative of the limit up to what is below it.
pub fn read_signed(cursor: &mut Cursor<'_>, limit: u128) -> Result<Value, ReadError>
    requires { limit ≤ 2 ^ 63 }
    ensures { Reads (signed_value limit) value_of cursor.old cursor.new result }
{
    cursor.gap();
    if cursor.next_is(b'-') {
        cursor.expect(b'-')?;
        let number = i128::from(read_magnitude(cursor, limit + 1)?);
        Ok(Value::Signed(-number as i64))
    } else {
        let number = read_magnitude(cursor, limit)?;
        Ok(Value::Signed(number as i64))
    }
}

/// The one character of a text.
fn only_char(text: &str) -> Result<char, ValueReason>
    ensures { result ≡ one_char text.now }
{
    let mut chars = text.chars();
    match chars.next() {
        None => Err(ValueReason::NotOneChar),
        Some(scalar) => match chars.next() {
            None => Ok(scalar),
            Some(_) => Err(ValueReason::NotOneChar),
        },
    }
}

pub fn read_char(alloc: Global, cursor: &mut Cursor<'_>) -> Result<Value, ReadError>
    ensures { Reads char_value value_of cursor.old cursor.new result }
{
    cursor.gap();
    let start = *cursor;
    let text = read_quoted_text(alloc, cursor, b'\'')?;
    match only_char(text.as_str()) {
        Ok(scalar) => Ok(Value::Char(scalar)),
        Err(reason) => Err(start.fault(reason)),
    }
}

pub fn read_string(alloc: Global, cursor: &mut Cursor<'_>) -> Result<Value, ReadError>
    ensures { Reads string_value value_of cursor.old cursor.new result }
{
    cursor.gap();
    Ok(Value::String(read_quoted_text(alloc, cursor, b'"')?))
}

pub fn read_handle(cursor: &mut Cursor<'_>, resource: ResourceId) -> Result<Value, ReadError>
    ensures { Reads (handle_value resource) value_of cursor.old cursor.new result }
{
    cursor.mark(b'#')?;
    let serial = read_magnitude(cursor, 0x1_0000_0000_0000_0000)?;
    cursor.expect(b':')?;
    let rep = read_magnitude(cursor, 0x1_0000_0000)? as u32;
    Ok(Value::Handle {
        serial,
        rep,
        resource,
    })
}
