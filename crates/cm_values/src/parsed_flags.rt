//! Flags.

ghost use Rattle.std.specs.Prelude.{◌≡◌, ◌<◌, ◌≤◌, ◌^◌, IfOk, IfSome, length};
ghost use Rattle.cm_types.specs.ValueTrees.{value_of};
ghost use Rattle.cm_values.specs.Lists.{next_item};
ghost use Rattle.cm_values.specs.Reading.{Reads};
ghost use Rattle.cm_values.specs.Values.{flags_value, inner_flags, some_flags};
ghost use Rattle.cm_values.specs.Words.{known};

use crate::cursor::Cursor;
use crate::names::read_label;
use crate::value_fault::{ReadError, ValueReason};
use cm_types::{Label, Value};

/// Reads a comma and the label behind it, where they stand, and tells the label's place.
fn read_next_label(cursor: &mut Cursor<'_>, labels: &[Label]) -> Result<Option<usize>, ReadError>
    ensures place { Reads (next_item 0x7D (known labels.now)) (λ o. o)
        cursor.old cursor.new result }
    ensures within { IfOk result (λ o. IfSome o (λ i. i < length labels.now)) }
{
    cursor.gap();
    if !cursor.next_is(b',') {
        return Ok(None);
    }
    cursor.expect(b',')?;
    cursor.gap();
    if cursor.next_is(b'}') {
        Ok(None)
    } else {
        Ok(Some(read_label(cursor, labels)?))
    }
}

/// The number whose bit at a place, from 0, is 1 and no other.
#[tactic(auto, using(crate::proofs::LoopLaws::one_shifted))]
fn flag(place: usize) -> u32
    requires { place < 32 }
    ensures { result ≡ 2 ^ place }
{
    1 << place
}

/// Reads labels: a bit is 1 for each that stands there.
fn read_some_flags(cursor: &mut Cursor<'_>, labels: &[Label]) -> Result<u32, ReadError>
    requires { length labels.now ≤ 32 }
    ensures { Reads (some_flags labels.now) (λ n. n) cursor.old cursor.new result }
{
    let first = read_label(cursor, labels)?;
    let mut bits = 0;
    bits |= flag(first);
    while let Some(place) = read_next_label(cursor, labels)? {
        bits |= flag(place);
    }
    Ok(bits)
}

fn read_inner_flags(cursor: &mut Cursor<'_>, labels: &[Label]) -> Result<u32, ReadError>
    requires { length labels.now ≤ 32 }
    ensures { Reads (inner_flags labels.now) (λ n. n) cursor.old cursor.new result }
{
    cursor.gap();
    if cursor.next_is(b'}') {
        Ok(0)
    } else {
        read_some_flags(cursor, labels)
    }
}

pub fn read_flags(cursor: &mut Cursor<'_>, labels: &[Label]) -> Result<Value, ReadError>
    ensures { Reads (flags_value labels.now) value_of cursor.old cursor.new result }
{
    if labels.len() > 32 {
        return Err(cursor.fault(ValueReason::Unexpected));
    }
    cursor.mark(b'{')?;
    let bits = read_inner_flags(cursor, labels)?;
    cursor.mark(b'}')?;
    Ok(Value::Flags(bits))
}
