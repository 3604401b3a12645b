//! Whole texts.

ghost use Rattle.std.specs.Prelude.{IfOk, Ok};
ghost use Rattle.cm_types.specs.Funcs.{tree_type};
ghost use Rattle.cm_types.specs.TypeTrees.{type_of};
ghost use Rattle.cm_types.specs.Values.{Val};
ghost use Rattle.cm_types.specs.ValueTrees.{value_of};
ghost use Rattle.cm_values.specs.ReadFaults.{Gives};
ghost use Rattle.cm_values.specs.Whole.{Answers, Spells, text_value, whole};

use crate::cursor::Cursor;
use crate::reader::read_value;
use crate::value_fault::{ReadError, ValueFault, ValueReason};
use cm_types::{TypeNode, TypeTree, Value};
use std::alloc::Global;

/// Reads a value and blanks, to the end.
fn read_whole(alloc: Global, text: &[u8], ty: &TypeNode) -> Result<Value, ReadError>
    ensures { Gives value_of result (whole (type_of ty.now) text.now) }
{
    let mut cursor = Cursor { rest: text };
    let value = read_value(alloc, &mut cursor, ty)?;
    cursor.gap();
    if cursor.rest.is_empty() {
        Ok(value)
    } else {
        Err(cursor.fault(ValueReason::Unexpected))
    }
}

/// The value that a text is, or its first fault.
fn parse_exactly(alloc: Global, text: &[u8], ty: &TypeNode) -> Result<Value, ValueFault>
    ensures { Answers value_of (text_value (type_of ty.now) text.now) result }
{
    match read_whole(alloc, text, ty) {
        Ok(value) => Ok(value),
        Err(ReadError::Memory) => Err(ValueFault::MEMORY),
        Err(ReadError::Fault(fault)) => Err(ValueFault {
            at: text.len().saturating_sub(fault.left),
            reason: fault.reason,
        }),
    }
}

/// The value of a type that a text is (WAVE), in time linear in the text for a type of so many
/// names.
///
/// Blanks may stand between marks, names, numbers and what is in quotes, and one more comma behind
/// the last thing of a list. Every field of a record is written, in the type's order; flags stand
/// in any order, also twice. A name may have a `%` in front. A handle is `#`, its serial number,
/// `:` and its representation; whether it is one that somebody gave is for the caller to know.
///
/// A text is refused at its first fault, which is at the byte that does not go on (`Unexpected`),
/// or at the first byte of the number (`OutOfRange`), the name (`UnknownName`), the list
/// (`WrongLength`), the quotes (`NotUtf8`, `NotOneChar`) or the escape's letter or number
/// (`BadEscape`); or with `Memory`, where there is no memory for the value.
pub fn parse(alloc: Global, text: &[u8], ty: &TypeTree) -> Result<Value, ValueFault>
    ensures exact { Answers value_of (text_value (tree_type ty.now) text.now) result }
    ensures accepted { IfOk result (λ v. Spells (tree_type ty.now) text.now (value_of v)) }
    ensures complete { (v : Val) → Spells (tree_type ty.now) text.now v
        → Answers value_of (Ok v) result }
{
    parse_exactly(alloc, text, &ty.root)
}
