//! Values as text.

ghost use Rattle.std.specs.Prelude.{◌≡◌, IfOk, IsErrOf};
ghost use Rattle.std.specs.Str.{chars};
ghost use Rattle.std.specs.String.{string_bytes};
ghost use Rattle.cm_types.specs.Funcs.{tree_type};
ghost use Rattle.cm_types.specs.TypeTrees.{type_of};
ghost use Rattle.cm_types.specs.Values.{HasType};
ghost use Rattle.cm_types.specs.ValueTrees.{value_of};
ghost use Rattle.cm_values.specs.Quotes.{quoted};
ghost use Rattle.cm_values.specs.Spelling.{spelling, spelling_by};
ghost use Rattle.cm_values.specs.Written.{front};
ghost use Rattle.cm_values.specs.declared.print_fault.PrintFault.TheVariants as fault;

use crate::print_fault::PrintFault;
use crate::quotes::put_text;
use crate::values::put_value;
use crate::worded::{Plain, Style, Worded};
use cm_types::{TypeNode, TypeTree, Value, has_type};
use std::alloc::{AllocError, Global};

/// The text of a value of a type (WAVE), in time linear in its length.
///
/// Numbers are decimal, chars stand in `'` and strings in `"`, with escapes; `[1, 2]` is a list,
/// `(1, 2)` a tuple, `{a: 1, b: 2}` a record, `{a, b}` flags, and a case is its name with its
/// payload behind it, as `some(1)`. A handle is `#`, its serial number, `:` and its representation.
///
/// `WrongType` comes where the value has not the type, else `Memory` where there is no memory for
/// the text.
pub fn print(alloc: Global, value: &Value, ty: &TypeTree) -> Result<String, PrintFault>
    ensures text { IfOk result (λ text.
        string_bytes text ≡ spelling (tree_type ty.now) (value_of value.now)) }
    ensures typed { IfOk result (λ _. HasType (tree_type ty.now) (value_of value.now)) }
    ensures wrong { IsErrOf result fault.WrongType
        → ¬ (HasType (tree_type ty.now) (value_of value.now)) }
{
    if !has_type(value, ty) {
        return Err(PrintFault::WrongType);
    }
    let style = Style {
        worded: Plain,
        room: None,
    };
    Ok(print_front(alloc, value, &ty.root, &style)?)
}

/// The front of the text of a value of a type: at least so many bytes of it as are looked at, or
/// all. Values that have words of their own are printed by these, the others as by `print`; those
/// that have not the type, as nothing. What is behind the front costs no more than a look.
///
/// `AllocError` comes where there is no memory for the text.
pub fn print_front<W: Worded>(
    alloc: Global,
    value: &Value,
    ty: &TypeNode,
    style: &Style<W>,
) -> Result<String, AllocError>
    ensures { IfOk result (λ text. front style.now.room (string_bytes text)
        ≡ front style.now.room (spelling_by (W.words style.now.worded) (type_of ty.now)
        (value_of value.now))) }
{
    let mut text = String::new(alloc);
    put_value(&mut text, value, ty, style)?;
    Ok(text)
}

/// A text in quotes, as a string is printed. `AllocError` comes where there is no memory for it.
pub fn quoted_text(alloc: Global, text: &str) -> Result<String, AllocError>
    ensures { IfOk result (λ t. string_bytes t ≡ quoted 0x22 (chars text.now)) }
{
    let mut quoted = String::new(alloc);
    put_text(&mut quoted, text)?;
    Ok(quoted)
}
