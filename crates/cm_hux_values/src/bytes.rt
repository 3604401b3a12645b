//! Lists of bytes that are texts.

ghost use Rattle.std.specs.Prelude.{◌≡◌, ◌++◌, ◌&&◌, IfOk, None, OnOk, Some, if◌then◌else◌};
ghost use Rattle.std.specs.Option.{option_map};
ghost use Rattle.std.specs.List.{list_all};
ghost use Rattle.std.specs.Str.{chars as characters};
ghost use Rattle.std.specs.String.{string_bytes};
ghost use Rattle.cm_types.specs.TypeTrees.{type_of};
ghost use Rattle.cm_types.specs.Values.{no_vals, val};
ghost use Rattle.cm_types.specs.ValueTrees.{value_of, values_of};
ghost use Rattle.cm_hux_values.specs.Texts.{bytes_in, is_byte, is_text, is_textual, is_whole};
ghost use Rattle.cm_hux_values.specs.Texts.{text_words};

use cm_types::{TypeNode, Value};
use cm_values::quoted_text;
use std::alloc::{AllocError, Global};
use std::str;

/// Whether values of a type are bytes.
pub(crate) fn is_byte(ty: &TypeNode) -> bool
    ensures { result ≡ is_byte (type_of ty.now) }
{
    matches!(ty, TypeNode::U8)
}

/// Adds a value to bytes, where it is one.
fn push_byte(bytes: &mut Vec<u8>, value: &Value) -> Result<(), AllocError>
    ensures { OnOk result (bytes.new.items
        ≡ bytes.old.items ++ bytes_in (val (value_of value.now) no_vals)) }
{
    if let Value::Unsigned(number) = value {
        if let Ok(byte) = u8::try_from(*number) {
            bytes.push(byte)?;
        }
    }
    Ok(())
}

/// The bytes among values.
fn bytes_of(alloc: Global, values: &[Value]) -> Result<Vec<u8>, AllocError>
    ensures { IfOk result (λ bytes. bytes.items ≡ bytes_in (values_of values.now)) }
{
    let mut bytes = Vec::new(alloc);
    for value in values {
        push_byte(&mut bytes, value)?;
    }
    Ok(bytes)
}

/// Whether texts have a character.
fn is_textual(c: char) -> bool
    ensures { result ≡ is_textual c }
{
    !c.is_control() || matches!(c, '\t' | '\n' | '\r')
}

/// Whether both are so.
fn both(a: bool, b: bool) -> bool
    ensures { result ≡ a && b }
{
    a && b
}

/// Whether texts have each character of a text.
fn are_textual(text: &str) -> bool
    ensures { result ≡ list_all is_textual (characters text.now) }
{
    let mut all = true;
    for c in text.chars() {
        all = both(all, is_textual(c));
    }
    all
}

/// A text that is not empty, and of which texts have each character.
fn as_whole(text: &str) -> Option<&str>
    ensures { option_map (λ t. t.now) result
        ≡ if is_whole text.now then Some text.now else None }
{
    if !text.is_empty() && are_textual(text) {
        Some(text)
    } else {
        None
    }
}

/// The text that bytes are, where they are one.
fn text_in(bytes: &[u8]) -> Option<&str>
    ensures { option_map (λ t. t.now) result
        ≡ if is_text bytes.now then Some bytes.now else None }
{
    match str::from_utf8(bytes) {
        Ok(text) => as_whole(text),
        Err(_) => None,
    }
}

/// The text in quotes that values of bytes are, where they are one.
pub(crate) fn words_of_bytes(alloc: Global, values: &[Value]) -> Result<Option<String>, AllocError>
    ensures { IfOk result (λ text. option_map string_bytes text
        ≡ text_words (bytes_in (values_of values.now))) }
{
    let bytes = bytes_of(alloc, values)?;
    match text_in(&bytes) {
        Some(text) => Ok(Some(quoted_text(alloc, text)?)),
        None => Ok(None),
    }
}
