//! Text in quotes.

ghost use Rattle.std.specs.Prelude.{◌≡◌, OnOk, ◌++◌};
ghost use Rattle.std.specs.String.{string_bytes};
ghost use Rattle.cm_values.specs.Quoted.{escape, escaped, letter, next_piece};
ghost use Rattle.cm_values.specs.Quoted.{piece_bytes, pieces, plain_piece, quoted};
ghost use Rattle.cm_values.specs.Quoted.{quoted_text};
ghost use Rattle.cm_values.specs.Quoted.{scalar_of, unicode};
ghost use Rattle.cm_values.specs.Reading.{Reads};

use crate::cursor::Cursor;
use crate::kind::Kind;
use crate::numbers::digits_value;
use crate::piece::Piece;
use crate::value_fault::{ReadError, ValueReason};
use std::alloc::{AllocError, Global};

/// What a letter behind a `\` stands for.
fn escaped(byte: u8) -> Result<u8, ValueReason>
    ensures { result ≡ escaped byte }
{
    match byte {
        b'\\' | b'\'' | b'"' => Ok(byte),
        b't' => Ok(b'\t'),
        b'n' => Ok(b'\n'),
        b'r' => Ok(b'\r'),
        _ => Err(ValueReason::BadEscape),
    }
}

/// The character of a number of one to six hexadecimal digits.
fn scalar_of(digits: &[u8]) -> Result<char, ValueReason>
    ensures { result ≡ scalar_of digits.now }
{
    if digits.is_empty() || digits.len() > 6 {
        return Err(ValueReason::BadEscape);
    }
    match digits_value(16, digits) {
        Some(number) if number < 0x11_0000 => {
            char::from_u32(number as u32).ok_or(ValueReason::BadEscape)
        }
        _ => Err(ValueReason::BadEscape),
    }
}

/// Reads what is behind a `\` and begins with a `u`.
fn read_unicode(cursor: &mut Cursor<'_>) -> Result<Piece, ReadError>
    ensures { Reads unicode (λ p. p) cursor.old cursor.new result }
{
    cursor.expect(b'u')?;
    cursor.expect(b'{')?;
    let start = *cursor;
    let scalar = match scalar_of(cursor.run(Kind::HexDigits)) {
        Ok(scalar) => scalar,
        Err(reason) => return Err(start.fault(reason)),
    };
    cursor.expect(b'}')?;
    Ok(Piece::Scalar(scalar))
}

/// Reads a letter behind a `\`.
fn read_letter(cursor: &mut Cursor<'_>) -> Result<Piece, ReadError>
    ensures { Reads letter (λ p. p) cursor.old cursor.new result }
{
    match cursor.rest {
        [] => Err(cursor.fault(ValueReason::Unexpected)),
        [first, rest @ ..] => match escaped(*first) {
            Ok(byte) => {
                cursor.rest = rest;
                Ok(Piece::Byte(byte))
            }
            Err(reason) => Err(cursor.fault(reason)),
        },
    }
}

fn read_escape(cursor: &mut Cursor<'_>) -> Result<Piece, ReadError>
    ensures { Reads escape (λ p. p) cursor.old cursor.new result }
{
    cursor.expect(b'\\')?;
    if cursor.next_is(b'u') {
        read_unicode(cursor)
    } else {
        read_letter(cursor)
    }
}

fn read_plain_piece(cursor: &mut Cursor<'_>) -> Result<Piece, ReadError>
    ensures { Reads plain_piece (λ p. p) cursor.old cursor.new result }
{
    match cursor.rest {
        [] => Err(cursor.fault(ValueReason::Unexpected)),
        [byte, rest @ ..] => {
            cursor.rest = rest;
            Ok(Piece::Byte(*byte))
        }
    }
}

/// Reads the next piece, if the quotes are not closed there.
fn read_next_piece(cursor: &mut Cursor<'_>, quote: u8) -> Result<Option<Piece>, ReadError>
    ensures { Reads (next_piece quote) (λ p. p) cursor.old cursor.new result }
{
    if cursor.next_is(quote) {
        Ok(None)
    } else if cursor.next_is(b'\\') {
        Ok(Some(read_escape(cursor)?))
    } else {
        Ok(Some(read_plain_piece(cursor)?))
    }
}

fn push_piece(bytes: &mut Vec<u8>, piece: Piece) -> Result<(), AllocError>
    ensures { OnOk result (bytes.new.items ≡ bytes.old.items ++ piece_bytes piece) }
{
    match piece {
        Piece::Byte(byte) => bytes.push(byte)?,
        Piece::Scalar(scalar) => {
            let mut buffer = [0; 4];
            bytes.extend_from_slice(scalar.encode_utf8(&mut buffer).as_bytes())?;
        }
    }
    Ok(())
}

fn read_pieces(alloc: Global, cursor: &mut Cursor<'_>, quote: u8) -> Result<Vec<u8>, ReadError>
    ensures { Reads (pieces quote) (λ v. v.items) cursor.old cursor.new result }
{
    let mut bytes = Vec::new(alloc);
    while let Some(piece) = read_next_piece(cursor, quote)? {
        push_piece(&mut bytes, piece)?;
    }
    Ok(bytes)
}

fn read_quoted(alloc: Global, cursor: &mut Cursor<'_>, quote: u8) -> Result<Vec<u8>, ReadError>
    ensures { Reads (quoted quote) (λ v. v.items) cursor.old cursor.new result }
{
    cursor.expect(quote)?;
    let bytes = read_pieces(alloc, cursor, quote)?;
    cursor.expect(quote)?;
    Ok(bytes)
}

/// Reads a text between two quotes. What is not UTF-8 is a fault at the first quote.
pub fn read_quoted_text(
    alloc: Global,
    cursor: &mut Cursor<'_>,
    quote: u8,
) -> Result<String, ReadError>
    ensures { Reads (quoted_text quote) string_bytes cursor.old cursor.new result }
{
    let start = *cursor;
    match String::from_utf8(read_quoted(alloc, cursor, quote)?) {
        Ok(text) => Ok(text),
        Err(_) => Err(start.fault(ValueReason::NotUtf8)),
    }
}
