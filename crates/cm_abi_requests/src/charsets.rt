//! What the bytes of one string are in, and how many they are.

ghost use Rattle.std.specs.Prelude.{◌≡◌, length};
ghost use Rattle.std.specs.Str.{chars};
ghost use Rattle.cm_abi_model.specs.Requests.{read_charset, stored_charset, tagged_charset};
ghost use Rattle.cm_abi_model.specs.Requests.{text_bytes};
ghost use Rattle.cm_abi_model.specs.Requests.{text_units};
ghost use Rattle.cm_abi_requests.specs.Asking.{charset_seen};

use cm_abi_model::{StringEncoding, utf16_size};

/// What the bytes of one string are in.
#[derive(Clone, Copy, Debug, PartialEq, Eq)]
pub enum Charset {
    Utf8,
    Utf16,
    Latin1,
}

/// What a string is in where its tag says whether it is Latin-1 or UTF-16.
fn tagged_charset(tag: bool) -> Charset
    ensures { charset_seen result ≡ tagged_charset tag }
{
    if tag { Charset::Utf16 } else { Charset::Latin1 }
}

/// What a string is in where it was read, with this tag.
pub(crate) fn read_charset(encoding: StringEncoding, tag: bool) -> Charset
    ensures { charset_seen result ≡ read_charset encoding tag }
{
    match encoding {
        StringEncoding::Utf8 => Charset::Utf8,
        StringEncoding::Utf16 => Charset::Utf16,
        StringEncoding::Latin1OrUtf16 => tagged_charset(tag),
    }
}

/// What a string is in where it is stored.
pub(crate) fn stored_charset(encoding: StringEncoding) -> Charset
    ensures { charset_seen result ≡ stored_charset encoding }
{
    match encoding {
        StringEncoding::Utf8 => Charset::Utf8,
        StringEncoding::Utf16 | StringEncoding::Latin1OrUtf16 => Charset::Utf16,
    }
}

/// How many bytes a text takes; in Latin-1 a byte for each of its scalars.
pub(crate) fn text_size(charset: Charset, text: &str) -> usize
    ensures { result ≡ length (text_bytes (charset_seen charset) (chars text.now)) }
{
    match charset {
        Charset::Utf8 => text.len(),
        Charset::Utf16 => utf16_size(text),
        Charset::Latin1 => text.chars().count(),
    }
}

/// How many units a text has.
pub(crate) fn text_units(charset: Charset, text: &str) -> usize
    ensures { result ≡ text_units (charset_seen charset) (chars text.now) }
{
    let size = text_size(charset, text);
    match charset {
        Charset::Utf8 | Charset::Latin1 => size,
        Charset::Utf16 => size / 2,
    }
}
