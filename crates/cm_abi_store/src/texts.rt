//! Strings in memory.

ghost use Rattle.std.specs.List.{flat_map};
ghost use Rattle.std.specs.Prelude.{◌≡◌, ◌+◌, ◌≤◌, List, length, ℕ};
ghost use Rattle.std.specs.Str.{chars};
ghost use Rattle.cm_abi_model.specs.Requests.{stored_charset, text_bytes, text_units};
ghost use Rattle.cm_abi_model.specs.Stores.{placed, poke};
ghost use Rattle.cm_abi_model.specs.Texts.{Has, charset_of, latin1, spell, utf16, utf8};
ghost use Rattle.cm_text.specs.Text.{IsText, IsTextOfSize};

use crate::bytes::write_bytes;
use cm_abi_model::{StringEncoding, UTF16_TAG, utf16_size};
use cm_text::laws::one_list_of_scalars;
use cm_text::{Encoding, Latin1, Source, Utf8, Utf16, transcode_into};

/// Writes a text of one encoding in another one, where it takes so many bytes.
fn write_transcoded<S: Source, D: Encoding>(memory: &mut [u8], at: usize, size: usize, bytes: &[u8])
    requires text { IsTextOfSize S.has S.spell D.spell bytes.now size }
    requires inside { at + size ≤ length memory.old }
    ensures stored { (scalars : List ℕ) → IsText S.has S.spell scalars bytes.now
        → memory.new ≡ poke (placed at (flat_map D.spell scalars)) memory.old }
    ensures stays { length memory.new ≡ length memory.old }
{
    one_list_of_scalars::<S>();
    transcode_into::<S, D>(bytes, &mut memory[at..at + size]);
}

/// Writes a text of UTF-8 as it is stored, in so many bytes.
fn write_utf8(target: StringEncoding, memory: &mut [u8], at: usize, size: usize, bytes: &[u8])
    requires text { IsTextOfSize (Has utf8) (spell utf8) (spell (stored_charset target)) bytes.now
        size }
    requires inside { at + size ≤ length memory.old }
    ensures stored { (scalars : List ℕ) → IsText (Has utf8) (spell utf8) scalars bytes.now
        → memory.new ≡ poke (placed at (text_bytes (stored_charset target) scalars)) memory.old }
    ensures stays { length memory.new ≡ length memory.old }
{
    match target {
        StringEncoding::Utf8 => write_bytes(memory, at, bytes),
        StringEncoding::Utf16 | StringEncoding::Latin1OrUtf16 => {
            write_transcoded::<Utf8, Utf16>(memory, at, size, bytes)
        }
    }
}

/// Writes a text of UTF-16 as it is stored, in so many bytes.
fn write_utf16(target: StringEncoding, memory: &mut [u8], at: usize, size: usize, bytes: &[u8])
    requires text { IsTextOfSize (Has utf16) (spell utf16) (spell (stored_charset target))
        bytes.now size }
    requires inside { at + size ≤ length memory.old }
    ensures stored { (scalars : List ℕ) → IsText (Has utf16) (spell utf16) scalars bytes.now
        → memory.new ≡ poke (placed at (text_bytes (stored_charset target) scalars)) memory.old }
    ensures stays { length memory.new ≡ length memory.old }
{
    match target {
        StringEncoding::Utf8 => write_transcoded::<Utf16, Utf8>(memory, at, size, bytes),
        StringEncoding::Utf16 | StringEncoding::Latin1OrUtf16 => write_bytes(memory, at, bytes),
    }
}

/// Writes a text of Latin-1 as it is stored, in so many bytes.
fn write_latin1(target: StringEncoding, memory: &mut [u8], at: usize, size: usize, bytes: &[u8])
    requires text { IsTextOfSize (Has latin1) (spell latin1) (spell (stored_charset target))
        bytes.now size }
    requires inside { at + size ≤ length memory.old }
    ensures stored { (scalars : List ℕ) → IsText (Has latin1) (spell latin1) scalars bytes.now
        → memory.new ≡ poke (placed at (text_bytes (stored_charset target) scalars)) memory.old }
    ensures stays { length memory.new ≡ length memory.old }
{
    match target {
        StringEncoding::Utf8 => write_transcoded::<Latin1, Utf8>(memory, at, size, bytes),
        StringEncoding::Utf16 | StringEncoding::Latin1OrUtf16 => {
            write_transcoded::<Latin1, Utf16>(memory, at, size, bytes)
        }
    }
}

/// Writes a text of a source, whose length there was tagged so, as it is stored, in so many bytes;
/// as it stands where the encodings are one (CanonicalABI.md, "Storing" of strings).
pub fn write_text_of(
    source: StringEncoding,
    tagged: u32,
    target: StringEncoding,
    memory: &mut [u8],
    at: usize,
    size: usize,
    bytes: &[u8],
)
    requires text { IsTextOfSize (Has (charset_of source tagged)) (spell (charset_of source tagged))
        (spell (stored_charset target)) bytes.now size }
    requires inside { at + size ≤ length memory.old }
    ensures stored { (scalars : List ℕ)
        → IsText (Has (charset_of source tagged)) (spell (charset_of source tagged)) scalars
        bytes.now
        → memory.new ≡ poke (placed at (text_bytes (stored_charset target) scalars)) memory.old }
    ensures stays { length memory.new ≡ length memory.old }
{
    match source {
        StringEncoding::Utf8 => write_utf8(target, memory, at, size, bytes),
        StringEncoding::Utf16 => write_utf16(target, memory, at, size, bytes),
        StringEncoding::Latin1OrUtf16 if tagged < UTF16_TAG => {
            write_latin1(target, memory, at, size, bytes)
        }
        StringEncoding::Latin1OrUtf16 => write_utf16(target, memory, at, size, bytes),
    }
}

/// How many bytes a text takes where it is stored.
pub fn stored_size(encoding: StringEncoding, text: &str) -> usize
    ensures { result ≡ length (text_bytes (stored_charset encoding) (chars text.now)) }
{
    match encoding {
        StringEncoding::Utf8 => text.len(),
        StringEncoding::Utf16 | StringEncoding::Latin1OrUtf16 => utf16_size(text),
    }
}

/// Writes a text as it is stored, in so many bytes.
pub fn write_text(encoding: StringEncoding, memory: &mut [u8], at: usize, size: usize, text: &str)
    requires size { size ≡ length (text_bytes (stored_charset encoding) (chars text.now)) }
    requires inside { at + size ≤ length memory.old }
    ensures stored { memory.new
        ≡ poke (placed at (text_bytes (stored_charset encoding) (chars text.now))) memory.old }
    ensures stays { length memory.new ≡ length memory.old }
{
    write_utf8(encoding, memory, at, size, text.as_bytes());
}

/// How many units a text of so many bytes has where it is stored: bytes of UTF-8, pairs in UTF-16.
pub fn units_stored(target: StringEncoding, size: usize) -> usize
    requires size { (scalars : List ℕ)
        × (size ≡ length (text_bytes (stored_charset target) scalars)) }
    ensures { (scalars : List ℕ) → size ≡ length (text_bytes (stored_charset target) scalars)
        → result ≡ text_units (stored_charset target) scalars }
{
    match target {
        StringEncoding::Utf8 => size,
        StringEncoding::Utf16 | StringEncoding::Latin1OrUtf16 => size / 2,
    }
}
