//! Strings where they stand in a source.

ghost use Rattle.std.specs.Prelude.{◌≡◌, ℕ, ◌+◌, ◌<◌, ◌≤◌, length, slice_index};
ghost use Rattle.cm_abi_model.specs.Requests.{stored_charset, text_bytes};
ghost use Rattle.cm_abi_model.specs.Stores.{Given, placed, poke};
ghost use Rattle.cm_abi_model.specs.Texts.{bytes_from, text_size};
ghost use Rattle.cm_abi_running.specs.Copying.{copying_of, given_for};
ghost use Rattle.cm_abi_running.specs.Ready.{IsTextReady};
ghost use Rattle.cm_abi_running.specs.Shown.{scalars_at};

use crate::copier::Copier;
use cm_abi_model::{StringEncoding, UTF16_TAG};
use cm_abi_store::write_text_of;

/// The bytes of a string at a pointer, of a tagged length.
fn text_of(source: StringEncoding, memory: &[u8], at: u32, tagged: u32) -> &[u8]
    requires inside { at + text_size source tagged ≤ length memory.now }
    ensures { result.now ≡ bytes_from memory.now at (text_size source tagged) }
{
    let size = match source {
        StringEncoding::Utf8 => tagged as usize,
        StringEncoding::Utf16 => 2 * tagged as usize,
        StringEncoding::Latin1OrUtf16 if tagged < UTF16_TAG => tagged as usize,
        StringEncoding::Latin1OrUtf16 => 2 * (tagged - UTF16_TAG) as usize,
    };
    &memory[at as usize..at as usize + size]
}

/// How many bytes the part of this number, from 0, takes where it is stored, by its record.
pub fn size_of_part(from: &Copier<'_>, part: usize) -> usize
    requires known { part < length (copying_of from.now).sizes }
    ensures { result ≡ slice_index (copying_of from.now).sizes part }
{
    from.records[part].size as usize
}

/// Writes the bytes of the string at a pointer, of a tagged length, in the target's encoding, where
/// they are so many, to an address of a memory; both addresses are in bytes from 0
/// (CanonicalABI.md, "Storing" of strings). The string can be copied as the part of this number.
#[inline(always)]
pub fn write_text_at(
    from: &Copier<'_>,
    pointer: u32,
    tagged: u32,
    target: StringEncoding,
    memory: &mut [u8],
    at: usize,
    size: usize,
    part: usize,
)
    requires ready { (n : ℕ) × (g : Given) × (g.charset ≡ stored_charset target)
        × IsTextReady n (given_for (copying_of from.now) g) pointer tagged part }
    requires size { size
        ≡ length (text_bytes (stored_charset target)
        (scalars_at from.now.memory.now from.now.encoding pointer tagged)) }
    requires inside { at + size ≤ length memory.old }
    ensures stored { memory.new
        ≡ poke (placed at (text_bytes (stored_charset target)
        (scalars_at from.now.memory.now from.now.encoding pointer tagged))) memory.old }
    ensures stays { length memory.new ≡ length memory.old }
{
    let bytes = text_of(from.encoding, from.memory, pointer, tagged);
    write_text_of(from.encoding, tagged, target, memory, at, size, bytes);
}
