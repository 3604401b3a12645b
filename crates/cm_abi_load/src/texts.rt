//! Strings.

ghost use Rattle.std.specs.Prelude.{◌≡◌, ◌^◌, ◌<◌, IfErr, IfOk, Ok};
ghost use Rattle.std.specs.Str.{chars};
ghost use Rattle.std.specs.String.{string_bytes};
ghost use Rattle.cm_text.specs.Text.{IsText};
ghost use Rattle.cm_types.specs.ValueTrees.{value_of};
ghost use Rattle.cm_abi_model.specs.Texts.{charset_of, latin1, text_size, utf16, utf8};
ghost use Rattle.cm_abi_load.specs.Decoded.{decoded};
ghost use Rattle.cm_abi_load.specs.Outcomes.{Reads, State, state_of};
ghost use Rattle.cm_abi_load.specs.Texts.{after_text, read_text, text_value};
ghost use Rattle.cm_abi_load.specs.TextReads.{StopsAtText};

use crate::giver::Giver;
use crate::progress::Progress;
use crate::regions::check_region;
use crate::stop::Stop;
use cm_abi_model::{AbiFault, StringEncoding, UTF16_TAG, text_align};
use cm_text::{Latin1, Source, TextFault, Utf8, Utf16, transcode};
use cm_types::Value;
use std::alloc::Global;

/// How many bytes the string of a tagged length has.
pub(crate) fn text_size(encoding: StringEncoding, tagged: u32) -> u64
    ensures value { result ≡ text_size encoding tagged }
    ensures small { result < 2 ^ 33 }
{
    let number = u64::from(tagged);
    match encoding {
        StringEncoding::Utf8 => number,
        StringEncoding::Utf16 => 2 * number,
        StringEncoding::Latin1OrUtf16 if tagged < UTF16_TAG => number,
        StringEncoding::Latin1OrUtf16 => 2 * (number - u64::from(UTF16_TAG)),
    }
}

/// The text of an encoding as a string.
fn text_in<S: Source>(alloc: Global, bytes: &[u8]) -> Result<String, Stop>
    ensures ok { IfOk result (λ s. IsText S.has S.spell (chars (string_bytes s)) bytes.now) }
    ensures err { IfErr result (λ e. StopsAtText S.has S.spell bytes.now e) }
{
    let text = match transcode::<S, Utf8>(alloc, bytes) {
        Ok(text) => text,
        Err(TextFault::Memory) => return Err(Stop::Memory),
        Err(TextFault::IllFormed { .. }) => return Err(Stop::Fault(AbiFault::BadText)),
    };
    match String::from_utf8(text) {
        Ok(text) => Ok(text),
        Err(_) => unreachable!(),
    }
}

/// The string that bytes in UTF-8 are.
fn utf8_text(alloc: Global, bytes: &[u8]) -> Result<Value, Stop>
    ensures { (s : State) → Reads value_of result s (text_value (decoded utf8 bytes.now) s) }
{
    match text_in::<Utf8>(alloc, bytes) {
        Ok(text) => Ok(Value::String(text)),
        Err(stop) => Err(stop),
    }
}

/// The string that bytes in UTF-16 are.
fn utf16_text(alloc: Global, bytes: &[u8]) -> Result<Value, Stop>
    ensures { (s : State) → Reads value_of result s (text_value (decoded utf16 bytes.now) s) }
{
    match text_in::<Utf16>(alloc, bytes) {
        Ok(text) => Ok(Value::String(text)),
        Err(stop) => Err(stop),
    }
}

/// The string that bytes in Latin-1 are.
fn latin1_text(alloc: Global, bytes: &[u8]) -> Result<Value, Stop>
    ensures { (s : State) → Reads value_of result s (text_value (decoded latin1 bytes.now) s) }
{
    match text_in::<Latin1>(alloc, bytes) {
        Ok(text) => Ok(Value::String(text)),
        Err(stop) => Err(stop),
    }
}

/// The string of a tagged length that bytes are.
fn text_of(
    alloc: Global,
    encoding: StringEncoding,
    tagged: u32,
    bytes: &[u8],
) -> Result<Value, Stop>
    ensures { (s : State) → Reads value_of result s
        (text_value (decoded (charset_of encoding tagged) bytes.now) s) }
{
    match encoding {
        StringEncoding::Utf8 => utf8_text(alloc, bytes),
        StringEncoding::Utf16 => utf16_text(alloc, bytes),
        StringEncoding::Latin1OrUtf16 if tagged < UTF16_TAG => latin1_text(alloc, bytes),
        StringEncoding::Latin1OrUtf16 => utf16_text(alloc, bytes),
    }
}

/// Keeps the tag of a length, if it has one.
pub(crate) fn keep_tag(
    encoding: StringEncoding,
    tagged: u32,
    progress: &mut Progress,
) -> Result<(), Stop>
    ensures { Reads (λ u. tt {0}) result (state_of progress.new)
        (Ok (tt {0}, after_text encoding tagged (state_of progress.old))) }
{
    if let StringEncoding::Latin1OrUtf16 = encoding {
        progress.tags.push(tagged >= UTF16_TAG)?;
    }
    Ok(())
}

/// The string at a pointer, of a tagged length; its bytes are taken from those that may still come,
/// and its tag is kept, if it has one.
///
/// It stops with `Misaligned` where the pointer is not aligned, else with `PointerBounds` where the
/// string passes the end of the memory, else with `TooLarge` where fewer bytes may still come, else
/// with `BadText` where it is no text of its encoding; and with `Memory` where memory for it or for
/// its tag is refused (CanonicalABI.md, "Loading").
#[tactic(auto, unfolding(crate::specs::Texts::read_text))]
pub fn load_text(
    giver: &Giver<'_>,
    at: u32,
    tagged: u32,
    progress: &mut Progress,
) -> Result<Value, Stop>
    ensures { Reads value_of result (state_of progress.new)
        (read_text giver.now.memory.now giver.now.encoding at tagged (state_of progress.old)) }
{
    let size = text_size(giver.encoding, tagged);
    check_region(giver.memory, text_align(giver.encoding), at, size, progress)?;
    keep_tag(giver.encoding, tagged, progress)?;
    let start = at as usize;
    let bytes = &giver.memory[start..start + size as usize];
    text_of(giver.alloc, giver.encoding, tagged, bytes)
}
