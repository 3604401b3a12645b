//! Strings that are looked at and not made.

ghost use Rattle.std.specs.Prelude.{◌≡◌, IfErr, IfOk};
ghost use Rattle.cm_text.specs.Text.{IsTextOfSize};
ghost use Rattle.cm_abi_model.specs.Requests.{stored_charset};
ghost use Rattle.cm_abi_model.specs.Texts.{charset_of, latin1, spell, utf16, utf8};
ghost use Rattle.cm_abi_load.specs.Decoded.{decoded};
ghost use Rattle.cm_abi_load.specs.Outcomes.{Reads, State, mapped, state_of};
ghost use Rattle.cm_abi_load.specs.Texts.{read_text, text_value};
ghost use Rattle.cm_abi_load.specs.TextReads.{StopsAtText};
ghost use Rattle.cm_abi_load.specs.TextSizes.{text_length};

use crate::giver::Giver;
use crate::progress::Progress;
use crate::regions::check_region;
use crate::stop::Stop;
use crate::texts::{keep_tag, text_size};
use cm_abi_model::{AbiFault, StringEncoding, UTF16_TAG, text_align};
use cm_text::{Encoding, Latin1, Source, Utf8, Utf16, transcoded_size};

/// How many bytes the text of an encoding takes in another.
fn size_in<S: Source, D: Encoding>(bytes: &[u8]) -> Result<usize, Stop>
    ensures ok { IfOk result (IsTextOfSize S.has S.spell D.spell bytes.now) }
    ensures err { IfErr result (λ e. StopsAtText S.has S.spell bytes.now e) }
{
    match transcoded_size::<S, D>(bytes) {
        Ok(size) => Ok(size),
        Err(_) => Err(Stop::Fault(AbiFault::BadText)),
    }
}

/// How many bytes the text of an encoding takes where strings are stored in this one.
fn size_for<S: Source>(target: StringEncoding, bytes: &[u8]) -> Result<usize, Stop>
    ensures ok { IfOk result
        (IsTextOfSize S.has S.spell (spell (stored_charset target)) bytes.now) }
    ensures err { IfErr result (λ e. StopsAtText S.has S.spell bytes.now e) }
{
    match target {
        StringEncoding::Utf8 => size_in::<S, Utf8>(bytes),
        StringEncoding::Utf16 | StringEncoding::Latin1OrUtf16 => size_in::<S, Utf16>(bytes),
    }
}

/// How many bytes a string takes whose bytes are in UTF-8.
fn utf8_measure(target: StringEncoding, bytes: &[u8]) -> Result<usize, Stop>
    ensures { (s : State) → Reads (λ n. n) result s
        (mapped (text_length (stored_charset target)) (text_value (decoded utf8 bytes.now) s)) }
{
    size_for::<Utf8>(target, bytes)
}

/// How many bytes a string takes whose bytes are in UTF-16.
fn utf16_measure(target: StringEncoding, bytes: &[u8]) -> Result<usize, Stop>
    ensures { (s : State) → Reads (λ n. n) result s
        (mapped (text_length (stored_charset target)) (text_value (decoded utf16 bytes.now) s)) }
{
    size_for::<Utf16>(target, bytes)
}

/// How many bytes a string takes whose bytes are in Latin-1.
fn latin1_measure(target: StringEncoding, bytes: &[u8]) -> Result<usize, Stop>
    ensures { (s : State) → Reads (λ n. n) result s
        (mapped (text_length (stored_charset target)) (text_value (decoded latin1 bytes.now) s)) }
{
    size_for::<Latin1>(target, bytes)
}

/// How many bytes a string of a tagged length takes.
fn measure_of(
    target: StringEncoding,
    encoding: StringEncoding,
    tagged: u32,
    bytes: &[u8],
) -> Result<usize, Stop>
    ensures { (s : State) → Reads (λ n. n) result s
        (mapped (text_length (stored_charset target))
        (text_value (decoded (charset_of encoding tagged) bytes.now) s)) }
{
    match encoding {
        StringEncoding::Utf8 => utf8_measure(target, bytes),
        StringEncoding::Utf16 => utf16_measure(target, bytes),
        StringEncoding::Latin1OrUtf16 if tagged < UTF16_TAG => latin1_measure(target, bytes),
        StringEncoding::Latin1OrUtf16 => utf16_measure(target, bytes),
    }
}

/// How many bytes the string at a pointer, of a tagged length, takes where strings are stored in
/// the encoding `target`; takes no memory but for its tag, if it has one. Its bytes are taken from
/// those that may still come, and its tag is kept.
///
/// It stops as `load_text` does.
#[tactic(auto, unfolding(crate::specs::Texts::read_text))]
pub fn measure_text(
    giver: &Giver<'_>,
    target: StringEncoding,
    at: u32,
    tagged: u32,
    progress: &mut Progress,
) -> Result<usize, Stop>
    ensures { Reads (λ n. n) result (state_of progress.new)
        (mapped (text_length (stored_charset target))
        (read_text giver.now.memory.now giver.now.encoding at tagged (state_of progress.old))) }
{
    let size = text_size(giver.encoding, tagged);
    check_region(giver.memory, text_align(giver.encoding), at, size, progress)?;
    keep_tag(giver.encoding, tagged, progress)?;
    let start = at as usize;
    let bytes = &giver.memory[start..start + size as usize];
    measure_of(target, giver.encoding, tagged, bytes)
}
