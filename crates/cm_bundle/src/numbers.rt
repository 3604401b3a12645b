//! Numbers that are spelled as shortly as they can be, and what stands behind its length.

ghost use Rattle.std.specs.Prelude.{◌≡◌, false, true, MatchOption};
ghost use Rattle.std.specs.Str.{is_utf8};
ghost use Rattle.cm_binary_grammar.specs.Reading.{Reads};
ghost use Rattle.cm_bundle.specs.Grammar.{short, this_number, bytes_of, text};

use crate::fault::BundleReason;
use cm_binary_grammar::{Cursor, ReadError};
use cm_leb::formats::spelled_length;

/// Reads a number.
#[tactic(auto, unfolding(crate::specs::Grammar::short))]
pub fn read_short(bytes: &mut Cursor<'_, BundleReason>) -> Result<u32, ReadError<BundleReason>>
    ensures read { Reads short (λ x. x) bytes.old bytes.new result }
    ensures end { bytes.new.end ≡ bytes.old.end }
{
    let fault = bytes.fault(BundleReason::BadNumber);
    let before = bytes.rest.len();
    let number = bytes.number(BundleReason::BadNumber)?;
    if before.saturating_sub(bytes.rest.len()) != spelled_length(u64::from(number)) as usize {
        return Err(fault);
    }
    Ok(number)
}

/// Reads this number.
#[tactic(auto, unfolding(crate::specs::Grammar::this_number))]
pub fn read_this(
    bytes: &mut Cursor<'_, BundleReason>,
    wanted: u64,
) -> Result<u32, ReadError<BundleReason>>
    ensures read { Reads (this_number wanted) (λ x. x) bytes.old bytes.new result }
    ensures end { bytes.new.end ≡ bytes.old.end }
{
    let fault = bytes.fault(BundleReason::OtherNumber);
    let number = read_short(bytes)?;
    if u64::from(number) != wanted {
        return Err(fault);
    }
    Ok(number)
}

/// Reads bytes behind their length.
#[tactic(auto, unfolding(crate::specs::Grammar::bytes_of))]
pub fn read_bytes<'a>(
    bytes: &mut Cursor<'a, BundleReason>,
) -> Result<&'a [u8], ReadError<BundleReason>>
    ensures read { Reads bytes_of (λ x. x.now) bytes.old bytes.new result }
    ensures end { bytes.new.end ≡ bytes.old.end }
{
    let length = read_short(bytes)?;
    bytes.raw(length as usize)
}

/// The bytes as a text, if they are UTF-8.
fn as_text(bytes: &[u8]) -> Option<&str>
    ensures { MatchOption result (is_utf8 bytes.now ≡ false)
        (λ s. (s.now ≡ bytes.now) × (is_utf8 bytes.now ≡ true)) }
{
    match simdutf8::compat::from_utf8(bytes) {
        Ok(text) => Some(text),
        Err(_) => None,
    }
}

/// Reads a text behind its length.
#[tactic(auto, unfolding(crate::specs::Grammar::text))]
pub fn read_text<'a>(
    bytes: &mut Cursor<'a, BundleReason>,
) -> Result<&'a str, ReadError<BundleReason>>
    ensures read { Reads text (λ x. x.now) bytes.old bytes.new result }
    ensures end { bytes.new.end ≡ bytes.old.end }
{
    let length = read_short(bytes)?;
    let fault = bytes.fault(BundleReason::BadUtf8);
    let text = bytes.raw(length as usize)?;
    match as_text(text) {
        Some(text) => Ok(text),
        None => Err(fault),
    }
}
