//! Texts, labels and extern names.

ghost use Rattle.std.specs.Prelude.{◌≡◌, true, false, IfOk, MatchOption};
ghost use Rattle.std.specs.Str.{is_utf8};
ghost use Rattle.std.specs.String.{string_bytes};
ghost use Rattle.cm_binary_grammar.specs.Faults.{Gives};
ghost use Rattle.cm_binary_grammar.specs.Grammar.{check, raw};
ghost use Rattle.cm_binary_grammar.specs.Reading.{Reads};
ghost use Rattle.cm_types.specs.Names.{is_label};
ghost use Rattle.cm_types.specs.ExternNames.{is_extern_name};
ghost use Rattle.cm_binary_forms.specs.declared.fault.DecodeReason.TheVariants as reasons;
ghost use Rattle.cm_binary_forms.specs.Texts.{text, label, plain_name, extern_name};

use crate::fault::DecodeReason;
use crate::indices::read_index;
use cm_binary_grammar::{Cursor, ReadError};
use cm_types::{ExternName, Label, NameFault};
use std::alloc::{AllocError, Global};

/// The bytes as a text, if they are UTF-8.
fn as_text(bytes: &[u8]) -> Option<&str>
    ensures { MatchOption result (is_utf8 bytes.now ≡ false)
        (λ s. (s.now ≡ bytes.now) × (is_utf8 bytes.now ≡ true)) }
{
    match simdutf8::compat::from_utf8(bytes) {
        Ok(text) => Some(text),
        Err(_) => None,
    }
}

/// Reads a text of so many bytes.
#[inline(always)]
fn read_utf8<'a>(
    bytes: &mut Cursor<'a, DecodeReason>,
    length: u32,
) -> Result<&'a str, ReadError<DecodeReason>>
    ensures read { Reads (check is_utf8 reasons.BadUtf8 (raw length))
        (λ x. x.now) bytes.old bytes.new result }
    ensures end { bytes.new.end ≡ bytes.old.end }
{
    let fault = bytes.fault(DecodeReason::BadUtf8);
    let text = bytes.raw(length as usize)?;
    match as_text(text) {
        Some(text) => Ok(text),
        None => Err(fault),
    }
}

/// Reads a text.
#[tactic(auto, unfolding(crate::specs::Texts::text))]
pub fn read_text(
    alloc: Global,
    bytes: &mut Cursor<'_, DecodeReason>,
) -> Result<String, ReadError<DecodeReason>>
    ensures read { Reads text string_bytes bytes.old bytes.new result }
    ensures end { bytes.new.end ≡ bytes.old.end }
{
    let length = read_index(bytes)?;
    let text = read_utf8(bytes, length)?;
    Ok(String::from_str(alloc, text)?)
}

/// The text as a label, if it is one.
fn as_label(alloc: Global, text: &str) -> Result<Option<Label>, AllocError>
    ensures { IfOk result
        (λ o. MatchOption o (is_label text.now ≡ false)
        (λ l. (l ≡ text.now) × (is_label text.now ≡ true))) }
{
    match Label::parse(alloc, text) {
        Ok(label) => Ok(Some(label)),
        Err(NameFault::Memory) => Err(AllocError),
        Err(_) => Ok(None),
    }
}

/// Reads a label.
#[tactic(auto, unfolding(crate::specs::Texts::label))]
pub fn read_label(
    alloc: Global,
    bytes: &mut Cursor<'_, DecodeReason>,
) -> Result<Label, ReadError<DecodeReason>>
    ensures read { Reads label (λ x. x) bytes.old bytes.new result }
    ensures end { bytes.new.end ≡ bytes.old.end }
{
    let length = read_index(bytes)?;
    let fault = bytes.fault(DecodeReason::BadName);
    let text = read_utf8(bytes, length)?;
    match as_label(alloc, text)? {
        Some(label) => Ok(label),
        None => Err(fault),
    }
}

/// The text as an extern name, if it is one.
fn as_extern_name(alloc: Global, text: &str) -> Result<Option<ExternName>, AllocError>
    ensures { IfOk result
        (λ o. MatchOption o (is_extern_name text.now ≡ false)
        (λ n. (n ≡ text.now) × (is_extern_name text.now ≡ true))) }
{
    match ExternName::parse(alloc, text) {
        Ok(name) => Ok(Some(name)),
        Err(NameFault::Memory) => Err(AllocError),
        Err(_) => Ok(None),
    }
}

/// Reads an extern name behind a byte.
#[tactic(auto, unfolding(crate::specs::Texts::extern_name))]
pub fn read_extern_name(
    alloc: Global,
    bytes: &mut Cursor<'_, DecodeReason>,
) -> Result<ExternName, ReadError<DecodeReason>>
    ensures read { Reads extern_name (λ x. x) bytes.old bytes.new result }
    ensures end { bytes.new.end ≡ bytes.old.end }
{
    bytes.byte(0x00, DecodeReason::UnknownCode)?;
    read_plain_name(alloc, bytes)
}

/// Reads an extern name.
#[tactic(auto, unfolding(crate::specs::Texts::plain_name))]
pub fn read_plain_name(
    alloc: Global,
    bytes: &mut Cursor<'_, DecodeReason>,
) -> Result<ExternName, ReadError<DecodeReason>>
    ensures read { Reads plain_name (λ x. x) bytes.old bytes.new result }
    ensures end { bytes.new.end ≡ bytes.old.end }
{
    let length = read_index(bytes)?;
    let fault = bytes.fault(DecodeReason::BadName);
    let text = read_utf8(bytes, length)?;
    match as_extern_name(alloc, text)? {
        Some(name) => Ok(name),
        None => Err(fault),
    }
}
