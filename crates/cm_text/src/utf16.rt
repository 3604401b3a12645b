//! UTF-16, each unit little end first (the Unicode Standard, D91 and D97).

ghost use Rattle.std.specs.Prelude.{◌≡◌, ℕ, ◌+◌, ◌<◌, ◌≤◌, List, ◌++◌, length, take, drop, OnOk};
ghost use Rattle.std.specs.Prelude.{IfErr, IfSome, IfNone};
ghost use Rattle.cm_text.specs.Fault.{IsIllFormed};
ghost use Rattle.std.specs.Char.{IsScalar};
ghost use Rattle.cm_text.specs.Text.{BeginsWith, BeginsWithSome, IsSomeText, IsTextUpTo};
ghost use Rattle.cm_text.specs.Utf16.{unit, bytes_of_unit, spell_utf16};

use crate::kernels::{after_plain_units, ascii_units};
use crate::{Encoding, Source, TextFault, sizes, writes};
use std::alloc::AllocError;

/// UTF-16, each unit little end first.
#[derive(Clone, Copy, Debug, PartialEq, Eq)]
pub struct Utf16;

impl Source for Utf16 {
    ghost use Rattle.cm_text.specs.Utf16Laws.{utf16_some_byte, utf16_one_spelling, utf16_units};

    ghost has = { IsScalar };

    ghost spell = { spell_utf16 };

    ghost UNIT_SIZE = { 2 };

    ghost ALIGNMENT = { 2 };

    const UNIT_SIZE: usize = 2;

    const ALIGNMENT: usize = 2;

    fn split_first(bytes: &[u8]) -> Option<(char, &[u8])> {
        split_first_utf16(bytes)
    }

    fn check(bytes: &[u8]) -> Result<(), TextFault> {
        check_utf16(bytes)
    }

    fn measure_utf8(bytes: &[u8]) -> Result<usize, TextFault> {
        let units = ascii_units(bytes);
        if 2 * units == bytes.len() {
            return Ok(units);
        }
        check_utf16(bytes)?;
        Ok(sizes::utf16_in_utf8(bytes))
    }

    fn measure_utf16(bytes: &[u8]) -> Result<usize, TextFault> {
        check_utf16(bytes)?;
        Ok(bytes.len())
    }

    fn write_utf8(bytes: &[u8], out: &mut [u8]) {
        writes::utf16_to_utf8(bytes, out);
    }

    fn write_utf16(bytes: &[u8], out: &mut [u8]) {
        writes::copy(bytes, out);
    }

    ghost only_scalars = { λ c is. is };

    ghost whole_units = { λ c is. utf16_units c };

    ghost some_byte = { λ c is. utf16_some_byte c };

    ghost one_spelling = { λ c d x y is_c is_d same. utf16_one_spelling c d x y is_c is_d same };
}

impl Encoding for Utf16 {
    ghost use Rattle.cm_text.specs.Utf16Laws.{utf16_grows};

    ghost GREATEST_GROWTH = { 2 };

    const GREATEST_GROWTH: usize = 2;

    fn append(out: &mut Vec<u8>, scalar: char) -> Result<(), AllocError> {
        let mut room = [0; 4];
        let size = put_utf16(&mut room, 0, scalar as u32);
        out.extend_from_slice(&room[..size])
    }

    fn measure<S: Source>(bytes: &[u8]) -> Result<usize, TextFault> {
        S::measure_utf16(bytes)
    }

    fn write<S: Source>(bytes: &[u8], out: &mut [u8]) {
        S::write_utf16(bytes, out);
    }

    ghost every = { λ c is. is };

    ghost grows = { λ c is. utf16_grows c };
}

/// The first scalar and the bytes after it.
#[inline(always)]
fn split_first_utf16(bytes: &[u8]) -> Option<(char, &[u8])>
    ensures some { IfSome result (λ x. IsScalar x.0 × (bytes.now ≡ spell_utf16 x.0 ++ x.1.now)) }
    ensures none { IfNone result ((c : ℕ) (rest : List ℕ) → IsScalar c
        → bytes.now ≡ spell_utf16 c ++ rest → ⊥) }
{
    let [a, b, rest @ ..] = bytes else {
        return None;
    };
    let first = unit(*a, *b);
    if first < 0xD800 || 0xE000 <= first {
        return Some((char::from_u32(first).unwrap(), rest));
    }
    let [c, d, after @ ..] = rest else {
        return None;
    };
    let second = unit(*c, *d);
    if 0xDC00 <= first || second < 0xDC00 || 0xE000 <= second {
        return None;
    }
    let code = 0x10000 + (first - 0xD800) * 0x400 + (second - 0xDC00);
    Some((char::from_u32(code).unwrap(), after))
}

/// Whether the bytes are a text: units that are no surrogates are passed sixteen at a time.
fn check_utf16(bytes: &[u8]) -> Result<(), TextFault>
    ensures ok { OnOk result (IsSomeText IsScalar spell_utf16 bytes.now) }
    ensures ill_formed { IfErr result (λ e.
        IsIllFormed e (IsTextUpTo IsScalar spell_utf16 bytes.now)) }
{
    let mut rest = after_plain_units(bytes);
    while !rest.is_empty() {
        let Some((_, after)) = split_first_utf16(rest) else {
            return Err(TextFault::IllFormed {
                at: bytes.len() - rest.len(),
            });
        };
        rest = after_plain_units(after);
    }
    Ok(())
}

/// The unit of these two bytes.
#[inline(always)]
pub(crate) fn unit(low: u8, high: u8) -> u32
    ensures { result ≡ unit low high }
{
    low as u32 + 256 * high as u32
}

/// The scalar that the bytes of a text begin with at `at`, and the number of its bytes.
#[inline(always)]
pub(crate) fn utf16_scalar_at(bytes: &[u8], at: usize) -> (u32, usize)
    requires { BeginsWithSome IsScalar spell_utf16 (drop at bytes.now) }
    ensures { BeginsWith IsScalar spell_utf16 (drop at bytes.now) result.0 result.1 }
{
    let first = unit(bytes[at], bytes[at + 1]);
    if first < 0xD800 || 0xE000 <= first {
        (first, 2)
    } else {
        let second = unit(bytes[at + 2], bytes[at + 3]);
        (0x10000 + (first - 0xD800) * 0x400 + (second - 0xDC00), 4)
    }
}

/// Writes a unit from `to` on.
#[inline(always)]
fn put_unit(out: &mut [u8], to: usize, unit: u32)
    requires bound { unit < 0x10000 }
    requires room { to + 2 ≤ length out.old }
    ensures { take (to + 2) out.new ≡ take to out.old ++ bytes_of_unit unit }
{
    out[to] = (unit % 256) as u8;
    out[to + 1] = (unit / 256) as u8;
}

/// Writes the spelling of a scalar from `to` on, and answers its length.
#[inline(always)]
pub(crate) fn put_utf16(out: &mut [u8], to: usize, code: u32) -> usize
    requires bound { code < 0x110000 }
    requires room { to + length (spell_utf16 code) ≤ length out.old }
    ensures size { result ≡ length (spell_utf16 code) }
    ensures written { take (to + result) out.new ≡ take to out.old ++ spell_utf16 code }
{
    if code < 0x10000 {
        put_unit(out, to, code);
        2
    } else {
        let over = code - 0x10000;
        put_unit(out, to, 0xD800 + over / 0x400);
        put_unit(out, to + 2, 0xDC00 + over % 0x400);
        4
    }
}
