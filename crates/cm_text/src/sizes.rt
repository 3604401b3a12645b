//! How many bytes a text takes in another encoding, sixteen lanes at a time.

ghost use Rattle.std.specs.Prelude.{◌≡◌, ℕ, ◌+◌, ◌*◌, ◌<◌, ◌≤◌, List, length, nat_le, count_by};
ghost use Rattle.std.specs.Prelude.{sum_by};
ghost use Rattle.std.specs.List.{flat_map};
ghost use Rattle.std.specs.Char.{IsScalar};
ghost use Rattle.std.specs.Simd.Lanes.{chunk, zip2};
ghost use Rattle.cm_text.specs.Latin1.{HasLatin1, spell_latin1};
ghost use Rattle.cm_text.specs.Sizes.{units_begun, bytes_taken, latin1_taken};
ghost use Rattle.cm_text.specs.Text.{IsText, IsSomeText};
ghost use Rattle.cm_text.specs.Utf16.{unit, units, spell_utf16};
ghost use Rattle.cm_text.specs.Utf8.{spell_utf8};

use crate::kernels::{LANES, marks_of, units_at};
use crate::utf16::unit;
use std::simd::prelude::*;

/// How many of the lanes are `least` or more.
#[inline(always)]
fn count_from(lanes: u8x16, least: u8) -> usize
    ensures value { result ≡ count_by (λ x. nat_le least x) lanes }
    ensures most { result ≤ 16 }
{
    lanes.simd_ge(u8x16::splat(least)).to_bitmask().count_ones() as usize
}

/// How many units of UTF-16 a scalar takes whose spelling in UTF-8 begins with this byte.
#[inline(always)]
fn units_begun(byte: u8) -> usize
    ensures { result ≡ units_begun byte }
{
    if byte < 0x80 {
        1
    } else if byte < 0xC0 {
        0
    } else if byte < 0xF0 {
        1
    } else {
        2
    }
}

/// How many units of UTF-16 the scalars take that begin in the sixteen bytes from `at` on.
#[inline(always)]
fn units_begun_in(bytes: &[u8], at: usize) -> usize
    requires { at + 16 ≤ length bytes.now }
    ensures { result ≡ sum_by units_begun (chunk at 16 bytes.now) }
{
    let lanes = u8x16::from_slice(&bytes[at..]);
    LANES + count_from(lanes, 0xC0) + count_from(lanes, 0xF0) - count_from(lanes, 0x80)
}

/// How many bytes a text in UTF-8 takes in UTF-16.
pub(crate) fn utf8_in_utf16(bytes: &[u8]) -> usize
    requires { IsSomeText IsScalar spell_utf8 bytes.now }
    ensures { (scalars : List ℕ) → IsText IsScalar spell_utf8 scalars bytes.now
        → result ≡ length (flat_map spell_utf16 scalars) }
{
    let mut units = 0;
    let mut at = 0;
    while bytes.len() - at >= LANES {
        units += units_begun_in(bytes, at);
        at += LANES;
    }
    while at < bytes.len() {
        units += units_begun(bytes[at]);
        at += 1;
    }
    2 * units
}

/// How many bytes of UTF-8 this unit takes.
#[inline(always)]
fn bytes_taken(unit: u32) -> usize
    ensures { result ≡ bytes_taken unit }
{
    if unit < 0x80 {
        1
    } else if unit < 0x800 {
        2
    } else if unit < 0xD800 {
        3
    } else if unit < 0xE000 {
        2
    } else {
        3
    }
}

/// How many bytes of UTF-8 the sixteen units of these first and second bytes take.
#[inline(always)]
fn bytes_taken_of(low: u8x16, high: u8x16) -> usize
    ensures { result ≡ sum_by bytes_taken (zip2 unit low high) }
{
    let marks = marks_of(low, high);
    LANES + count_from(marks, 0x80) + count_from(high, 0x08) + count_from(high, 0xE0)
        - count_from(high, 0xD8)
}

/// How many bytes of UTF-8 the sixteen units from `at` on take.
#[inline(always)]
fn bytes_taken_in(bytes: &[u8], at: usize) -> usize
    requires { at + 32 ≤ length bytes.now }
    ensures { result ≡ sum_by bytes_taken (units (chunk at 32 bytes.now)) }
{
    let (low, high) = units_at(bytes, at);
    bytes_taken_of(low, high)
}

/// How many bytes a text in UTF-16 takes in UTF-8.
pub(crate) fn utf16_in_utf8(bytes: &[u8]) -> usize
    requires { IsSomeText IsScalar spell_utf16 bytes.now }
    ensures { (scalars : List ℕ) → IsText IsScalar spell_utf16 scalars bytes.now
        → result ≡ length (flat_map spell_utf8 scalars) }
{
    let mut size = 0;
    let mut count = 0;
    while bytes.len() - 2 * count >= 2 * LANES {
        size += bytes_taken_in(bytes, 2 * count);
        count += LANES;
    }
    while bytes.len() - 2 * count >= 2 {
        size += bytes_taken(unit(bytes[2 * count], bytes[2 * count + 1]));
        count += 1;
    }
    size
}

/// How many bytes of UTF-8 a byte of Latin-1 takes.
#[inline(always)]
fn latin1_taken(byte: u8) -> usize
    ensures { result ≡ latin1_taken byte }
{
    if byte < 0x80 { 1 } else { 2 }
}

/// How many bytes of UTF-8 the sixteen bytes of Latin-1 from `at` on take.
#[inline(always)]
fn latin1_taken_in(bytes: &[u8], at: usize) -> usize
    requires { at + 16 ≤ length bytes.now }
    ensures { result ≡ sum_by latin1_taken (chunk at 16 bytes.now) }
{
    LANES + count_from(u8x16::from_slice(&bytes[at..]), 0x80)
}

/// How many bytes a text in Latin-1 takes in UTF-8.
pub(crate) fn latin1_in_utf8(bytes: &[u8]) -> usize
    requires { IsSomeText HasLatin1 spell_latin1 bytes.now }
    ensures { (scalars : List ℕ) → IsText HasLatin1 spell_latin1 scalars bytes.now
        → result ≡ length (flat_map spell_utf8 scalars) }
{
    let mut size = 0;
    let mut at = 0;
    while bytes.len() - at >= LANES {
        size += latin1_taken_in(bytes, at);
        at += LANES;
    }
    while at < bytes.len() {
        size += latin1_taken(bytes[at]);
        at += 1;
    }
    size
}
