//! UTF-8 (the Unicode Standard, D92).

ghost use Rattle.std.specs.Prelude.{◌≡◌, ◌+◌, ◌*◌, ◌%◌, ◌<◌, ◌≤◌, ◌++◌, length, take, drop, OnOk};
ghost use Rattle.std.specs.Prelude.{IfErr};
ghost use Rattle.std.specs.Char.{IsScalar};
ghost use Rattle.cm_text.specs.Text.{BeginsWith, BeginsWithSome, IsSomeText, IsTextUpTo};
ghost use Rattle.cm_text.specs.Fault.{IsIllFormed};
ghost use Rattle.cm_text.specs.Utf8.{spell_utf8};

use crate::kernels::ascii_run;
use crate::{Encoding, Source, TextFault, sizes, writes};
use std::alloc::AllocError;

/// The most bytes of a text that is first looked at for ASCII alone, which takes less time than the
/// check of all spellings takes to begin.
const SHORT: usize = 64;

/// UTF-8.
#[derive(Clone, Copy, Debug, PartialEq, Eq)]
pub struct Utf8;

impl Source for Utf8 {
    ghost use Rattle.cm_text.specs.Utf8Laws.{utf8_some_byte, utf8_one_spelling, utf8_units};

    ghost has = { IsScalar };

    ghost spell = { spell_utf8 };

    ghost UNIT_SIZE = { 1 };

    ghost ALIGNMENT = { 1 };

    const UNIT_SIZE: usize = 1;

    const ALIGNMENT: usize = 1;

    fn split_first(bytes: &[u8]) -> Option<(char, &[u8])> {
        match bstr::decode_utf8(bytes) {
            (Some(scalar), size) => Some((scalar, bytes_after(bytes, size))),
            (None, _) => None,
        }
    }

    fn check(bytes: &[u8]) -> Result<(), TextFault> {
        check_utf8(bytes)
    }

    fn measure_utf8(bytes: &[u8]) -> Result<usize, TextFault> {
        if bytes.len() <= SHORT && ascii_run(bytes) == bytes.len() {
            return Ok(bytes.len());
        }
        check_utf8(bytes)?;
        Ok(bytes.len())
    }

    fn measure_utf16(bytes: &[u8]) -> Result<usize, TextFault> {
        if ascii_run(bytes) == bytes.len() {
            return Ok(2 * bytes.len());
        }
        check_utf8(bytes)?;
        Ok(sizes::utf8_in_utf16(bytes))
    }

    fn write_utf8(bytes: &[u8], out: &mut [u8]) {
        writes::copy(bytes, out);
    }

    fn write_utf16(bytes: &[u8], out: &mut [u8]) {
        writes::utf8_to_utf16(bytes, out);
    }

    ghost only_scalars = { λ c is. is };

    ghost whole_units = { λ c is. utf8_units c };

    ghost some_byte = { λ c is. utf8_some_byte c };

    ghost one_spelling = { λ c d x y is_c is_d same. utf8_one_spelling c d x y same };
}

impl Encoding for Utf8 {
    ghost use Rattle.cm_text.specs.Utf8Laws.{utf8_grows};

    ghost GREATEST_GROWTH = { 3 };

    const GREATEST_GROWTH: usize = 3;

    fn append(out: &mut Vec<u8>, scalar: char) -> Result<(), AllocError> {
        let mut room = [0; 4];
        let size = put_utf8(&mut room, 0, scalar as u32);
        out.extend_from_slice(&room[..size])
    }

    fn measure<S: Source>(bytes: &[u8]) -> Result<usize, TextFault> {
        S::measure_utf8(bytes)
    }

    fn write<S: Source>(bytes: &[u8], out: &mut [u8]) {
        S::write_utf8(bytes, out);
    }

    ghost every = { λ c is. is };

    ghost grows = { λ c is. utf8_grows c };
}

/// Whether the bytes are a text.
fn check_utf8(bytes: &[u8]) -> Result<(), TextFault>
    ensures ok { OnOk result (IsSomeText IsScalar spell_utf8 bytes.now) }
    ensures ill_formed { IfErr result (λ e.
        IsIllFormed e (IsTextUpTo IsScalar spell_utf8 bytes.now)) }
{
    match simdutf8::compat::from_utf8(bytes) {
        Ok(_) => Ok(()),
        Err(fault) => Err(TextFault::IllFormed {
            at: fault.valid_up_to(),
        }),
    }
}

/// The bytes after the first few.
#[inline(always)]
fn bytes_after(bytes: &[u8], size: usize) -> &[u8]
    requires { size ≤ length bytes.now }
    ensures { result.now ≡ drop size bytes.now }
{
    &bytes[size..]
}

/// Six bits more of a scalar, from a byte that goes on with its spelling.
#[inline(always)]
fn six_more(bits: u32, byte: u8) -> u32
    requires bits { bits < 0x10000 }
    requires byte { (0x80 ≤ byte) × (byte < 0xC0) }
    ensures { result + 0x80 ≡ 64 * bits + byte }
{
    bits * 64 + (byte as u32 - 0x80)
}

/// The scalar that the bytes of a text begin with at `at`, and the number of its bytes.
#[inline(always)]
pub(crate) fn utf8_scalar_at(bytes: &[u8], at: usize) -> (u32, usize)
    requires { BeginsWithSome IsScalar spell_utf8 (drop at bytes.now) }
    ensures { BeginsWith IsScalar spell_utf8 (drop at bytes.now) result.0 result.1 }
{
    let first = bytes[at] as u32;
    if first < 0x80 {
        (first, 1)
    } else if first < 0xE0 {
        (six_more(first - 0xC0, bytes[at + 1]), 2)
    } else if first < 0xF0 {
        let two = six_more(first - 0xE0, bytes[at + 1]);
        (six_more(two, bytes[at + 2]), 3)
    } else {
        let two = six_more(first - 0xF0, bytes[at + 1]);
        let three = six_more(two, bytes[at + 2]);
        (six_more(three, bytes[at + 3]), 4)
    }
}

/// A byte that goes on with a scalar's spelling: its last six bits.
#[inline(always)]
fn last_six(bits: u32) -> u8
    ensures { result ≡ 0x80 + bits % 64 }
{
    (0x80 + bits % 64) as u8
}

/// Writes the spelling of a scalar from `to` on, and answers its length.
#[inline(always)]
pub(crate) fn put_utf8(out: &mut [u8], to: usize, code: u32) -> usize
    requires bound { code < 0x110000 }
    requires room { to + length (spell_utf8 code) ≤ length out.old }
    ensures size { result ≡ length (spell_utf8 code) }
    ensures written { take (to + result) out.new ≡ take to out.old ++ spell_utf8 code }
{
    if code < 0x80 {
        out[to] = code as u8;
        1
    } else if code < 0x800 {
        out[to] = (0xC0 + code / 64) as u8;
        out[to + 1] = last_six(code);
        2
    } else if code < 0x10000 {
        out[to] = (0xE0 + code / 4096) as u8;
        out[to + 1] = last_six(code / 64);
        out[to + 2] = last_six(code);
        3
    } else {
        out[to] = (0xF0 + code / 262144) as u8;
        out[to + 1] = last_six(code / 4096);
        out[to + 2] = last_six(code / 64);
        out[to + 3] = last_six(code);
        4
    }
}
