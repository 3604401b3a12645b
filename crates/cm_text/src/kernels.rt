//! Runs of ASCII, sixteen lanes at a time.

ghost use Rattle.std.specs.Prelude.{◌≡◌, ℕ, ◌+◌, ◌*◌, ◌<◌, ◌≤◌, List, ◌++◌, length, take, drop};
ghost use Rattle.std.specs.Prelude.{map, nat_lt, IsTrue};
ghost use Rattle.std.specs.Char.{IsScalar, is_ascii};
ghost use Rattle.std.specs.List.{AllByRecursion, prefix_len, flat_map};
ghost use Rattle.std.specs.Simd.Lanes.{chunk, zip2};
ghost use Rattle.cm_text.specs.Ascii.{ascii_run, ascii_units, wide};
ghost use Rattle.cm_text.specs.Utf16.{unit, units, first_bytes, spell_utf16};
ghost use Rattle.cm_text.specs.Lanes.{second_bytes, mark, below_e0, is_plain};

use crate::utf16::unit;
use std::simd::prelude::*;

/// How many lanes a block has.
pub(crate) const LANES: usize = 16;

/// How many of the sixteen lanes come before the first that is `least` or more.
#[inline(always)]
fn run_below(lanes: u8x16, least: u8) -> usize
    ensures { result ≡ prefix_len (λ x. nat_lt x least) lanes }
{
    let others = lanes.simd_ge(u8x16::splat(least)).to_bitmask();
    if others == 0 {
        16
    } else {
        others.trailing_zeros() as usize
    }
}

/// How many of the sixteen lanes come before the first that is not below 0x80.
#[inline(always)]
fn run_of(lanes: u8x16) -> usize
    ensures { result ≡ prefix_len is_ascii lanes }
{
    run_below(lanes, 0x80)
}

/// How many of the sixteen bytes from `at` on come before the first that is not ASCII.
#[inline(always)]
pub(crate) fn run_in(bytes: &[u8], at: usize) -> usize
    requires { at + 16 ≤ length bytes.now }
    ensures { result ≡ prefix_len is_ascii (chunk at 16 bytes.now) }
{
    run_of(u8x16::from_slice(&bytes[at..]))
}

/// Writes the sixteen bytes from `at` on as units of UTF-16 from `to` on, and answers how many of
/// them come before the first that is not ASCII.
#[inline(always)]
pub(crate) fn widen_in(bytes: &[u8], at: usize, out: &mut [u8], to: usize) -> usize
    requires within { at + 16 ≤ length bytes.now }
    requires room { to + 32 ≤ length out.old }
    ensures run { result ≡ prefix_len is_ascii (chunk at 16 bytes.now) }
    ensures written { take (to + 32) out.new ≡ take to out.old
        ++ flat_map wide (chunk at 16 bytes.now) }
{
    let lanes = u8x16::from_slice(&bytes[at..]);
    let (low, high) = lanes.interleave(u8x16::splat(0));
    low.copy_to_slice(&mut out[to..]);
    high.copy_to_slice(&mut out[to + 16..]);
    run_of(lanes)
}

/// The first and the second bytes of the sixteen units of UTF-16 from `at` on.
#[inline(always)]
pub(crate) fn units_at(bytes: &[u8], at: usize) -> (u8x16, u8x16)
    requires { at + 32 ≤ length bytes.now }
    ensures low { result.0 ≡ first_bytes (chunk at 32 bytes.now) }
    ensures high { result.1 ≡ second_bytes (chunk at 32 bytes.now) }
{
    let front = u8x16::from_slice(&bytes[at..]);
    let back = u8x16::from_slice(&bytes[at + 16..]);
    front.deinterleave(back)
}

/// The first byte of each unit of these first and second bytes, and 0xFF where the second is not 0,
/// so that the lane is below 0x80 where the unit is.
#[inline(always)]
pub(crate) fn marks_of(low: u8x16, high: u8x16) -> u8x16
    ensures { result ≡ zip2 mark low high }
{
    high.simd_ne(u8x16::splat(0))
        .select(u8x16::splat(0xFF), low)
}

/// How many of the sixteen units of these first and second bytes come before the first that is not
/// ASCII.
#[inline(always)]
fn run_of_units(low: u8x16, high: u8x16) -> usize
    ensures { result ≡ prefix_len is_ascii (zip2 unit low high) }
{
    run_of(marks_of(low, high))
}

/// Writes the first bytes of the sixteen units of UTF-16 from `at` on from `to` on, and answers how
/// many of the units come before the first that is not ASCII.
#[inline(always)]
pub(crate) fn narrow_in(bytes: &[u8], at: usize, out: &mut [u8], to: usize) -> usize
    requires within { at + 32 ≤ length bytes.now }
    requires room { to + 16 ≤ length out.old }
    ensures run { result ≡ prefix_len is_ascii (units (chunk at 32 bytes.now)) }
    ensures written { take (to + 16) out.new ≡ take to out.old
        ++ first_bytes (chunk at 32 bytes.now) }
{
    let (low, high) = units_at(bytes, at);
    low.copy_to_slice(&mut out[to..]);
    run_of_units(low, high)
}

/// Writes the run of ASCII from `at` on as units of UTF-16 from `to` on, sixteen at a time, and
/// answers its length. What lies behind may be written too.
fn widen_long_run(bytes: &[u8], at: usize, out: &mut [u8], to: usize) -> usize
    requires within { at ≤ length bytes.now }
    requires room { to + 2 * ascii_run (drop at bytes.now) ≤ length out.old }
    ensures run { result ≡ ascii_run (drop at bytes.now) }
    ensures written { take (to + 2 * result) out.new ≡ take to out.old
        ++ flat_map wide (take result (drop at bytes.now)) }
{
    let mut run = 0;
    while bytes.len() - (at + run) >= LANES && out.len() - (to + 2 * run) >= 2 * LANES {
        let more = widen_in(bytes, at + run, out, to + 2 * run);
        if more < LANES {
            return run + more;
        }
        run += LANES;
    }
    while at + run < bytes.len() && bytes[at + run] < 0x80 {
        out[to + 2 * run] = bytes[at + run];
        out[to + 2 * run + 1] = 0;
        run += 1;
    }
    run
}

/// Writes the run of ASCII from `at` on, or its first sixteen bytes, as units of UTF-16 from `to`
/// on, and answers how many.
#[inline(always)]
fn widen_few(bytes: &[u8], at: usize, out: &mut [u8], to: usize) -> usize
    requires within { at ≤ length bytes.now }
    requires room { to + 2 * ascii_run (drop at bytes.now) ≤ length out.old }
    ensures run { result < 16 → result ≡ ascii_run (drop at bytes.now) }
    ensures most { result ≤ 16 }
    ensures within { at + result ≤ length bytes.now }
    ensures left { result + ascii_run (drop (at + result) bytes.now)
        ≡ ascii_run (drop at bytes.now) }
    ensures written { take (to + 2 * result) out.new ≡ take to out.old
        ++ flat_map wide (take result (drop at bytes.now)) }
{
    let mut run = 0;
    while run < LANES && at + run < bytes.len() && bytes[at + run] < 0x80 {
        out[to + 2 * run] = bytes[at + run];
        out[to + 2 * run + 1] = 0;
        run += 1;
    }
    run
}

/// Writes the run of ASCII from `at` on as units of UTF-16 from `to` on, and answers its length:
/// one by one where it is short, as in most texts that are not ASCII as a whole. What lies behind
/// may be written too.
#[inline(always)]
pub(crate) fn widen_run(bytes: &[u8], at: usize, out: &mut [u8], to: usize) -> usize
    requires within { at ≤ length bytes.now }
    requires room { to + 2 * ascii_run (drop at bytes.now) ≤ length out.old }
    ensures run { result ≡ ascii_run (drop at bytes.now) }
    ensures written { take (to + 2 * result) out.new ≡ take to out.old
        ++ flat_map wide (take result (drop at bytes.now)) }
{
    let few = widen_few(bytes, at, out, to);
    if few < LANES {
        return few;
    }
    few + widen_long_run(bytes, at + few, out, to + 2 * few)
}

/// Writes the run of ASCII units from `at` on as bytes from `to` on, sixteen at a time, and answers
/// how many units it has. What lies behind may be written too.
fn narrow_long_run(bytes: &[u8], at: usize, out: &mut [u8], to: usize) -> usize
    requires within { at ≤ length bytes.now }
    requires room { to + ascii_units (drop at bytes.now) ≤ length out.old }
    ensures run { result ≡ ascii_units (drop at bytes.now) }
    ensures written { take (to + result) out.new ≡ take to out.old
        ++ first_bytes (take (2 * result) (drop at bytes.now)) }
{
    let mut run = 0;
    while bytes.len() - (at + 2 * run) >= 2 * LANES && out.len() - (to + run) >= LANES {
        let more = narrow_in(bytes, at + 2 * run, out, to + run);
        if more < LANES {
            return run + more;
        }
        run += LANES;
    }
    while bytes.len() - (at + 2 * run) >= 2
        && bytes[at + 2 * run] < 0x80
        && bytes[at + 2 * run + 1] == 0
    {
        out[to + run] = bytes[at + 2 * run];
        run += 1;
    }
    run
}

/// Writes the run of ASCII units from `at` on, or its first sixteen, as bytes from `to` on, and
/// answers how many.
#[inline(always)]
fn narrow_few(bytes: &[u8], at: usize, out: &mut [u8], to: usize) -> usize
    requires within { at ≤ length bytes.now }
    requires room { to + ascii_units (drop at bytes.now) ≤ length out.old }
    ensures run { result < 16 → result ≡ ascii_units (drop at bytes.now) }
    ensures most { result ≤ 16 }
    ensures within { at + 2 * result ≤ length bytes.now }
    ensures left { result + ascii_units (drop (at + 2 * result) bytes.now)
        ≡ ascii_units (drop at bytes.now) }
    ensures written { take (to + result) out.new ≡ take to out.old
        ++ first_bytes (take (2 * result) (drop at bytes.now)) }
{
    let mut run = 0;
    while run < LANES && bytes.len() - (at + 2 * run) >= 2 {
        let unit = unit(bytes[at + 2 * run], bytes[at + 2 * run + 1]);
        if unit >= 0x80 {
            return run;
        }
        out[to + run] = unit as u8;
        run += 1;
    }
    run
}

/// Writes the run of ASCII units from `at` on as bytes from `to` on, and answers how many units it
/// has: one by one where it is short, as in most texts that are not ASCII as a whole. What lies
/// behind may be written too.
#[inline(always)]
pub(crate) fn narrow_run(bytes: &[u8], at: usize, out: &mut [u8], to: usize) -> usize
    requires within { at ≤ length bytes.now }
    requires room { to + ascii_units (drop at bytes.now) ≤ length out.old }
    ensures run { result ≡ ascii_units (drop at bytes.now) }
    ensures written { take (to + result) out.new ≡ take to out.old
        ++ first_bytes (take (2 * result) (drop at bytes.now)) }
{
    let few = narrow_few(bytes, at, out, to);
    if few < LANES {
        return few;
    }
    few + narrow_long_run(bytes, at + 2 * few, out, to + few)
}

/// Whether the sixty-four bytes from `at` on are ASCII.
#[inline(always)]
fn is_ascii_in(bytes: &[u8], at: usize) -> bool
    requires { at + 64 ≤ length bytes.now }
    ensures { IsTrue result → prefix_len is_ascii (chunk at 64 bytes.now) ≡ 64 }
{
    let lanes = u8x64::from_slice(&bytes[at..]);
    lanes.simd_ge(u8x64::splat(0x80)).to_bitmask() == 0
}

/// How many bytes the blocks of sixty-four have that the longest beginning of ASCII begins with.
#[inline(always)]
fn ascii_blocks(bytes: &[u8]) -> usize
    ensures within { result ≤ length bytes.now }
    ensures run { result + ascii_run (drop result bytes.now) ≡ ascii_run bytes.now }
{
    let mut at = 0;
    while bytes.len() - at >= 64 {
        if !is_ascii_in(bytes, at) {
            return at;
        }
        at += 64;
    }
    at
}

/// The length in bytes of the longest beginning of `bytes` in which each byte is below 0x80.
pub fn ascii_run(bytes: &[u8]) -> usize
    ensures { result ≡ ascii_run bytes.now }
{
    let mut at = ascii_blocks(bytes);
    while bytes.len() - at >= LANES {
        let run = run_in(bytes, at);
        if run < LANES {
            return at + run;
        }
        at += LANES;
    }
    while at < bytes.len() && bytes[at] < 0x80 {
        at += 1;
    }
    at
}

/// How many of the sixteen units of UTF-16 from `at` on come before the first that is not ASCII.
#[inline(always)]
pub(crate) fn units_in(bytes: &[u8], at: usize) -> usize
    requires { at + 32 ≤ length bytes.now }
    ensures { result ≡ prefix_len is_ascii (units (chunk at 32 bytes.now)) }
{
    let (low, high) = units_at(bytes, at);
    run_of_units(low, high)
}

/// What no byte of an ASCII unit reaches: 0x80 for the first bytes, 1 for the second.
const PAST_ASCII: [u8; 64] = [
    0x80, 1, 0x80, 1, 0x80, 1, 0x80, 1, 0x80, 1, 0x80, 1, 0x80, 1, 0x80, 1, 0x80, 1, 0x80, 1, 0x80,
    1, 0x80, 1, 0x80, 1, 0x80, 1, 0x80, 1, 0x80, 1, 0x80, 1, 0x80, 1, 0x80, 1, 0x80, 1, 0x80, 1,
    0x80, 1, 0x80, 1, 0x80, 1, 0x80, 1, 0x80, 1, 0x80, 1, 0x80, 1, 0x80, 1, 0x80, 1, 0x80, 1, 0x80,
    1,
];

/// Whether the thirty-two units of UTF-16 from `at` on are ASCII.
#[inline(always)]
fn are_ascii_units_in(bytes: &[u8], at: usize) -> bool
    requires { at + 64 ≤ length bytes.now }
    ensures { IsTrue result → prefix_len is_ascii (units (chunk at 64 bytes.now)) ≡ 32 }
{
    let lanes = u8x64::from_slice(&bytes[at..]);
    lanes.simd_ge(u8x64::from_array(PAST_ASCII)).to_bitmask() == 0
}

/// How many units the blocks of thirty-two have that the longest beginning of ASCII begins with.
#[inline(always)]
fn ascii_unit_blocks(bytes: &[u8]) -> usize
    ensures within { 2 * result ≤ length bytes.now }
    ensures run { result + ascii_units (drop (2 * result) bytes.now) ≡ ascii_units bytes.now }
{
    let mut count = 0;
    while bytes.len() - 2 * count >= 64 {
        if !are_ascii_units_in(bytes, 2 * count) {
            return count;
        }
        count += 32;
    }
    count
}

/// The number of units in the longest beginning of `bytes` in which each unit of UTF-16, little end
/// first, is below 0x80. An odd last byte is no unit.
pub fn ascii_units(bytes: &[u8]) -> usize
    ensures { result ≡ ascii_units bytes.now }
{
    let mut count = ascii_unit_blocks(bytes);
    while bytes.len() - 2 * count >= 2 * LANES {
        let run = units_in(bytes, 2 * count);
        if run < LANES {
            return count + run;
        }
        count += LANES;
    }
    while bytes.len() - 2 * count >= 2 && bytes[2 * count] < 0x80 && bytes[2 * count + 1] == 0 {
        count += 1;
    }
    count
}

/// Writes each byte as the unit of UTF-16 of its value, little end first: the byte, and then 0. It
/// asks for an output of twice the length.
pub fn widen(bytes: &[u8], out: &mut [u8])
    requires { length out.old ≡ 2 * length bytes.now }
    ensures { out.new ≡ flat_map wide bytes.now }
{
    let mut at = 0;
    while bytes.len() - at >= LANES {
        widen_in(bytes, at, out, 2 * at);
        at += LANES;
    }
    while at < bytes.len() {
        out[2 * at] = bytes[at];
        out[2 * at + 1] = 0;
        at += 1;
    }
}

/// Writes the first byte of each unit of UTF-16. It asks for units below 0x80 alone, as
/// `ascii_units` tells, and for an output of half the length.
pub fn narrow(bytes: &[u8], out: &mut [u8])
    requires ascii { ascii_units bytes.now ≡ length out.old }
    requires half { length bytes.now ≡ 2 * length out.old }
    ensures first { out.new ≡ first_bytes bytes.now }
    ensures same { flat_map wide out.new ≡ bytes.now }
{
    let mut to = 0;
    while out.len() - to >= LANES {
        narrow_in(bytes, 2 * to, out, to);
        to += LANES;
    }
    while to < out.len() {
        out[to] = bytes[2 * to];
        to += 1;
    }
}

/// The lanes, with 0 for those that are 0xE0 or more.
#[inline(always)]
fn below_e0(high: u8x16) -> u8x16
    ensures { result ≡ map below_e0 high }
{
    high.simd_ge(u8x16::splat(0xE0))
        .select(u8x16::splat(0), high)
}

/// How many of the sixteen units of UTF-16 from `at` on come before the first surrogate.
#[inline(always)]
fn plain_in(bytes: &[u8], at: usize) -> usize
    requires { at + 32 ≤ length bytes.now }
    ensures { result ≡ prefix_len is_plain (second_bytes (chunk at 32 bytes.now)) }
{
    let (_, high) = units_at(bytes, at);
    run_below(below_e0(high), 0xD8)
}

/// The bytes after some units of UTF-16 that are no surrogates. Where fewer than sixteen units are
/// left, or the first is a surrogate, that may be none.
#[inline(always)]
pub(crate) fn after_plain_units(bytes: &[u8]) -> &[u8]
    ensures { (scalars : List ℕ) × AllByRecursion IsScalar scalars
        × (bytes.now ≡ flat_map spell_utf16 scalars ++ result.now) }
{
    let mut at = 0;
    while bytes.len() - at >= 2 * LANES {
        let run = plain_in(bytes, at);
        if run < LANES {
            return &bytes[at + 2 * run..];
        }
        at += 2 * LANES;
    }
    &bytes[at..]
}
