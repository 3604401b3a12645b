//! Texts written in another encoding, into slices of their size.

ghost use Rattle.std.specs.Prelude.{◌≡◌, ◌+◌, ◌≤◌, ◌++◌, length, take, drop};
ghost use Rattle.std.specs.Char.{IsScalar};
ghost use Rattle.cm_text.specs.Ascii.{ascii_run};
ghost use Rattle.cm_text.specs.Latin1.{HasLatin1, spell_latin1};
ghost use Rattle.cm_text.specs.Text.{IsTextOfSize, IsSameText};
ghost use Rattle.cm_text.specs.Utf16.{spell_utf16};
ghost use Rattle.cm_text.specs.Utf8.{spell_utf8};

use crate::kernels::{ascii_run, narrow, narrow_run, widen, widen_run};
use crate::utf8::{put_utf8, utf8_scalar_at};
use crate::utf16::{put_utf16, unit, utf16_scalar_at};

/// Writes a text in UTF-8 in UTF-16. Where it takes two bytes for each of its own, all of it is
/// ASCII.
pub(crate) fn utf8_to_utf16(bytes: &[u8], out: &mut [u8])
    requires { IsTextOfSize IsScalar spell_utf8 spell_utf16 bytes.now (length out.old) }
    ensures { IsSameText IsScalar spell_utf8 spell_utf16 bytes.now out.new }
{
    if out.len() == 2 * bytes.len() {
        widen(bytes, out);
        return;
    }
    let mut at = 0;
    let mut to = 0;
    while at < bytes.len() {
        if bytes[at] < 0x80 {
            let run = widen_run(bytes, at, out, to);
            at += run;
            to += 2 * run;
        } else {
            let (code, size) = utf8_scalar_at(bytes, at);
            to += put_utf16(out, to, code);
            at += size;
        }
    }
}

/// Writes a text in UTF-16 in UTF-8. Where it takes a byte for two of its own, all of it is ASCII.
pub(crate) fn utf16_to_utf8(bytes: &[u8], out: &mut [u8])
    requires { IsTextOfSize IsScalar spell_utf16 spell_utf8 bytes.now (length out.old) }
    ensures { IsSameText IsScalar spell_utf16 spell_utf8 bytes.now out.new }
{
    if 2 * out.len() == bytes.len() {
        narrow(bytes, out);
        return;
    }
    let mut at = 0;
    let mut to = 0;
    while at < bytes.len() {
        if unit(bytes[at], bytes[at + 1]) < 0x80 {
            let run = narrow_run(bytes, at, out, to);
            at += 2 * run;
            to += run;
        } else {
            let (code, size) = utf16_scalar_at(bytes, at);
            to += put_utf8(out, to, code);
            at += size;
        }
    }
}

/// Copies the run of ASCII from `at` on to the bytes from `to` on, and answers its length.
#[inline(always)]
fn copy_run(bytes: &[u8], at: usize, out: &mut [u8], to: usize) -> usize
    requires within { at ≤ length bytes.now }
    requires room { to + ascii_run (drop at bytes.now) ≤ length out.old }
    ensures run { result ≡ ascii_run (drop at bytes.now) }
    ensures written { take (to + result) out.new ≡ take to out.old
        ++ take result (drop at bytes.now) }
{
    let rest = &bytes[at..];
    let run = ascii_run(rest);
    out[to..to + run].copy_from_slice(&rest[..run]);
    run
}

/// Writes a text in Latin-1 in UTF-8.
pub(crate) fn latin1_to_utf8(bytes: &[u8], out: &mut [u8])
    requires { IsTextOfSize HasLatin1 spell_latin1 spell_utf8 bytes.now (length out.old) }
    ensures { IsSameText HasLatin1 spell_latin1 spell_utf8 bytes.now out.new }
{
    let mut at = 0;
    let mut to = 0;
    while at < bytes.len() {
        if bytes[at] < 0x80 {
            let run = copy_run(bytes, at, out, to);
            at += run;
            to += run;
        } else {
            to += put_utf8(out, to, bytes[at] as u32);
            at += 1;
        }
    }
}

/// Writes a text in Latin-1 in UTF-16.
pub(crate) fn latin1_to_utf16(bytes: &[u8], out: &mut [u8])
    requires { IsTextOfSize HasLatin1 spell_latin1 spell_utf16 bytes.now (length out.old) }
    ensures { IsSameText HasLatin1 spell_latin1 spell_utf16 bytes.now out.new }
{
    widen(bytes, out);
}

/// Copies a text.
pub(crate) fn copy(bytes: &[u8], out: &mut [u8])
    requires { length bytes.now ≡ length out.old }
    ensures { out.new ≡ bytes.now }
{
    out.copy_from_slice(bytes);
}
