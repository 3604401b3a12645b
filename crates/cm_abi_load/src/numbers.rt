//! Numbers in memory.

ghost use Rattle.std.specs.Prelude.{◌≡◌, ◌+◌, ◌*◌, ◌-◌, ◌^◌, ◌<◌, ◌≤◌, length, nat_lt, neg_ℤ, pos};
ghost use Rattle.std.specs.Prelude.{if◌then◌else◌};
ghost use Rattle.cm_abi_model.specs.Numbers.{as_signed, number_at};
ghost use Rattle.cm_abi_load.specs.Sizes.{IsNumberSize};

use byteorder::{ByteOrder, LittleEndian};

/// The number of 8 bits at an address.
#[tactic(auto, unfolding(cm_abi_model::specs::Numbers::number_at))]
fn number_8(memory: &[u8], at: usize) -> u8
    requires { at + 1 ≤ length memory.now }
    ensures { result ≡ number_at 1 memory.now at }
{
    memory[at]
}

/// The number of 16 bits at an address.
fn number_16(memory: &[u8], at: usize) -> u16
    requires { at + 2 ≤ length memory.now }
    ensures { result ≡ number_at 2 memory.now at }
{
    LittleEndian::read_u16(&memory[at..])
}

/// The number of 32 bits at an address, in bytes from 0: the standard's `load_int` of four bytes,
/// little end first (CanonicalABI.md, "Loading"). The memory holds these four bytes.
pub fn number_32(memory: &[u8], at: usize) -> u32
    requires { at + 4 ≤ length memory.now }
    ensures { result ≡ number_at 4 memory.now at }
{
    LittleEndian::read_u32(&memory[at..])
}

/// The number of 64 bits at an address.
fn number_64(memory: &[u8], at: usize) -> u64
    requires { at + 8 ≤ length memory.now }
    ensures { result ≡ number_at 8 memory.now at }
{
    LittleEndian::read_u64(&memory[at..])
}

/// The number of so many bytes (1, 2, 4 or 8) at an address, in bytes from 0: the standard's
/// `load_int` without sign, little end first (CanonicalABI.md, "Loading"). The memory holds these
/// bytes.
pub fn number_at(memory: &[u8], bytes: u32, at: usize) -> u64
    requires size { IsNumberSize bytes }
    requires within { at + bytes ≤ length memory.now }
    ensures value { result ≡ number_at bytes memory.now at }
    ensures fits { result < 2 ^ (8 * bytes) }
{
    match bytes {
        1 => u64::from(number_8(memory, at)),
        2 => u64::from(number_16(memory, at)),
        4 => u64::from(number_32(memory, at)),
        _ => number_64(memory, at),
    }
}

/// A number read as two's complement, where the least number with a sign is at `half`.
fn two_complement(number: u64, half: u64) -> i64
    requires half { half ≤ 2 ^ 63 }
    requires fits { number < 2 * half }
    ensures { result ≡
        if nat_lt number half then pos number else neg_ℤ (pos (2 * half - number)) }
{
    if number < half {
        number as i64
    } else {
        (i128::from(number) - 2 * i128::from(half)) as i64
    }
}

/// A number of so many bytes, read as two's complement.
pub(crate) fn signed(bytes: u32, number: u64) -> i64
    requires size { IsNumberSize bytes }
    requires fits { number < 2 ^ (8 * bytes) }
    ensures { result ≡ as_signed bytes number }
{
    match bytes {
        1 => two_complement(number, 0x80),
        2 => two_complement(number, 0x8000),
        4 => two_complement(number, 0x8000_0000),
        _ => two_complement(number, 0x8000_0000_0000_0000),
    }
}
