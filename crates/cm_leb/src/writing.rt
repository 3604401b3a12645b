//! The shortest spellings.

ghost use Rattle.std.specs.Prelude.{◌≡◌, ℕ, List, ◌%◌, ◌^◌, ◌<◌, ◌≤◌, ◌++◌, length, OnOk, OnErr};
ghost use Rattle.std.specs.Prelude.{◌↔◌, Err, IfOk, IsTrue, pos};
ghost use Rattle.cm_leb.specs.Numbers.{IsWithin, SpellsUnsigned, StandsUnsigned};
ghost use Rattle.cm_leb.specs.Numbers.{SpellsSigned};
ghost use Rattle.cm_leb.specs.Numbers.{StandsSigned};
ghost use Rattle.cm_leb.specs.NumbersWritten.{group_of, unsigned_length, shortest_unsigned};
ghost use Rattle.cm_leb.specs.NumbersWritten.{signed_length};
ghost use Rattle.cm_leb.specs.NumbersWritten.{to_two_complement, shortest_signed};

use crate::fault::SignedFault;
use std::alloc::AllocError;

/// Appends the shortest spelling of a number without a sign: one byte for each seven bits that it
/// has, and at least one (the core specification, "Integers").
///
/// The one error is that memory was refused; the list is then unchanged.
pub fn write_u32(out: &mut Vec<u8>, value: u32) -> Result<(), AllocError>
    ensures ok { OnOk result (out.new.items ≡ out.old.items ++ shortest_unsigned value) }
    // So a read from the old end on finds the number, and the new end.
    ensures stands { OnOk result
        (StandsUnsigned 32 out.new.items (length out.old.items) value (length out.new.items)) }
    ensures spelled { SpellsUnsigned 32 (shortest_unsigned value) value }
    ensures shortest { (bytes : List ℕ) → SpellsUnsigned 32 bytes value
        → length (shortest_unsigned value) ≤ length bytes }
    ensures err { OnErr result (out.new.items ≡ out.old.items) }
{
    put_group(out, spelled_length(value as u64) as usize, value as u64)
}

/// Appends a count as [`write_u32`] appends a number. Of a count of 32 bits and more, which no
/// number spells, the low 35 bits are appended.
///
/// The one error is that memory was refused; the list is then unchanged.
pub fn write_count(out: &mut Vec<u8>, count: usize) -> Result<(), AllocError>
    ensures ok { OnOk result (out.new.items ≡ out.old.items ++ shortest_unsigned count) }
    ensures err { OnErr result (out.new.items ≡ out.old.items) }
{
    put_group(out, spelled_length(count as u64) as usize, count as u64)
}

/// Appends the shortest spelling of a number of 33 bits with a sign, in two's complement of seven
/// bits a byte (the core specification, "Integers").
///
/// `TooLarge` comes exactly for a number below -2^32 and for one of 2^32 or more; `Memory` comes
/// where there is no memory for the bytes. With each fault the list is unchanged.
pub fn write_s33(out: &mut Vec<u8>, value: i64) -> Result<(), SignedFault>
    ensures fits { IfOk result (λ _. IsWithin 33 value) }
    ensures ok { OnOk result (out.new.items ≡ out.old.items ++ shortest_signed value) }
    // So a read from the old end on finds the number, and the new end.
    ensures stands { OnOk result
        (StandsSigned 33 out.new.items (length out.old.items) value (length out.new.items)) }
    ensures spelled { OnOk result (SpellsSigned 33 (shortest_signed value) value) }
    ensures shortest { (bytes : List ℕ) → SpellsSigned 33 bytes value
        → length (shortest_signed value) ≤ length bytes }
    ensures too_large { (result ≡ Err SignedFault.TooLarge) ↔ (¬ IsWithin 33 value) }
    ensures err { OnErr result (out.new.items ≡ out.old.items) }
{
    if !fits_s33(value) {
        return Err(SignedFault::TooLarge);
    }
    match put_s33(out, value) {
        Ok(()) => Ok(()),
        Err(_) => Err(SignedFault::Memory),
    }
}

/// Appends the index of a type, as [`write_s33`] appends a number.
///
/// The one error is that memory was refused; the list is then unchanged.
pub fn write_index(out: &mut Vec<u8>, index: u32) -> Result<(), AllocError>
    ensures ok { OnOk result (out.new.items ≡ out.old.items ++ shortest_signed (pos index)) }
    ensures err { OnErr result (out.new.items ≡ out.old.items) }
{
    put_s33(out, i64::from(index))
}

/// Whether a number has at most 33 bits, its sign among them.
fn fits_s33(value: i64) -> bool
    ensures { IsTrue result ↔ IsWithin 33 value }
{
    value >= -(1 << 32) && value < 1 << 32
}

/// Appends the shortest spelling of a number that has at most 33 bits.
fn put_s33(out: &mut Vec<u8>, value: i64) -> Result<(), AllocError>
    requires { IsWithin 33 value }
    ensures ok { OnOk result (out.new.items ≡ out.old.items ++ shortest_signed value) }
    ensures stands { OnOk result
        (StandsSigned 33 out.new.items (length out.old.items) value (length out.new.items)) }
    ensures spelled { SpellsSigned 33 (shortest_signed value) value }
    ensures shortest { (bytes : List ℕ) → SpellsSigned 33 bytes value
        → length (shortest_signed value) ≤ length bytes }
    ensures err { OnErr result (out.new.items ≡ out.old.items) }
{
    let length = spelled_signed_length(value);
    put_group(
        out,
        length as usize,
        two_complement_digits(7 * length, value),
    )
}

/// How many bytes the shortest spelling of a number without a sign takes (the core specification,
/// "Integers"): 1 to 5. A number of more than 32 bits has none; the answer is then 5.
pub fn spelled_length(value: u64) -> u32
    ensures digits { result ≡ unsigned_length value }
    ensures bytes { result ≡ length (shortest_unsigned value) }
{
    if value < 1 << 7 {
        1
    } else if value < 1 << 14 {
        2
    } else if value < 1 << 21 {
        3
    } else if value < 1 << 28 {
        4
    } else {
        5
    }
}

/// How many bytes the shortest spelling of a number of 33 bits with a sign takes (the core
/// specification, "Integers"): 1 to 5. A number of more bits has none; the answer is then 5.
pub fn spelled_signed_length(value: i64) -> u32
    ensures digits { result ≡ signed_length value }
    ensures bytes { result ≡ length (shortest_signed value) }
{
    if value >= -(1 << 6) && value < 1 << 6 {
        1
    } else if value >= -(1 << 13) && value < 1 << 13 {
        2
    } else if value >= -(1 << 20) && value < 1 << 20 {
        3
    } else if value >= -(1 << 27) && value < 1 << 27 {
        4
    } else {
        5
    }
}

/// The number in two's complement of `bits` bits.
fn two_complement_digits(bits: u32, value: i64) -> u64
    requires some { 1 ≤ bits }
    requires few { bits ≤ 35 }
    requires fits { IsWithin bits value }
    ensures { result ≡ to_two_complement bits value }
{
    if value < 0 {
        (1u64 << bits) - value.unsigned_abs()
    } else {
        value as u64
    }
}

/// Appends `length` bytes with the low digits of `digits` in base 128, by one growth of the list.
fn put_group(out: &mut Vec<u8>, length: usize, digits: u64) -> Result<(), AllocError>
    requires some { 1 ≤ length }
    requires few { length ≤ 5 }
    ensures ok { OnOk result (out.new.items ≡ out.old.items ++ group_of length digits) }
    ensures err { OnErr result (out.new.items ≡ out.old.items) }
{
    let first = low_digit(digits);
    let second = low_digit(digits / 128);
    let third = low_digit(digits / 128 / 128);
    let fourth = low_digit(digits / 128 / 128 / 128);
    let fifth = low_digit(digits / 128 / 128 / 128 / 128);
    match length {
        1 => out.extend_from_slice(&[first]),
        2 => out.extend_from_slice(&[128 + first, second]),
        3 => out.extend_from_slice(&[128 + first, 128 + second, third]),
        4 => out.extend_from_slice(&[128 + first, 128 + second, 128 + third, fourth]),
        _ => out.extend_from_slice(&[128 + first, 128 + second, 128 + third, 128 + fourth, fifth]),
    }
}

/// The last digit in base 128.
fn low_digit(digits: u64) -> u8
    ensures { result ≡ digits % 128 }
{
    (digits % 128) as u8
}
