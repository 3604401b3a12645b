//! Numbers at the front of bytes, and at a place in them.

ghost use Rattle.std.specs.Prelude.{◌≡◌, ℕ, ℤ, List, ◌+◌, ◌*◌, ◌^◌, ◌<◌, ◌≤◌, ◌↔◌, length, drop};
ghost use Rattle.std.specs.Prelude.{IfOk, IsOkAnd};
ghost use Rattle.std.specs.Result.{IsErrOf};
ghost use Rattle.cm_leb.specs.Numbers.{HasBadUnsignedBits, IsTooLong, IsTruncated};
ghost use Rattle.cm_leb.specs.Numbers.{two_complement};
ghost use Rattle.cm_leb.specs.Numbers.{HasBadSignedBits, BeginsUnsigned, BeginsSigned};
ghost use Rattle.cm_leb.specs.Numbers.{StandsUnsigned, StandsSigned};
ghost use Rattle.cm_leb.specs.NumbersRead.{Finds, group_at, unsigned_at, signed_at};
ghost use Rattle.cm_leb.specs.NumbersRead.{unsigned_from};
ghost use Rattle.cm_leb.specs.NumbersRead.{signed_from};

use crate::fault::LebFault;

/// The most bytes that a number of 32 or of 33 bits takes.
const GREATEST_LENGTH: usize = 5;

/// The digits of the number in front, of at most `room` bytes, and what follows it.
#[tactic(auto, unfolding(crate::specs::NumbersRead::group_at))]
fn group(bytes: &[u8], room: usize) -> Result<(u64, &[u8]), LebFault>
    requires { room ≤ 5 }
    ensures read { Finds (λ x. (x.0, x.1.now)) result (group_at room bytes.now) }
    ensures small { IfOk result (λ x. x.0 < 128 ^ room) }
    ensures shorter { IfOk result
        (λ x. (length x.1.now < length bytes.now) × (length bytes.now ≤ length x.1.now + room)) }
{
    if room == 0 {
        return Err(LebFault::TooLong);
    }
    match bytes {
        [] => Err(LebFault::Truncated),
        [byte, rest @ ..] => {
            if *byte < 128 {
                return Ok((*byte as u64, rest));
            }
            let (high, rest) = group(rest, room - 1)?;
            Ok(((*byte - 128) as u64 + 128 * high, rest))
        }
    }
}

/// Reads the number of 32 bits without a sign at the front of the bytes: the number, and the bytes
/// after it (the core specification, "Integers"). A number need not be spelled as shortly as it can
/// be.
///
/// - `Truncated`: the bytes end before the number does.
/// - `TooLong`: the fifth byte says that another one follows.
/// - `BadLastBits`: the bytes of a number stand in front, and it goes past its type.
pub fn front_u32(bytes: &[u8]) -> Result<(u32, &[u8]), LebFault>
    ensures computed { Finds (λ x. (x.0, x.1.now)) result (unsigned_at 32 bytes.now) }
    ensures found { IfOk result (λ x. BeginsUnsigned 32 bytes.now x.0 x.1.now) }
    ensures only { (n : ℕ) (rest : List ℕ) → BeginsUnsigned 32 bytes.now n rest
        → IsOkAnd result (λ x. (x.0 ≡ n) × (x.1.now ≡ rest)) }
    ensures truncated { IsErrOf result LebFault.Truncated ↔ IsTruncated 32 bytes.now }
    ensures too_long { IsErrOf result LebFault.TooLong ↔ IsTooLong 32 bytes.now }
    ensures bad_last_bits { IsErrOf result LebFault.BadLastBits ↔ HasBadUnsignedBits 32 bytes.now }
{
    unsigned_front(bytes)
}

/// The number in front. Most numbers are of one byte or of two, which are read first.
#[tactic(auto, unfolding(crate::specs::NumbersRead::unsigned_at, crate::specs::NumbersRead::group_at))]
fn unsigned_front(bytes: &[u8]) -> Result<(u32, &[u8]), LebFault>
    ensures read { Finds (λ x. (x.0, x.1.now)) result (unsigned_at 32 bytes.now) }
    ensures shorter { IfOk result (λ x. length x.1.now ≤ length bytes.now) }
{
    match bytes {
        [byte, rest @ ..] => {
            if *byte < 128 {
                return Ok((*byte as u32, rest));
            }
            match rest {
                [high, rest @ ..] => {
                    if *high < 128 {
                        return Ok(((*byte - 128) as u32 + 128 * *high as u32, rest));
                    }
                    long_unsigned_front(bytes)
                }
                [] => Err(LebFault::Truncated),
            }
        }
        [] => Err(LebFault::Truncated),
    }
}

/// The number in front, however many bytes it takes.
#[tactic(auto, unfolding(crate::specs::NumbersRead::unsigned_at))]
fn long_unsigned_front(bytes: &[u8]) -> Result<(u32, &[u8]), LebFault>
    ensures read { Finds (λ x. (x.0, x.1.now)) result (unsigned_at 32 bytes.now) }
    ensures shorter { IfOk result (λ x. length x.1.now ≤ length bytes.now) }
{
    let (digits, rest) = group(bytes, GREATEST_LENGTH)?;
    if digits >= 1 << 32 {
        return Err(LebFault::BadLastBits);
    }
    Ok((digits as u32, rest))
}

/// Reads the number of 32 bits without a sign that begins at `at`, counted from 0: the number, and
/// the place after it. The faults are those of [`front_u32`] for the bytes from `at` on, of which
/// there are none where `at` is not inside the slice.
pub fn read_u32(bytes: &[u8], at: usize) -> Result<(u32, usize), LebFault>
    ensures found { IfOk result (λ x. StandsUnsigned 32 bytes.now at x.0 x.1) }
    ensures only { (n : ℕ) (end : ℕ) → StandsUnsigned 32 bytes.now at n end → result ≡ Ok (n, end) }
    ensures truncated { IsErrOf result LebFault.Truncated ↔ IsTruncated 32 (drop at bytes.now) }
    ensures too_long { IsErrOf result LebFault.TooLong ↔ IsTooLong 32 (drop at bytes.now) }
    ensures bad_last_bits { IsErrOf result LebFault.BadLastBits
        ↔ HasBadUnsignedBits 32 (drop at bytes.now) }
{
    unsigned_from(bytes, at)
}

#[tactic(auto, unfolding(crate::specs::NumbersRead::unsigned_from))]
fn unsigned_from(bytes: &[u8], at: usize) -> Result<(u32, usize), LebFault>
    ensures { result ≡ unsigned_from 32 bytes.now at }
{
    let Some(front) = bytes.get(at..) else {
        return Err(LebFault::Truncated);
    };
    let (number, rest) = unsigned_front(front)?;
    Ok((number, bytes.len() - rest.len()))
}

/// Reads the number of 33 bits with a sign at the front of the bytes: the number, and the bytes
/// after it (the core specification, "Integers"). A number need not be spelled as shortly as it can
/// be.
///
/// - `Truncated`: the bytes end before the number does.
/// - `TooLong`: the fifth byte says that another one follows.
/// - `BadLastBits`: the bytes of a number stand in front, and it goes past its type.
pub fn front_s33(bytes: &[u8]) -> Result<(i64, &[u8]), LebFault>
    ensures computed { Finds (λ x. (x.0, x.1.now)) result (signed_at 33 bytes.now) }
    ensures found { IfOk result (λ x. BeginsSigned 33 bytes.now x.0 x.1.now) }
    ensures only { (n : ℤ) (rest : List ℕ) → BeginsSigned 33 bytes.now n rest
        → IsOkAnd result (λ x. (x.0 ≡ n) × (x.1.now ≡ rest)) }
    ensures truncated { IsErrOf result LebFault.Truncated ↔ IsTruncated 33 bytes.now }
    ensures too_long { IsErrOf result LebFault.TooLong ↔ IsTooLong 33 bytes.now }
    ensures bad_last_bits { IsErrOf result LebFault.BadLastBits ↔ HasBadSignedBits 33 bytes.now }
{
    signed_front(bytes)
}

/// The number in front. Most numbers are of one byte and have no sign, and are read first.
#[tactic(auto, unfolding(crate::specs::NumbersRead::signed_at, crate::specs::NumbersRead::group_at))]
fn signed_front(bytes: &[u8]) -> Result<(i64, &[u8]), LebFault>
    ensures read { Finds (λ x. (x.0, x.1.now)) result (signed_at 33 bytes.now) }
    ensures shorter { IfOk result (λ x. length x.1.now ≤ length bytes.now) }
{
    match bytes {
        [byte, rest @ ..] if *byte < 64 => Ok((*byte as i64, rest)),
        _ => long_signed_front(bytes),
    }
}

/// The number in front, however many bytes it takes.
#[tactic(auto, unfolding(crate::specs::NumbersRead::signed_at))]
fn long_signed_front(bytes: &[u8]) -> Result<(i64, &[u8]), LebFault>
    ensures read { Finds (λ x. (x.0, x.1.now)) result (signed_at 33 bytes.now) }
    ensures shorter { IfOk result (λ x. length x.1.now ≤ length bytes.now) }
{
    let (digits, rest) = group(bytes, GREATEST_LENGTH)?;
    let bits = 7 * (bytes.len() - rest.len()) as u32;
    let number = two_complement_of(bits, digits);
    if number < -(1 << 32) || number >= 1 << 32 {
        return Err(LebFault::BadLastBits);
    }
    Ok((number, rest))
}

/// Reads the number of 33 bits with a sign that begins at `at`, counted from 0: the number, and the
/// place after it. The faults are those of [`front_s33`] for the bytes from `at` on, of which there
/// are none where `at` is not inside the slice.
pub fn read_s33(bytes: &[u8], at: usize) -> Result<(i64, usize), LebFault>
    ensures found { IfOk result (λ x. StandsSigned 33 bytes.now at x.0 x.1) }
    ensures only { (n : ℤ) (end : ℕ) → StandsSigned 33 bytes.now at n end → result ≡ Ok (n, end) }
    ensures truncated { IsErrOf result LebFault.Truncated ↔ IsTruncated 33 (drop at bytes.now) }
    ensures too_long { IsErrOf result LebFault.TooLong ↔ IsTooLong 33 (drop at bytes.now) }
    ensures bad_last_bits { IsErrOf result LebFault.BadLastBits
        ↔ HasBadSignedBits 33 (drop at bytes.now) }
{
    signed_from(bytes, at)
}

#[tactic(auto, unfolding(crate::specs::NumbersRead::signed_from))]
fn signed_from(bytes: &[u8], at: usize) -> Result<(i64, usize), LebFault>
    ensures { result ≡ signed_from 33 bytes.now at }
{
    let Some(front) = bytes.get(at..) else {
        return Err(LebFault::Truncated);
    };
    let (number, rest) = signed_front(front)?;
    Ok((number, bytes.len() - rest.len()))
}

/// What `digits` stand for in two's complement of `bits` bits.
fn two_complement_of(bits: u32, digits: u64) -> i64
    requires some { 1 ≤ bits }
    requires few { bits ≤ 35 }
    requires small { digits < 2 ^ 35 }
    ensures { result ≡ two_complement bits digits }
{
    if digits < 1 << (bits - 1) {
        digits as i64
    } else {
        digits as i64 - (1i64 << bits)
    }
}
