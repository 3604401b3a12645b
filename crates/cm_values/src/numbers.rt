//! Numbers.

ghost use Rattle.std.specs.Prelude.{◌≡◌, ◌<◌, ◌≤◌, ◌^◌};
ghost use Rattle.std.specs.Option.{SomeIff};
ghost use Rattle.cm_values.specs.Reading.{Reads};
ghost use Rattle.cm_values.specs.Words.{digit_of, magnitude, number_below, read_on};

use crate::cursor::Cursor;
use crate::kind::Kind;
use crate::value_fault::{ReadError, ValueReason};

fn digit_of(byte: u8) -> u8
    ensures { result ≡ digit_of byte }
{
    if byte < b':' {
        byte.saturating_sub(b'0')
    } else if byte < b'a' {
        byte.saturating_sub(b'A' - 10)
    } else {
        byte.saturating_sub(b'a' - 10)
    }
}

/// The number that digits are in a base; `None` where it is above 18,446,744,073,709,551,615.
#[tactic(auto, using(crate::proofs::NumberLaws::number_laws))]
pub fn digits_value(base: u64, digits: &[u8]) -> Option<u64>
    requires { 0 < base }
    ensures { SomeIff result (read_on base 0 digits.now < 2 ^ 64) (read_on base 0 digits.now) }
{
    let mut number: u64 = 0;
    for digit in digits {
        number = number
            .checked_mul(base)?
            .checked_add(u64::from(digit_of(*digit)))?;
    }
    Some(number)
}

fn number_below(limit: u128, digits: &[u8]) -> Result<u64, ValueReason>
    requires { limit ≤ 2 ^ 64 }
    ensures { result ≡ number_below limit digits.now }
{
    match digits {
        [] | [b'0', _, ..] => Err(ValueReason::Unexpected),
        _ => match digits_value(10, digits) {
            Some(number) if u128::from(number) < limit => Ok(number),
            _ => Err(ValueReason::OutOfRange),
        },
    }
}

/// Reads a number without a sign, which is below the limit; else it is a fault at its first digit.
pub fn read_magnitude(cursor: &mut Cursor<'_>, limit: u128) -> Result<u64, ReadError>
    requires { limit ≤ 2 ^ 64 }
    ensures { Reads (magnitude limit) (λ n. n) cursor.old cursor.new result }
{
    let start = *cursor;
    match number_below(limit, cursor.run(Kind::Digits)) {
        Ok(number) => Ok(number),
        Err(reason) => Err(start.fault(reason)),
    }
}
