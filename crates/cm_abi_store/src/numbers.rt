//! Numbers that values are stored as.

ghost use Rattle.std.specs.Prelude.{◌≡◌};
ghost use Rattle.cm_types.specs.ValueTrees.{value_of};
ghost use Rattle.cm_abi_store.specs.Storing.{number_in};

use cm_types::Value;

/// The number that a value of one number is stored as, a signed one in two's complement of 64 bits,
/// and 0 for any other.
pub(crate) fn number_in(value: &Value) -> u64
    ensures { result ≡ number_in (value_of value.now) }
{
    match value {
        Value::Bool(truth) => u64::from(*truth),
        Value::Signed(number) => number.cast_unsigned(),
        Value::Unsigned(number) => *number,
        Value::Char(scalar) => u64::from(u32::from(*scalar)),
        Value::Flags(bits) => u64::from(*bits),
        _ => 0,
    }
}
