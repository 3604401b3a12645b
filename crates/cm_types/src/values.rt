//! Values of components.

ghost use Rattle.std.specs.Prelude.{◌↔◌, IsTrue};
ghost use Rattle.cm_types.specs.Values.{IsScalarValue};

use crate::ResourceId;

/// A value of a component (Explainer.md, "Value Types").
#[derive(Drop)]
pub enum Value {
    Bool(bool),
    /// A number of one of the types s8, s16, s32 and s64.
    Signed(i64),
    /// A number of one of the types u8, u16, u32 and u64.
    Unsigned(u64),
    Char(char),
    String(String),
    /// The elements of a list.
    List(Vec<Value>),
    /// The fields of a record or a tuple, or the elements of a list of fixed length, in order.
    Fields(Vec<Value>),
    /// The case `index`, from 0, of a variant, an enum, an option (none, some) or a result (ok,
    /// error).
    Case {
        index: u32,
        payload: Option<Box<Value>>,
    },
    /// The labels that are set: label n, from 0, exactly if bit n is 1.
    Flags(u32),
    Handle {
        /// The serial number of the handle.
        serial: u64,
        /// The representation that the defining component chose.
        rep: u32,
        resource: ResourceId,
    },
}

/// Whether a number is a scalar: below 0x110000, and no surrogate (0xD800 to 0xDFFF).
pub fn is_scalar(number: u32) -> bool
    ensures { IsTrue result ↔ IsScalarValue number }
{
    char::from_u32(number).is_some()
}
