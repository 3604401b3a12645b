//! Values as rows write them.

use cm_rows::Line;
use cm_types::Value;
use std::fmt;

/// A number that is displayed in hexadecimal digits.
#[derive(Clone, Copy)]
struct Hexadecimal(u32);

impl fmt::Display for Hexadecimal {
    fn fmt<W: fmt::Write>(&self, f: &mut fmt::Formatter<W>) -> fmt::Result {
        let Hexadecimal(number) = self;
        write!(f, "{number:X}")
    }
}

/// Writes a value.
#[cycle(writing)]
fn write_value(line: &mut Line, value: &Value) {
    match value {
        Value::Bool(truth) => line.show(*truth),
        Value::Signed(number) => line.show(*number),
        Value::Unsigned(number) => line.show(*number),
        Value::Char(scalar) => {
            line.put("U+");
            line.show(Hexadecimal(u32::from(*scalar)));
        }
        Value::String(text) => {
            line.put("\"");
            line.put(text);
            line.put("\"");
        }
        Value::List(values) => {
            line.put("[");
            write_values(line, values);
            line.put("]");
        }
        Value::Fields(values) => {
            line.put("(");
            write_values(line, values);
            line.put(")");
        }
        Value::Case { index, payload } => {
            line.put("case:");
            line.show(*index);
            if let Some(value) = payload {
                line.put("(");
                write_value(line, value);
                line.put(")");
            }
        }
        Value::Flags(bits) => {
            line.put("flags:");
            line.show(*bits);
        }
        Value::Handle { serial, rep, .. } => {
            line.put("handle:");
            line.show(*serial);
            line.put(".");
            line.show(*rep);
        }
    }
}

/// Writes values, a space between two: numbers and truth values as they are, a char as `U+` and its
/// number in hexadecimal digits, a string in quotes, a list in square brackets and fields in round
/// ones, a case as `case:INDEX` with what it carries in round brackets, a set of labels as
/// `flags:BITS`, a handle as `handle:SERIAL.REP`.
#[cycle(writing)]
pub fn write_values(line: &mut Line, values: &[Value]) {
    for (i, value) in values.iter().enumerate() {
        if i > 0 {
            line.put(" ");
        }
        write_value(line, value);
    }
}
