//! Names, numbers and marks.

ghost use Rattle.std.specs.Prelude.{◌≡◌};
ghost use Rattle.std.specs.Fmt.{decimal, signed_decimal};
ghost use Rattle.cm_values.specs.SpelledNames.{is_keyword, name_spelling};
ghost use Rattle.cm_values.specs.Spelling.{comma_before};
ghost use Rattle.cm_values.specs.Written.{Writes};

use std::alloc::AllocError;
use std::fmt::Write;

/// Adds a text as it is.
pub fn put(out: &mut String, part: &str) -> Result<(), AllocError>
    ensures { Writes part.now out.old out.new result }
{
    out.push_str(part)
}

/// Adds a number without a sign.
pub fn put_number(out: &mut String, number: u64) -> Result<(), AllocError>
    ensures { Writes (decimal number) out.old out.new result }
{
    write!(out, "{number}")
}

/// Adds a number with a sign.
pub fn put_signed(out: &mut String, number: i64) -> Result<(), AllocError>
    ensures { Writes (signed_decimal number) out.old out.new result }
{
    write!(out, "{number}")
}

/// Whether a label is a word of the notation itself.
fn is_keyword(label: &[u8]) -> bool
    ensures { result ≡ is_keyword label.now }
{
    matches!(
        label,
        b"true" | b"false" | b"inf" | b"nan" | b"some" | b"none" | b"ok" | b"err"
    )
}

/// Adds a label, with a `%` before it where it would be a keyword.
pub fn put_name(out: &mut String, label: &str) -> Result<(), AllocError>
    ensures { Writes (name_spelling label.now) out.old out.new result }
{
    if is_keyword(label.as_bytes()) {
        put(out, "%")?;
    }
    put(out, label)
}

/// Adds what stands before a member of a list, from 0: nothing before the first, a comma and a
/// blank before each other one.
pub fn put_comma(out: &mut String, index: usize) -> Result<(), AllocError>
    ensures { Writes (comma_before index) out.old out.new result }
{
    if index == 0 { Ok(()) } else { put(out, ", ") }
}
