//! The lines of what is wrong with a file.

use crate::files::FileFault;
use cm_binary::{DecodeFault, DecodeReason};
use cm_tool_help_texts::Escaped;
use std::fmt;

/// Writes why a file cannot be read.
pub(crate) fn write_file_fault<W: fmt::Write>(
    f: &mut fmt::Formatter<W>,
    name: Escaped<'_>,
    fault: FileFault,
) -> fmt::Result {
    let reason_name = fault.name();
    write!(f, "{name}: {reason_name}: {fault}")
}

/// Writes the fault of a file that is no component file: the reason, the place, what the reason
/// says, and the byte that stands there where the byte itself is at fault.
pub(crate) fn write_decode_fault<W: fmt::Write>(
    f: &mut fmt::Formatter<W>,
    name: Escaped<'_>,
    fault: DecodeFault,
    found: Option<u8>,
) -> fmt::Result {
    write!(f, "{name}: {fault}")?;
    match found {
        Some(byte) if is_of_a_byte(fault.reason) => write_found(f, fault.reason, byte),
        _ => Ok(()),
    }
}

/// Writes the byte that is at fault, and what was expected where a file begins.
fn write_found<W: fmt::Write>(
    f: &mut fmt::Formatter<W>,
    reason: DecodeReason,
    byte: u8,
) -> fmt::Result {
    write!(f, ": found the byte {byte:02X}")?;
    match reason {
        DecodeReason::BadPreamble => f.write_str(
            ", expected 00 61 73 6D 0D 00 01 00 to begin with",
        ),
        _ => Ok(()),
    }
}

/// Whether the byte at the place of the fault says what is wrong.
fn is_of_a_byte(reason: DecodeReason) -> bool {
    matches!(
        reason,
        DecodeReason::BadPreamble
            | DecodeReason::BadNumber
            | DecodeReason::UnknownCode
            | DecodeReason::Unsupported(_)
    )
}
