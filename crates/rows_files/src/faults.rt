//! The numbers of the faults of files.

use crate::outcomes::write_reason;
use cm_binary::{DecodeReason, Feature, LimitFault, WriteReason};
use cm_rows::Line;

/// The reasons by the order of their numbers.
const REASONS: [DecodeReason; 13] = [
    DecodeReason::BadPreamble,
    DecodeReason::Truncated,
    DecodeReason::BadNumber,
    DecodeReason::SizeMismatch,
    DecodeReason::UnknownCode,
    DecodeReason::Unsupported(Feature::CoreTypes),
    DecodeReason::BadUtf8,
    DecodeReason::BadName,
    DecodeReason::NotAModule,
    DecodeReason::TooMany,
    DecodeReason::TooLong,
    DecodeReason::Read,
    DecodeReason::Memory,
];

/// Writes each fault of reading (`decode`), of limits (`limits`) or of writing (`write`) with its
/// number.
pub fn write_faults(kind: &str, line: &mut Line) {
    match kind {
        "decode" => write_reasons(line),
        "limits" => write_limits(line),
        "write" => write_writing(line),
        _ => line.refuse(),
    }
}

fn write_reasons(line: &mut Line) {
    for (i, reason) in REASONS.iter().enumerate() {
        if i > 0 {
            line.put(", ");
        }
        write_reason(line, *reason);
        line.put(" ");
        line.show(reason.number());
    }
}

fn write_limits(line: &mut Line) {
    for fault in [
        LimitFault::TooMany,
        LimitFault::TooLong,
        LimitFault::NotAModule,
    ] {
        line.number_of_debug(&fault, fault.number());
    }
}

fn write_writing(line: &mut Line) {
    for reason in [WriteReason::Write, WriteReason::Memory] {
        line.number_of_debug(&reason, reason.number());
    }
}
