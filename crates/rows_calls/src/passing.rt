//! What a call passes, as rows spell it.
//!
//! A way is `params` or `results`; an encoding `utf8`, `utf16` or `latin1`.

use cm_abi_model::{AbiFault, StringEncoding, Way};
use cm_handles::Handle;
use cm_rows::Line;

/// The way that a word names.
pub fn read_way(word: &str, line: &mut Line) -> Way {
    match word {
        "params" => Way::Params,
        "results" => Way::Results,
        _ => {
            line.refuse();
            Way::Params
        }
    }
}

/// The encoding that a word names.
pub fn read_encoding(word: &str, line: &mut Line) -> StringEncoding {
    match word {
        "utf8" => StringEncoding::Utf8,
        "utf16" => StringEncoding::Utf16,
        "latin1" => StringEncoding::Latin1OrUtf16,
        _ => {
            line.refuse();
            StringEncoding::Utf8
        }
    }
}

/// Writes ` owns SERIAL..` of handles that were taken out of a table and ` lends INDEX..` of those
/// that were lent, where there are some.
pub fn write_hands(line: &mut Line, owns: &[Handle], lends: &[u32]) {
    for (i, handle) in owns.iter().enumerate() {
        line.put(if i > 0 { " " } else { " owns " });
        line.show(handle.serial);
    }
    for (i, index) in lends.iter().enumerate() {
        line.put(if i > 0 { " " } else { " lends " });
        line.show(*index);
    }
}

/// Writes a fault; want of memory is that of the row.
pub fn write_fault(line: &mut Line, fault: AbiFault) {
    line.fail_if_memory(fault == AbiFault::EngineMemory);
    line.fault(&fault);
}

/// The faults of adapters, by the order of their numbers.
const FAULTS: [AbiFault; 13] = [
    AbiFault::PointerBounds,
    AbiFault::Misaligned,
    AbiFault::BadChar,
    AbiFault::BadCase,
    AbiFault::BadText,
    AbiFault::TooLarge,
    AbiFault::NoHandle,
    AbiFault::WrongResource,
    AbiFault::StillLent,
    AbiFault::NotOwned,
    AbiFault::TableFull,
    AbiFault::Overlap,
    AbiFault::EngineMemory,
];

/// Writes each fault with its number.
pub fn write_faults(line: &mut Line) {
    for fault in &FAULTS {
        line.number_of_debug(fault, fault.number());
    }
}
