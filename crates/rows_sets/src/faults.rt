//! The numbers of reasons, traps and misuses.

use cm_machine::{Misuse, Trap};
use cm_match::LinkReason;
use cm_rows::Line;
use cm_validate_spaces::ValidReason;

/// Why components are not valid, by the order of the numbers.
const INVALID: [ValidReason; 18] = [
    ValidReason::NoSuchIndex,
    ValidReason::WrongSort,
    ValidReason::EmptyType,
    ValidReason::TooManyFlags,
    ValidReason::BorrowInResult,
    ValidReason::DuplicateName,
    ValidReason::NeedsMemory,
    ValidReason::NeedsRealloc,
    ValidReason::OptionTwice,
    ValidReason::OptionNotAllowed,
    ValidReason::NotGuestFunction,
    ValidReason::SecondMemory,
    ValidReason::NotOwnResource,
    ValidReason::BadAnnotatedName,
    ValidReason::Memory,
    ValidReason::NotImported,
    ValidReason::TooLarge,
    ValidReason::StoresLatin1,
];

/// Why sets can't be linked.
const UNLINKED: [LinkReason; 8] = [
    LinkReason::Empty,
    LinkReason::TooMany,
    LinkReason::NoProvider,
    LinkReason::TwoProviders,
    LinkReason::MissingExport,
    LinkReason::DifferentType,
    LinkReason::DifferentResource,
    LinkReason::Memory,
];

const TRAPS: [Trap; 21] = [
    Trap::CoreShape,
    Trap::Unreachable,
    Trap::GuestBounds,
    Trap::PointerBounds,
    Trap::Misaligned,
    Trap::BadChar,
    Trap::BadCase,
    Trap::BadText,
    Trap::TooLarge,
    Trap::NoHandle,
    Trap::WrongResource,
    Trap::StillLent,
    Trap::NotOwned,
    Trap::TableFull,
    Trap::BorrowsLeft,
    Trap::MayNotLeave,
    Trap::Overlap,
    Trap::StackFull,
    Trap::UnknownFunction,
    Trap::EngineMemory,
    Trap::CalleeClosed,
];

const MISUSES: [Misuse; 6] = [
    Misuse::Idle,
    Misuse::Busy,
    Misuse::Closed,
    Misuse::NoInstance,
    Misuse::BadPages,
    Misuse::Memory,
];

/// Writes each reason of validity (`valid`) or of links (`link`), each trap (`trap`) or each misuse
/// (`misuse`) with its number.
pub fn answer(kind: &str, line: &mut Line) {
    match kind {
        "valid" => write_invalid(line),
        "link" => write_unlinked(line),
        "trap" => write_traps(line),
        "misuse" => write_misuses(line),
        _ => line.refuse(),
    }
}

fn write_invalid(line: &mut Line) {
    for reason in &INVALID {
        line.number_of(reason.name(), reason.number());
    }
}

fn write_unlinked(line: &mut Line) {
    for reason in &UNLINKED {
        line.number_of(reason.name(), reason.number());
    }
}

fn write_traps(line: &mut Line) {
    for trap in &TRAPS {
        line.number_of_debug(trap, trap.number());
    }
}

fn write_misuses(line: &mut Line) {
    for misuse in &MISUSES {
        line.number_of_debug(misuse, misuse.number());
    }
}
