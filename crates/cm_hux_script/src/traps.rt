//! Traps by their names.

use cm_machine_model::Trap;

/// More than there are traps.
const MANY: u8 = 255;

/// The trap of a name, if there is one.
pub(crate) fn trap_named(name: &str) -> Option<Trap> {
    let mut trap = Some(Trap::CoreShape);
    for _ in 0..MANY {
        let this = trap?;
        if name_of(this) == name {
            return Some(this);
        }
        trap = behind(this);
    }
    None
}

/// Whether a trap has this number.
pub(crate) fn is_trap(number: u32) -> bool {
    let mut trap = Some(Trap::CoreShape);
    for _ in 0..MANY {
        let Some(this) = trap else {
            return false;
        };
        if u32::from(this.number()) == number {
            return true;
        }
        trap = behind(this);
    }
    false
}

/// The name of a trap.
fn name_of(trap: Trap) -> &'static str {
    match trap {
        Trap::CoreShape => "CoreShape",
        Trap::Unreachable => "Unreachable",
        Trap::GuestBounds => "GuestBounds",
        Trap::PointerBounds => "PointerBounds",
        Trap::Misaligned => "Misaligned",
        Trap::BadChar => "BadChar",
        Trap::BadCase => "BadCase",
        Trap::BadText => "BadText",
        Trap::TooLarge => "TooLarge",
        Trap::NoHandle => "NoHandle",
        Trap::WrongResource => "WrongResource",
        Trap::StillLent => "StillLent",
        Trap::NotOwned => "NotOwned",
        Trap::TableFull => "TableFull",
        Trap::BorrowsLeft => "BorrowsLeft",
        Trap::MayNotLeave => "MayNotLeave",
        Trap::Overlap => "Overlap",
        Trap::StackFull => "StackFull",
        Trap::UnknownFunction => "UnknownFunction",
        Trap::EngineMemory => "EngineMemory",
        Trap::CalleeClosed => "CalleeClosed",
    }
}

/// The trap that has the next number; none behind the last.
fn behind(trap: Trap) -> Option<Trap> {
    match trap {
        Trap::CoreShape => Some(Trap::Unreachable),
        Trap::Unreachable => Some(Trap::GuestBounds),
        Trap::GuestBounds => Some(Trap::PointerBounds),
        Trap::PointerBounds => Some(Trap::Misaligned),
        Trap::Misaligned => Some(Trap::BadChar),
        Trap::BadChar => Some(Trap::BadCase),
        Trap::BadCase => Some(Trap::BadText),
        Trap::BadText => Some(Trap::TooLarge),
        Trap::TooLarge => Some(Trap::NoHandle),
        Trap::NoHandle => Some(Trap::WrongResource),
        Trap::WrongResource => Some(Trap::StillLent),
        Trap::StillLent => Some(Trap::NotOwned),
        Trap::NotOwned => Some(Trap::TableFull),
        Trap::TableFull => Some(Trap::BorrowsLeft),
        Trap::BorrowsLeft => Some(Trap::MayNotLeave),
        Trap::MayNotLeave => Some(Trap::Overlap),
        Trap::Overlap => Some(Trap::StackFull),
        Trap::StackFull => Some(Trap::UnknownFunction),
        Trap::UnknownFunction => Some(Trap::EngineMemory),
        Trap::EngineMemory => Some(Trap::CalleeClosed),
        Trap::CalleeClosed => None,
    }
}
