//! The traps of what is wrong with a value or an answer.

ghost use Rattle.std.specs.Prelude.{◌≡◌};
ghost use Rattle.cm_machine_model.specs.Step.{trap_of};

use cm_abi::AbiFault;
use cm_machine_model::Trap;

/// The trap that a fault of an adapter leads to.
pub(crate) fn trap_of(fault: AbiFault) -> Trap
    ensures { result ≡ trap_of fault }
{
    match fault {
        AbiFault::PointerBounds => Trap::PointerBounds,
        AbiFault::Misaligned => Trap::Misaligned,
        AbiFault::BadChar => Trap::BadChar,
        AbiFault::BadCase => Trap::BadCase,
        AbiFault::BadText => Trap::BadText,
        AbiFault::TooLarge => Trap::TooLarge,
        AbiFault::NoHandle => Trap::NoHandle,
        AbiFault::WrongResource => Trap::WrongResource,
        AbiFault::StillLent => Trap::StillLent,
        AbiFault::NotOwned => Trap::NotOwned,
        AbiFault::TableFull => Trap::TableFull,
        AbiFault::Overlap => Trap::Overlap,
        AbiFault::EngineMemory => Trap::EngineMemory,
    }
}
