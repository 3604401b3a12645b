//! The traps of what is wrong with a handle.

ghost use Rattle.std.specs.Prelude.{◌≡◌};
ghost use Rattle.cm_machine_model.specs.Step.{trap_of_handle};

use cm_handles::HandleFault;
use cm_machine_model::Trap;

/// The trap of what is wrong with a handle.
pub fn trap_of_handle(fault: HandleFault) -> Trap
    ensures { result ≡ trap_of_handle fault }
{
    match fault {
        HandleFault::NoHandle => Trap::NoHandle,
        HandleFault::WrongResource => Trap::WrongResource,
        HandleFault::StillLent => Trap::StillLent,
        HandleFault::NotOwned => Trap::NotOwned,
        HandleFault::Full => Trap::TableFull,
        HandleFault::Memory => Trap::EngineMemory,
    }
}
