//! Why a component does not fit a world, and the line that says so.

ghost use Rattle.std.specs.Prelude.{◌≡◌};
ghost use Rattle.cm_tool_files.specs.declared.unfit.UnfitReason.TheVariants as reason;

use cm_tool_help_texts::Escaped;
use cm_wit_conforms::ConformFault;
use cm_wit_package::WitFault;
use cm_wit_worlds::WorldFault;
use std::alloc::AllocError;
use std::fmt;

/// Why a component does not fit a world.
#[derive(Clone, Copy)]
pub enum UnfitReason {
    /// The text of the world is no package.
    Wit(WitFault),
    /// The package has no such world, or the world has no signature.
    World(WorldFault),
    /// The component's signature does not fit the world's.
    Signature(ConformFault),
    /// There was no memory for the component's signature.
    Memory,
}

impl From<WitFault> for UnfitReason {
    ghost from_gives = { λ e r. r ≡ reason.Wit e };

    fn from(fault: WitFault) -> UnfitReason {
        UnfitReason::Wit(fault)
    }
}

impl From<WorldFault> for UnfitReason {
    ghost from_gives = { λ e r. r ≡ reason.World e };

    fn from(fault: WorldFault) -> UnfitReason {
        UnfitReason::World(fault)
    }
}

impl From<ConformFault> for UnfitReason {
    ghost from_gives = { λ e r. r ≡ reason.Signature e };

    fn from(fault: ConformFault) -> UnfitReason {
        UnfitReason::Signature(fault)
    }
}

impl From<AllocError> for UnfitReason {
    ghost from_gives = { λ _ r. r ≡ reason.Memory };

    fn from(_error: AllocError) -> UnfitReason {
        UnfitReason::Memory
    }
}

/// Why the component of a file does not fit a world of a text, with the words of the command line
/// that name them.
#[derive(Clone, Copy)]
pub struct Unfit<'a> {
    pub wit: &'a str,
    pub world: &'a str,
    pub file: &'a str,
    pub reason: UnfitReason,
}

impl fmt::Display for Unfit<'_> {
    fn fmt<W: fmt::Write>(&self, f: &mut fmt::Formatter<W>) -> fmt::Result {
        match self.reason {
            UnfitReason::Wit(fault) => write!(f, "{}: {fault}", Escaped(self.wit)),
            UnfitReason::World(fault) => write_world_fault(f, self.wit, self.world, fault),
            UnfitReason::Signature(fault) => write!(f, "{}: {fault}", Escaped(self.file)),
            UnfitReason::Memory => write_no_memory(f, self.file),
        }
    }
}

fn write_no_memory<W: fmt::Write>(f: &mut fmt::Formatter<W>, name: &str) -> fmt::Result {
    write!(f, "{}: Memory: no memory", Escaped(name))
}

/// Writes why a world of a text has no signature.
fn write_world_fault<W: fmt::Write>(
    f: &mut fmt::Formatter<W>,
    name: &str,
    world: &str,
    fault: WorldFault,
) -> fmt::Result {
    let fault_name = world_fault_name(fault);
    let (name, world) = (Escaped(name), Escaped(world));
    write!(f, "{name}: {fault_name} in world {world}: {fault}")
}

fn world_fault_name(fault: WorldFault) -> &'static str {
    match fault {
        WorldFault::NoSuchWorld => "NoSuchWorld",
        WorldFault::NoSuchInterface => "NoSuchInterface",
        WorldFault::NoSuchType => "NoSuchType",
        WorldFault::Cycle => "Cycle",
        WorldFault::TooLarge => "TooLarge",
        WorldFault::Memory => "Memory",
    }
}
