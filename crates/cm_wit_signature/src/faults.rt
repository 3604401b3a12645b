//! The faults of worlds that those of tables and of meanings are.

ghost use Rattle.std.specs.Prelude.{◌≡◌};
ghost use Rattle.cm_wit_signature.specs.WorldFaults.{fault_of_meaning, fault_of_table};

use cm_wit_meanings::MeaningFault;
use cm_wit_tables::TableFault;
use cm_wit_worlds::WorldFault;

/// The fault of a world whose declarations have no table for this reason. A type that no file can
/// spell counts as too large: no text gives one.
pub fn fault_of_table(fault: TableFault) -> WorldFault
    ensures { result ≡ fault_of_table fault }
{
    match fault {
        TableFault::NoSuchType => WorldFault::NoSuchType,
        TableFault::Cycle => WorldFault::Cycle,
        TableFault::TooLarge | TableFault::NotSpellable => WorldFault::TooLarge,
        TableFault::Memory => WorldFault::Memory,
    }
}

/// The fault of a world a function of which cannot be had for this reason.
pub fn fault_of_meaning(fault: MeaningFault) -> WorldFault
    ensures { result ≡ fault_of_meaning fault }
{
    match fault {
        MeaningFault::NoSuchType => WorldFault::NoSuchType,
        MeaningFault::TooLarge | MeaningFault::NotSpellable => WorldFault::TooLarge,
        MeaningFault::Memory => WorldFault::Memory,
    }
}
