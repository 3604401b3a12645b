//! Why declarations have no table.

ghost use Rattle.std.specs.Prelude.{◌≡◌};
ghost use Rattle.cm_wit_tables.specs.TableFaults.{table_fault, table_fault_number};

use cm_wit_meanings::MeaningFault;
use std::alloc::AllocError;
use thiserror::Error;

/// Why the declarations of a world have no table, the most basic reason first. `NotSpellable` comes
/// of no package that is read from a text.
#[derive(Clone, Copy, Debug, PartialEq, Eq, Error)]
pub enum TableFault {
    /// A name leads to no type, or that of a borrow to no resource.
    #[error("a name leads to no type, or that of a borrow to no resource")]
    NoSuchType = 1,
    /// A type leads to itself.
    #[error("a type leads to itself")]
    Cycle = 2,
    /// A type would have more than 10,000 nodes or be more than 64 deep.
    #[error("a type is too large")]
    TooLarge = 3,
    /// No file can spell a type: it has no fields, no cases, no labels or too many, or no elements.
    #[error("a type has no fields, no cases, no labels or too many, or no elements")]
    NotSpellable = 4,
    /// There was no memory.
    #[error("no memory")]
    Memory = 5,
}

impl TableFault {
    /// The number by which the fault is known, from 1 for `NoSuchType` to 5 for `Memory`.
    pub fn number(self) -> u8
        ensures { result ≡ table_fault_number self }
    {
        self as u8
    }
}

impl From<AllocError> for TableFault {
    ghost use Rattle.std.specs.Prelude.{◌≡◌};
    ghost use Rattle.cm_wit_tables.specs.declared.fault.TableFault.TheVariants as fault;

    ghost from_gives = { λ _ e. e ≡ fault.Memory };

    fn from(_error: AllocError) -> TableFault {
        TableFault::Memory
    }
}

/// The fault of a table of which a declaration has this one.
pub fn table_fault(fault: MeaningFault) -> TableFault
    ensures { result ≡ table_fault fault }
{
    match fault {
        MeaningFault::NoSuchType => TableFault::NoSuchType,
        MeaningFault::TooLarge => TableFault::TooLarge,
        MeaningFault::NotSpellable => TableFault::NotSpellable,
        MeaningFault::Memory => TableFault::Memory,
    }
}
