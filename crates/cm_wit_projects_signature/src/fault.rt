//! Why a world has no signature.

ghost use Rattle.std.specs.Prelude.{◌≡◌};
ghost use Rattle.cm_wit_projects_signature.specs.Faults as spec;
ghost use Rattle.cm_wit_projects_signature.specs.declared.fault.SignatureFault.TheVariants as fault;

use cm_wit_meanings::MeaningFault;
use cm_wit_projects::ResolveFault;
use cm_wit_tables::TableFault;
use std::alloc::AllocError;

/// Why a world of a project has no signature.
#[derive(Clone, Copy, PartialEq, Eq)]
pub enum SignatureFault {
    /// There is no world of this name.
    NoSuchWorld,
    /// Something in the project is wrong, at a byte of a file.
    At(ResolveFault),
    /// A type, or the parameters or the result of a function, would have more than 10,000 nodes or
    /// be more than 64 deep.
    TooLarge,
    /// A name of a type leads to none: no project that is resolved gives this.
    NoSuchType,
    /// Memory was refused.
    Memory,
}

impl SignatureFault {
    /// The number by which the fault is known, from 1 for `NoSuchWorld` to 5 for `Memory`.
    pub fn number(self) -> u8
        ensures { result ≡ spec.signature_fault_number self }
    {
        match self {
            SignatureFault::NoSuchWorld => 1,
            SignatureFault::At(_) => 2,
            SignatureFault::TooLarge => 3,
            SignatureFault::NoSuchType => 4,
            SignatureFault::Memory => 5,
        }
    }
}

impl From<AllocError> for SignatureFault {
    ghost from_gives = { λ _ e. e ≡ fault.Memory };

    fn from(_error: AllocError) -> SignatureFault {
        SignatureFault::Memory
    }
}

/// The fault of a world whose types have no table for this reason.
pub fn fault_of_table(fault: TableFault) -> SignatureFault
    ensures { result ≡ spec.fault_of_table fault }
{
    match fault {
        TableFault::NoSuchType | TableFault::Cycle => SignatureFault::NoSuchType,
        TableFault::TooLarge | TableFault::NotSpellable => SignatureFault::TooLarge,
        TableFault::Memory => SignatureFault::Memory,
    }
}

/// The fault of a world a function of which cannot be had for this reason.
pub fn fault_of_meaning(fault: MeaningFault) -> SignatureFault
    ensures { result ≡ spec.fault_of_meaning fault }
{
    match fault {
        MeaningFault::NoSuchType => SignatureFault::NoSuchType,
        MeaningFault::TooLarge | MeaningFault::NotSpellable => SignatureFault::TooLarge,
        MeaningFault::Memory => SignatureFault::Memory,
    }
}
