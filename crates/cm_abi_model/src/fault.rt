//! Why a value is not lifted or lowered.

ghost use Rattle.std.specs.Prelude.{◌≡◌};
ghost use Rattle.cm_abi_model.specs.Faults.{abi_fault_number};

use thiserror::Error;

/// Why a value is not lifted or lowered (CanonicalABI.md, "Loading", "Flattening" and "Storing").
/// Each is known by the number of the trap that it leads to.
#[derive(Clone, Copy, Debug, PartialEq, Eq, Error)]
pub enum AbiFault {
    /// A pointer, with what it points to, passes the end of the memory.
    #[error("a pointer past the end of the memory")]
    PointerBounds,
    /// A pointer is not a multiple of its alignment.
    #[error("a pointer that is not aligned")]
    Misaligned,
    /// A number that is no Unicode scalar stands for a char.
    #[error("a char that is no Unicode scalar")]
    BadChar,
    /// The number of a case is not below the number of cases.
    #[error("a case past the last one")]
    BadCase,
    /// The bytes of a string are no text of its encoding.
    #[error("a string that is no text of its encoding")]
    BadText,
    /// The strings and lists hold more bytes than are left.
    #[error("strings and lists that are too large")]
    TooLarge,
    /// No handle stands at an index.
    #[error("no handle at the index")]
    NoHandle,
    /// The handle at an index is of another resource.
    #[error("a handle of another resource")]
    WrongResource,
    /// The handle is lent to a call that has not returned.
    #[error("a handle that is still lent")]
    StillLent,
    /// The handle is borrowed, and an owned one was wanted.
    #[error("a handle that is not owned")]
    NotOwned,
    /// The handle table is full.
    #[error("a handle table that is full")]
    TableFull,
    /// Two regions that the allocator answered overlap.
    #[error("regions that overlap")]
    Overlap,
    /// There was no memory for the adapter itself.
    #[error("no memory for the adapter")]
    EngineMemory,
}

impl AbiFault {
    /// The number of the trap that the fault leads to: 4 for `PointerBounds` to 14 for `TableFull`
    /// in order, 17 for `Overlap` and 20 for `EngineMemory`.
    pub fn number(self) -> u8
        ensures { result ≡ abi_fault_number self }
    {
        match self {
            AbiFault::PointerBounds => 4,
            AbiFault::Misaligned => 5,
            AbiFault::BadChar => 6,
            AbiFault::BadCase => 7,
            AbiFault::BadText => 8,
            AbiFault::TooLarge => 9,
            AbiFault::NoHandle => 10,
            AbiFault::WrongResource => 11,
            AbiFault::StillLent => 12,
            AbiFault::NotOwned => 13,
            AbiFault::TableFull => 14,
            AbiFault::Overlap => 17,
            AbiFault::EngineMemory => 20,
        }
    }
}
