//! Why values of a host are not passed.

ghost use Rattle.std.specs.Prelude.{◌≡◌};
ghost use Rattle.cm_host_values.specs.Faults.{values_fault_number};

use thiserror::Error;

/// Why values of a host are not lowered.
#[derive(Clone, Copy, Debug, PartialEq, Eq, Error)]
pub enum ValuesFault {
    /// There is not one value of each type.
    #[error("values of other types")]
    WrongTypes = 1,
    /// The strings and lists hold more than 16,777,216 bytes.
    #[error("strings and lists that are too large")]
    TooLarge = 2,
    /// The range of the memory has no room for the strings and lists.
    #[error("no room in the memory of the instance")]
    NoRoom = 3,
    /// There was no memory.
    #[error("no memory")]
    Memory = 4,
}

impl ValuesFault {
    /// The number by which the fault is known, from 1 for `WrongTypes` to 4 for `Memory`.
    pub fn number(self) -> u8
        ensures { result ≡ values_fault_number self }
    {
        self as u8
    }
}
