//! Why bytes spell no number, and why a number is not written.

use thiserror::Error;

/// What is wrong with the bytes of a number (the core specification, "Integers").
#[derive(Clone, Copy, Debug, PartialEq, Eq, Error)]
pub enum LebFault {
    /// The bytes end before the number does.
    #[error("the bytes end before the number does")]
    Truncated = 1,
    /// The fifth byte says that another one follows.
    #[error("a number of more than five bytes")]
    TooLong,
    /// The number's bits go past its type.
    #[error("a number that is too large for its type")]
    BadLastBits,
}

impl LebFault {
    ghost use Rattle.std.specs.Prelude.{◌≡◌};
    ghost use Rattle.cm_leb.specs.Numbers.{fault_number};

    /// The number by which the fault is known, from 1 for `Truncated` to 3 for `BadLastBits`.
    pub fn number(self) -> u8
        ensures { result ≡ fault_number self }
    {
        self as u8
    }
}

/// Why a number with a sign is not written.
#[derive(Clone, Copy, Debug, PartialEq, Eq, Drop, Error)]
pub enum SignedFault {
    /// The number has more than 33 bits.
    #[error("a number of more than 33 bits")]
    TooLarge = 1,
    /// There was no memory for its bytes.
    #[error("out of memory")]
    Memory,
}

impl SignedFault {
    ghost use Rattle.std.specs.Prelude.{◌≡◌};
    ghost use Rattle.cm_leb.specs.NumbersWritten.{signed_fault_number};

    /// The number by which the fault is known: 1 for `TooLarge`, 2 for `Memory`.
    pub fn number(self) -> u8
        ensures { result ≡ signed_fault_number self }
    {
        self as u8
    }
}
