//! What of that which shims want does not hold.

use thiserror::Error;

/// Why what a shim wants does not hold, by the number of the reason.
#[derive(Clone, Copy, Debug, PartialEq, Eq, Error)]
pub enum FitReason {
    /// A function has another type than the shim says.
    #[error("the function has another type than the shim says")]
    OtherFunc,
    /// A type is another one than the shim says.
    #[error("the type is another one than the shim says")]
    OtherType,
    /// A type is no resource type.
    #[error("the type is no resource type")]
    NoResource,
    /// Memory was refused.
    #[error("memory was refused")]
    Memory,
}

impl FitReason {
    ghost use Rattle.std.specs.Prelude.{◌≡◌};
    ghost use Rattle.cm_shims.specs.Reasons.{fit_reason_number};

    /// The number by which the reason is known, from 1 for `OtherFunc` to 4 for `Memory`.
    pub fn number(self) -> u8
        ensures { result ≡ fit_reason_number self }
    {
        match self {
            FitReason::OtherFunc => 1,
            FitReason::OtherType => 2,
            FitReason::NoResource => 3,
            FitReason::Memory => 4,
        }
    }
}

/// Which want does not hold, and how. It is shown as `OtherFunc at want 0:` and what the reason
/// means.
#[derive(Clone, Copy, Debug, PartialEq, Eq, Error)]
#[error("{reason:?} at want {want}: {reason}")]
pub struct FitFault {
    /// The want, from 0.
    pub want: usize,
    pub reason: FitReason,
}
