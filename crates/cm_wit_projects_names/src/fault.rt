//! Where a name is at fault.

use cm_wit_tokens::WitReason;
use std::alloc::{AllocError, AllocFailed};

/// What is wrong in a project, and where: in the file of a unit, by its number, at a name of an
/// item or at a token. Where memory was refused the place says nothing.
#[derive(Clone, Copy, PartialEq, Eq)]
pub struct Spot {
    pub unit: usize,
    /// How many bytes of the text are left from the first token of the item on.
    pub left: usize,
    /// Which name from there on is meant, from 0; none where that token itself is.
    pub name: Option<usize>,
    pub reason: WitReason,
}

impl Spot {
    /// Memory was refused.
    pub const MEMORY: Spot = Spot {
        unit: 0,
        left: 0,
        name: None,
        reason: WitReason::Memory,
    };
}

impl From<AllocError> for Spot {
    ghost use Rattle.std.specs.Prelude.{◌≡◌};
    ghost use Rattle.cm_wit_tokens.specs.declared.fault.WitReason.TheVariants as reason;

    ghost from_gives = { λ _ e. e.reason ≡ reason.Memory };

    fn from(_error: AllocError) -> Spot {
        Spot::MEMORY
    }
}

impl<T: Drop> From<AllocFailed<T>> for Spot {
    ghost use Rattle.std.specs.Prelude.{◌≡◌};
    ghost use Rattle.cm_wit_tokens.specs.declared.fault.WitReason.TheVariants as reason;

    ghost from_gives = { λ _ e. e.reason ≡ reason.Memory };

    fn from(_error: AllocFailed<T>) -> Spot {
        Spot::MEMORY
    }
}
