//! Which way values go.

ghost use Rattle.std.specs.Prelude.{◌≡◌};
ghost use Rattle.cm_abi_model.specs.Views.{flat_limit};
ghost use Rattle.cm_abi_model.specs.Ways.{way_of};

use cm_types::{MAX_FLAT_PARAMS, MAX_FLAT_RESULTS};

/// Which way the values of a call go.
#[derive(Clone, Copy, Debug, PartialEq, Eq)]
pub enum Way {
    /// To the callee, as its parameters.
    Params,
    /// Back to the caller, as its results.
    Results,
}

impl Way {
    /// How many core values are passed flat that way, at most (CanonicalABI.md,
    /// `MAX_FLAT_PARAMS` and `MAX_FLAT_RESULTS`).
    pub fn flat_limit(self) -> usize
        ensures { result ≡ flat_limit (way_of self) }
    {
        match self {
            Way::Params => MAX_FLAT_PARAMS,
            Way::Results => MAX_FLAT_RESULTS,
        }
    }
}
