//! What holds of core signatures, as laws: each function here does nothing, and its contract is the
//! law.

ghost use Rattle.std.specs.Prelude.{◌≡◌};

use cm_types::{MAX_FLAT_PARAMS, MAX_FLAT_RESULTS};

/// At most 16 core values pass the parameters of a function, and at most 1 its result
/// (CanonicalABI.md, "Flattening").
pub fn limits_of_flat_functions()
    ensures params { MAX_FLAT_PARAMS ≡ 16 }
    ensures results { MAX_FLAT_RESULTS ≡ 1 }
{}
