//! The least of several reasons.

ghost use Rattle.std.specs.Prelude.{◌≡◌, slice_get};
ghost use Rattle.cm_validate_model.specs.Reasons.{index_broken, least, lesser, unless};
ghost use Rattle.cm_validate_model.specs.TypeRules.{has_sort};

use cm_validate_model::{TypeSort, ValidReason};

/// Of two reasons the one with the smaller number, if there is any.
pub fn lesser(first: Option<ValidReason>, second: Option<ValidReason>) -> Option<ValidReason>
    ensures { result ≡ lesser first second }
{
    match (first, second) {
        (None, other) => other,
        (Some(reason), None) => Some(reason),
        (Some(reason), Some(other)) => {
            if reason.number() <= other.number() {
                Some(reason)
            } else {
                Some(other)
            }
        }
    }
}

/// The reason, where a rule does not hold.
pub fn broken_unless(holds: bool, reason: ValidReason) -> Option<ValidReason>
    ensures { result ≡ least (unless holds reason) }
{
    if holds { None } else { Some(reason) }
}

/// Why an index that has to name a type of a sort is refused: `NoSuchIndex` where it names nothing,
/// `WrongSort` where the type is of another sort.
pub fn index_fault(sorts: &[TypeSort], index: u32, wanted: TypeSort) -> Option<ValidReason>
    ensures { result ≡ least (index_broken (has_sort wanted) sorts.now index) }
{
    match sorts.get(index as usize) {
        None => Some(ValidReason::NoSuchIndex),
        Some(sort) => broken_unless(sort.is(wanted), ValidReason::WrongSort),
    }
}
