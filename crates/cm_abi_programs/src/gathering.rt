//! Lists at places.

ghost use Rattle.std.specs.Prelude.{◌≡◌, ◌<◌, IfOk, length, map};
ghost use Rattle.std.specs.List.{AllByRecursion};
ghost use Rattle.cm_abi_programs.specs.Held.{items_at, items_of};

use std::alloc::{AllocError, Global};
use std::sync::Arc;

/// The lists at these places, in order, each shared. `AllocError` comes where there is no memory
/// for that.
pub(crate) fn gather<T: Drop>(
    alloc: Global,
    lists: &[Arc<Vec<T>>],
    places: &[usize],
) -> Result<Vec<Arc<Vec<T>>>, AllocError>
    requires { AllByRecursion (λ p. p < length lists.now) places.now }
    ensures { IfOk result (λ held.
        items_of held.items ≡ map (items_at (items_of lists.now)) places.now) }
{
    let mut held = Vec::with_capacity(alloc, places.len())?;
    for place in places {
        held.push(lists[*place].clone()?)?;
    }
    Ok(held)
}
