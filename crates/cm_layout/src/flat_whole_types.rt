//! The core values that a value of a whole type is passed as.

ghost use Rattle.std.specs.Prelude.{◌≡◌, IfOk};
ghost use Rattle.cm_types.specs.Funcs.{tree_type};
ghost use Rattle.cm_layout.specs.Flattening.{JoinsSlots, flat_of};

use crate::flattening::join_flat;
use cm_types::{CoreKind, TypeTree};
use std::alloc::{AllocError, Global};

/// The kinds of the core values that a value of the type is passed as, in order (CanonicalABI.md,
/// "Flattening"). `AllocError` comes where there is no memory for the list.
pub fn flatten(alloc: Global, ty: &TypeTree) -> Result<Vec<CoreKind>, AllocError>
    ensures value { IfOk result (λ kinds. kinds.items ≡ flat_of (tree_type ty.now)) }
    ensures slots { IfOk result (λ kinds. JoinsSlots (tree_type ty.now) kinds.items) }
{
    let mut kinds = Vec::new(alloc);
    join_flat(&mut kinds, 0, &ty.root)?;
    Ok(kinds)
}
