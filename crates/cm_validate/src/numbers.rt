//! The numbers of what a component imports and exports.

ghost use Rattle.std.specs.Prelude.{IfOk};
ghost use Rattle.cm_validate_items.specs.Shared.{exported_instance_in, import_type_in};
ghost use Rattle.cm_validate.specs.Numbers.{AreNumbers};

use cm_validate_items::Shared;
use std::alloc::{AllocError, Global};

/// The numbers of so many imports, in order: those of one type have one number.
pub(crate) fn import_numbers(
    alloc: Global,
    shared: &Shared,
    count: usize,
) -> Result<Vec<Option<usize>>, AllocError>
    ensures { IfOk result (λ v. AreNumbers (import_type_in shared.now) count v.items) }
{
    let mut numbers = Vec::with_capacity(alloc, count)?;
    for place in 0..count {
        numbers.push(shared.import_type(place))?;
    }
    Ok(numbers)
}

/// The numbers of so many exports, in order: those that are one instance have one number.
pub(crate) fn export_numbers(
    alloc: Global,
    shared: &Shared,
    count: usize,
) -> Result<Vec<Option<usize>>, AllocError>
    ensures { IfOk result (λ v. AreNumbers (exported_instance_in shared.now) count v.items) }
{
    let mut numbers = Vec::with_capacity(alloc, count)?;
    for place in 0..count {
        numbers.push(shared.exported_instance(place))?;
    }
    Ok(numbers)
}
