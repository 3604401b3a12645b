//! What stands under an index of a type.

ghost use Rattle.std.specs.Prelude.{◌≡◌, IfErr, IfOk, Some, map, slice_get};
ghost use Rattle.std.specs.Option.{option_map};
ghost use Rattle.cm_validate_model.specs.Reasons.{index_broken, least};
ghost use Rattle.cm_validate_model.specs.TypeRules.{has_sort};
ghost use Rattle.cm_validate_model.specs.declared.sorts.TypeSort.TheVariants as sort;
ghost use Rattle.cm_validate_types.specs.Entries.{entry_sort};
ghost use Rattle.cm_validate_types.specs.declared.entries.TypeEntry.TheVariants as entry;
ghost use Rattle.cm_validate_entries.specs.Entries.{entry_func, entry_instance};

use cm_types_arena::Placed;
use cm_validate_items::InstanceItems;
use cm_validate_model::ValidReason;
use cm_validate_types::TypeEntry;
use std::rc::Rc;

/// The type of a function that it is, if it is one.
fn as_func(ty: &TypeEntry) -> Option<Placed>
    ensures { result ≡ entry_func ty.now }
{
    match ty {
        TypeEntry::Func(ty) => Some(*ty),
        TypeEntry::Value(_) | TypeEntry::Resource(_) | TypeEntry::Instance(_) => None,
    }
}

/// The type of an instance that it is, if it is one.
fn as_instance(ty: &TypeEntry) -> Option<&Rc<InstanceItems>>
    ensures { option_map (λ i. i.now) result ≡ entry_instance ty.now }
{
    match ty {
        TypeEntry::Instance(items) => Some(items),
        TypeEntry::Value(_) | TypeEntry::Resource(_) | TypeEntry::Func(_) => None,
    }
}

/// The type of a function under an index; or why the index is refused: `NoSuchIndex` where nothing
/// is there, `WrongSort` where another type is.
pub(crate) fn func_at(types: &[TypeEntry], index: u32) -> Result<Placed, ValidReason>
    ensures there { IfOk result (λ p. slice_get types.now index ≡ Some (entry.Func p)) }
    ensures broken { IfErr result (λ r. Some r
        ≡ least (index_broken (has_sort sort.Func) (map entry_sort types.now) index)) }
{
    match types.get(index as usize) {
        None => Err(ValidReason::NoSuchIndex),
        Some(entry) => match as_func(entry) {
            Some(ty) => Ok(ty),
            None => Err(ValidReason::WrongSort),
        },
    }
}

/// The type of an instance under an index; or why the index is refused.
pub(crate) fn instance_at(
    types: &[TypeEntry],
    index: u32,
) -> Result<&Rc<InstanceItems>, ValidReason>
    ensures there { IfOk result (λ i. slice_get types.now index ≡ Some (entry.Instance i.now)) }
    ensures broken { IfErr result (λ r. Some r
        ≡ least (index_broken (has_sort sort.Instance) (map entry_sort types.now) index)) }
{
    match types.get(index as usize) {
        None => Err(ValidReason::NoSuchIndex),
        Some(entry) => match as_instance(entry) {
            Some(items) => Ok(items),
            None => Err(ValidReason::WrongSort),
        },
    }
}
