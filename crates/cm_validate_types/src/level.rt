//! One index space of types.

ghost use Rattle.std.specs.Prelude.{◌≡◌, map};
ghost use Rattle.cm_validate_types.specs.Entries.{entry_sort};

use crate::entries::TypeEntry;
use cm_types_arena::{Move, Placed};
use cm_validate_model::TypeSort;
use std::alloc::{AllocError, Global};

/// An index space of types: what each index stands for, and its sort beside it.
#[derive(Drop)]
pub(crate) struct Level {
    pub(crate) entries: Vec<TypeEntry>,
    pub(crate) sorts: Vec<TypeSort>,
    ghost sorted: { sorts.items ≡ map entry_sort entries.items },
}

impl Level {
    ghost use Rattle.std.specs.Prelude.{◌++◌, ◌∷◌, [], IfNone, IfSome, OnOk, OnErr, Some, true};
    ghost use Rattle.std.specs.Prelude.{slice_get, slice_set};
    ghost use Rattle.std.specs.Option.{option_map};
    ghost use Rattle.cm_validate_types.specs.declared.entries.TypeEntry.TheVariants as entry;
    ghost use Rattle.cm_validate_types.specs.Uses.{is_entry_unmoved};
    ghost use Rattle.cm_validate_model.specs.declared.sorts.TypeSort.TheVariants as sort;

    pub(crate) fn new(alloc: Global) -> Level
        ensures { result.entries.items ≡ [] }
    {
        Level {
            entries: Vec::new(alloc),
            sorts: Vec::new(alloc),
        }
    }

    /// Adds an entry behind the others. `AllocError` comes where there is no memory for it; the
    /// others then stay as they are.
    pub(crate) fn push(&mut self, entry: TypeEntry) -> Result<(), AllocError>
        ensures pushed { OnOk result
            (self.new.entries.items ≡ self.old.entries.items ++ entry ∷ []) }
        ensures kept { OnErr result (self.new.entries.items ≡ self.old.entries.items) }
    {
        let sort = entry.sort();
        self.sorts.reserve(1)?;
        self.entries.push(entry)?;
        match self.sorts.push(sort) {
            Ok(()) => Ok(()),
            // Room was reserved.
            Err(_) => unreachable!(),
        }
    }

    /// The place and the move of the value type under an index, where one stands there that is
    /// moved.
    pub(crate) fn moved_value(&self, index: usize) -> Option<(usize, Move)>
        ensures moved { IfSome result (λ m. slice_get self.now.entries.items index
            ≡ Some (entry.Value (record { place = m.0; by = Some m.1 }))) }
        ensures unmoved { IfNone result
            (is_entry_unmoved (slice_get self.now.entries.items index) ≡ true) }
    {
        match self.entries.get(index) {
            Some(
                TypeEntry::Value(
                    Placed {
                        place,
                        by: Some(by),
                    },
                ),
            ) => Some((*place, *by)),
            _ => None,
        }
    }

    /// Puts a value type in place of another.
    pub(crate) fn put_value(&mut self, index: usize, placed: Placed)
        requires { option_map entry_sort (slice_get self.old.entries.items index)
            ≡ Some sort.Value }
        ensures { self.new.entries.items
            ≡ slice_set self.old.entries.items index (entry.Value placed) }
    {
        self.entries[index] = TypeEntry::Value(placed);
    }
}
