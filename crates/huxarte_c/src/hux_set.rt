//! A set that runs, or none, as C holds it.

ghost use Rattle.std.specs.Prelude.{◌≡◌, None, Option, Some, is_some};
ghost use Rattle.std.specs.Coded.{coded_option};
ghost use Rattle.std.specs.Option.{option_map};
ghost use Rattle.huxarte_c.specs.PlayedSets.{PlayedSet};
ghost use Rattle.huxarte_c.specs.contracts.kept_set.KeptSet.{the_row as set_row};

use crate::kept_set::KeptSet;
use huxarte_c_boxes::Kept;
use std::alloc::Global;
use std::marker::Model;
use std::mem::replace;

/// A set of linked components that runs, or none. All zeros, as `HUX_SET_NONE`, it keeps none.
///
/// What `at` leads to is the library's: nobody else reads or writes it. The struct may be moved,
/// and not be used as a copy: of two with the same `at` one is dead. A set takes one call at a
/// time, by the thread that made it. Each set is freed by `hux_set_free`, which leaves
/// `HUX_SET_NONE`.
#[repr(C)]
pub struct HuxSet {
    at: *mut u8,
    pub ghost kept: { Option PlayedSet } by { coded_option set_row.coded },
}

impl Model for HuxSet {
    ghost use Rattle.huxarte_c_boxes.specs.Keeping.{keeps};
    ghost use Rattle.huxarte_c.specs.contracts.kept_set.KeptSet.{the_row as set_row};

    ghost also_owns = { λ h. keeps set_row h.at h.kept };
}

impl HuxSet {
    /// What is kept, as C holds it.
    fn of(kept: Kept<KeptSet>) -> HuxSet
        ensures { result.kept ≡ kept.value }
    {
        let Kept { at } = kept;
        HuxSet { at: at as *mut u8 }
    }

    /// What C holds.
    fn into_kept(self) -> Kept<KeptSet>
        ensures { result.value ≡ self.kept }
    {
        let HuxSet { at } = self;
        Kept {
            at: at as *mut KeptSet,
        }
    }

    /// Takes the set out, where there is one; none is left.
    pub fn take(&mut self, alloc: Global) -> Option<Box<KeptSet>>
        ensures taken { option_map (λ b. b.value) result ≡ self.old.kept }
        ensures left { self.new.kept ≡ None }
    {
        replace(self, HuxSet::of(Kept::none()))
            .into_kept()
            .into_box(alloc)
    }

    /// Puts a set in; one that was there is dropped.
    pub fn put(&mut self, alloc: Global, set: Box<KeptSet>)
        ensures { self.new.kept ≡ Some set.value }
    {
        let old = replace(self, HuxSet::of(Kept::of(set)));
        drop(old.into_kept().into_box(alloc));
    }

    /// Frees the set, where there is one.
    pub fn free(&mut self, alloc: Global)
        ensures { self.new.kept ≡ None }
    {
        drop(self.take(alloc));
    }

    /// Whether a set is kept, which stays.
    pub(crate) fn is_full(&mut self, alloc: Global) -> bool
        ensures full { result ≡ is_some self.old.kept }
        ensures stays { self.new.kept ≡ self.old.kept }
    {
        match self.take(alloc) {
            Some(set) => {
                self.put(alloc, set);
                true
            }
            None => false,
        }
    }
}
