//! A box, or none, as one pointer.

ghost use Rattle.std.specs.Prelude.{◌≡◌, None, Option, Some};
ghost use Rattle.std.specs.Option.{option_map};

use crate::loose::Loose;
use std::alloc::Global;
use std::marker::Model;
use std::ptr::null_mut;

/// A box of the C heap as its pointer, or null where there is none.
///
/// It frees nothing when it is let go: `into_box` gives the box back.
pub struct Kept<T> {
    pub at: *mut T,
    pub ghost value: { Option T },
}

impl<T> Model for Kept<T> {
    ghost use Rattle.huxarte_c_boxes.specs.Keeping.{keeps};

    ghost also_owns = { λ k. keeps T.row k.at k.value };
}

impl<T> Kept<T> {
    /// Nothing, as null.
    pub fn none() -> Kept<T>
        ensures { result.value ≡ None }
    {
        Kept { at: null_mut() }
    }

    /// A box that was taken apart, as its pointer.
    pub(crate) fn of_loose(loose: Loose<T, Global>) -> Kept<T>
        ensures { result.value ≡ Some loose.value }
    {
        let Loose { at, alloc: _ } = loose;
        Kept { at }
    }

    /// The pointer and the allocator of a box, where there is one.
    pub(crate) fn into_loose(self, alloc: Global) -> Option<Loose<T, Global>>
        ensures { option_map (λ l. l.value) result ≡ self.value }
    {
        let Kept { at } = self;
        if at.is_null() {
            None
        } else {
            Some(Loose { at, alloc })
        }
    }
}

impl<T: Drop> Kept<T> {
    /// A box, as its pointer.
    pub fn of(value: Box<T>) -> Kept<T>
        ensures { result.value ≡ Some value.value }
    {
        Kept::of_loose(Loose::of(value))
    }

    /// The box again, where there is one.
    pub fn into_box(self, alloc: Global) -> Option<Box<T>>
        ensures { option_map (λ b. b.value) result ≡ self.value }
    {
        match self.into_loose(alloc) {
            Some(loose) => Some(loose.into_box()),
            None => None,
        }
    }
}
