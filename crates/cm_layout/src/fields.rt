//! Fields, one behind the other.

ghost use Rattle.std.specs.Prelude.{◌≡◌, ◌≤◌, ◌<◌, ◌+◌, ◌^◌, ◌==◌, ◌&&◌, max, true};
ghost use Rattle.cm_layout.specs.Alignment.{align_to};

use crate::heads::{Head, align_to};

/// What fields take so far.
#[derive(Clone, Copy)]
pub(crate) struct FieldsSoFar {
    /// Where the last one ends, in bytes.
    pub(crate) end: u32,
    /// The greatest alignment, in bytes.
    pub(crate) align: u32,
    /// How many core values pass them.
    pub(crate) width: u32,
    /// Whether each is plain bytes, and stands where the one before it ends.
    pub(crate) is_bulk: bool,
}

impl FieldsSoFar {
    /// What no fields take.
    pub(crate) fn none() -> FieldsSoFar
        ensures { result ≡ record { end = 0; align = 1; width = 0; is_bulk = true } }
    {
        FieldsSoFar {
            end: 0,
            align: 1,
            width: 0,
            is_bulk: true,
        }
    }

    /// Puts one more behind these, and answers where it stands.
    pub(crate) fn push(&mut self, field: Head) -> u32
        requires some { 1 ≤ field.align }
        requires fits { self.old.end + field.align + field.size < 2 ^ 32 }
        requires narrow { self.old.width + field.width < 2 ^ 32 }
        ensures place { result ≡ align_to field.align self.old.end }
        ensures near { result + 1 ≤ self.old.end + field.align }
        ensures end { self.new.end ≡ align_to field.align self.old.end + field.size }
        ensures align { self.new.align ≡ max self.old.align field.align }
        ensures width { self.new.width ≡ self.old.width + field.width }
        ensures is_bulk { self.new.is_bulk
            ≡ (self.old.is_bulk
            && (field.is_bulk && (align_to field.align self.old.end == self.old.end))) }
    {
        let place = align_to(field.align, self.end);
        let is_bulk = self.is_bulk && field.is_bulk && place == self.end;
        *self = FieldsSoFar {
            end: place + field.size,
            align: self.align.max(field.align),
            width: self.width + field.width,
            is_bulk,
        };
        place
    }

    /// The record or tuple of them.
    pub(crate) fn whole(self) -> Head
        requires some { 1 ≤ self.align }
        requires fits { self.end + self.align < 2 ^ 32 }
        ensures size { result.size ≡ align_to self.align self.end }
        ensures near { result.size + 1 ≤ self.end + self.align }
        ensures align { result.align ≡ self.align }
        ensures width { result.width ≡ self.width }
        ensures is_bulk { result.is_bulk
            ≡ (self.is_bulk && (align_to self.align self.end == self.end)) }
    {
        let size = align_to(self.align, self.end);
        Head {
            size,
            align: self.align,
            width: self.width,
            is_bulk: self.is_bulk && size == self.end,
        }
    }
}
