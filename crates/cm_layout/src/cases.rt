//! Cases, whose payloads stand at one place.

ghost use Rattle.std.specs.Prelude.{◌≡◌, ◌≤◌, ◌<◌, ◌+◌, ◌^◌, max, false};
ghost use Rattle.cm_layout.specs.Alignment.{align_to};

use crate::heads::{Head, align_to};

/// What the payloads of cases take so far: of each the greatest.
#[derive(Clone, Copy)]
pub(crate) struct CasesSoFar {
    pub(crate) size: u32,
    pub(crate) align: u32,
    pub(crate) width: u32,
}

impl CasesSoFar {
    /// What no cases take.
    pub(crate) fn none() -> CasesSoFar
        ensures { result ≡ record { size = 0; align = 1; width = 0 } }
    {
        CasesSoFar {
            size: 0,
            align: 1,
            width: 0,
        }
    }

    /// These and one more.
    pub(crate) fn with(self, payload: Head) -> CasesSoFar
        ensures size { result.size ≡ max self.size payload.size }
        ensures align { result.align ≡ max self.align payload.align }
        ensures width { result.width ≡ max self.width payload.width }
    {
        CasesSoFar {
            size: self.size.max(payload.size),
            align: self.align.max(payload.align),
            width: self.width.max(payload.width),
        }
    }

    /// These and those.
    pub(crate) fn beside(self, others: CasesSoFar) -> CasesSoFar
        ensures size { result.size ≡ max self.size others.size }
        ensures align { result.align ≡ max self.align others.align }
        ensures width { result.width ≡ max self.width others.width }
    {
        CasesSoFar {
            size: self.size.max(others.size),
            align: self.align.max(others.align),
            width: self.width.max(others.width),
        }
    }

    /// Where the payload stands, behind the number of the case.
    pub(crate) fn offset(self, discriminant: u32) -> u32
        requires some { 1 ≤ self.align }
        requires small { self.align ≤ 8 }
        requires disc { discriminant ≤ 4 }
        ensures value { result ≡ align_to self.align discriminant }
        ensures near { result ≤ 11 }
    {
        align_to(self.align, discriminant)
    }

    /// What has these cases, where the number of a case has so many bytes.
    pub(crate) fn whole(self, discriminant: u32) -> Head
        requires some { 1 ≤ self.align }
        requires small { self.align ≤ 8 }
        requires disc { discriminant ≤ 4 }
        requires fits { self.size ≤ 320000 }
        requires narrow { self.width ≤ 20000 }
        ensures size { result.size
            ≡ align_to (max discriminant self.align)
            (align_to self.align discriminant + self.size) }
        ensures near { result.size ≤ self.size + 18 }
        ensures align { result.align ≡ max discriminant self.align }
        ensures width { result.width ≡ 1 + self.width }
        ensures is_bulk { result.is_bulk ≡ false }
    {
        let align = discriminant.max(self.align);
        Head {
            size: align_to(align, self.offset(discriminant) + self.size),
            align,
            width: 1 + self.width,
            is_bulk: false,
        }
    }
}
