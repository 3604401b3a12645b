//! What has to be looked at in the values of a type.

ghost use Rattle.std.specs.Prelude.{◌≡◌, IfOk};
ghost use Rattle.cm_abi_programs.specs.Checks.{moved_check};

use crate::places::place_behind;
use cm_layout::{HandleType, Head};
use std::alloc::AllocError;
use std::sync::Arc;

/// Something to look at in a value. Where it stands is counted from where the value begins, in
/// bytes where that stands in memory, and in core values where these pass it.
#[cycle(checks)]
#[derive(Drop)]
pub enum Check {
    /// A char, which has to be a Unicode scalar.
    Char {
        at: u32,
    },
    /// A number of so many bytes, which has to be below a count.
    Below {
        at: u32,
        bytes: u32,
        count: usize,
    },
    /// A string.
    Text {
        at: u32,
    },
    /// A list: what an element takes, and the checks of each.
    List {
        at: u32,
        element: Head,
        checks: Arc<Vec<Check>>,
    },
    /// So many values in a row, so far one behind the other, and the checks of each.
    Each {
        at: u32,
        distance: u32,
        count: u32,
        checks: Arc<Vec<Check>>,
    },
    /// The number of a case, of so many bytes. What the case carries stands so far behind it, and
    /// these are the checks of what each case carries.
    Cases {
        at: u32,
        bytes: u32,
        offset: u32,
        cases: Arc<Vec<CaseChecks>>,
    },
    /// A handle.
    Handle {
        at: u32,
        wanted: HandleType,
    },
    /// A value with checks of its own.
    Part {
        at: u32,
        checks: Arc<Vec<Check>>,
    },
}

/// What has to be looked at in what a case carries; nothing where it carries nothing.
#[cycle(checks)]
#[derive(Drop)]
pub struct CaseChecks {
    pub checks: Arc<Vec<Check>>,
}

impl Check {
    ghost use Rattle.cm_abi_programs.specs.Coded.{check_of};

    /// The same check of a value that begins so far behind. `AllocError` comes where what is below
    /// it is shared too often to be counted, or where its place would take more than 32 bits, which
    /// none of a layout does.
    pub fn moved(&self, by: u32) -> Result<Check, AllocError>
        ensures { IfOk result (λ c. check_of c ≡ moved_check by (check_of self.now)) }
    {
        Ok(match self {
            Check::Char { at } => Check::Char {
                at: place_behind(by, *at)?,
            },
            Check::Below { at, bytes, count } => Check::Below {
                at: place_behind(by, *at)?,
                bytes: *bytes,
                count: *count,
            },
            Check::Text { at } => Check::Text {
                at: place_behind(by, *at)?,
            },
            Check::List {
                at,
                element,
                checks,
            } => Check::List {
                at: place_behind(by, *at)?,
                element: *element,
                checks: checks.clone()?,
            },
            Check::Each {
                at,
                distance,
                count,
                checks,
            } => Check::Each {
                at: place_behind(by, *at)?,
                distance: *distance,
                count: *count,
                checks: checks.clone()?,
            },
            Check::Cases {
                at,
                bytes,
                offset,
                cases,
            } => Check::Cases {
                at: place_behind(by, *at)?,
                bytes: *bytes,
                offset: *offset,
                cases: cases.clone()?,
            },
            Check::Handle { at, wanted } => Check::Handle {
                at: place_behind(by, *at)?,
                wanted: *wanted,
            },
            Check::Part { at, checks } => Check::Part {
                at: place_behind(by, *at)?,
                checks: checks.clone()?,
            },
        })
    }
}
