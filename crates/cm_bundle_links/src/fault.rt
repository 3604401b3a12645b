//! Why a part of a bundle has no links.

ghost use Rattle.std.specs.Prelude.{◌≡◌};
ghost use Rattle.cm_bundle_links.specs.Reasons.{reason_number};
ghost use Rattle.cm_bundle_links.specs.declared.fault.LinksReason.TheVariants as reasons;

use std::alloc::{AllocError, AllocFailed};
use thiserror::Error;

/// Why what a part of a bundle is given does not stand for exports of the parts before it, by the
/// number of the reason.
#[derive(Clone, Copy, Debug, PartialEq, Eq, Drop, Error)]
pub enum LinksReason {
    /// There is not a component for each part, or there are more than 1,000 parts, which no bundle
    /// has that was read. The part and the argument are 0.
    #[error("not a component for each part")]
    OtherParts = 1,
    /// An import is given nothing, or in its place stands what has another name or sort.
    #[error("nothing is given to an import in its place")]
    NotGiven = 2,
    /// What the bundle imports is given: only the argument of an open bundle can be that.
    #[error("what the bundle imports is given")]
    Imported = 3,
    /// No part before has an export of the name and the sort that the argument says.
    #[error("no part before has such an export")]
    NoExport = 4,
    /// An argument stands behind those of the imports.
    #[error("an argument of no import")]
    NoImport = 5,
    /// There was no memory. Nothing is said of the part and the argument.
    #[error("no memory")]
    Memory = 6,
}

impl LinksReason {
    /// The number by which the reason is known, from 1 for `OtherParts` to 6 for `Memory`.
    pub fn number(self) -> u8
        ensures { result ≡ reason_number self }
    {
        self as u8
    }
}

/// Why, and at which part and argument of it, what a bundle says is no link. Both count from 0; in
/// an open bundle too the part counts from 0.
#[derive(Clone, Copy, Debug, PartialEq, Eq, Drop, Error)]
#[error("{reason} in part {part}, argument {argument}")]
pub struct LinksFault {
    pub part: usize,
    pub argument: usize,
    pub reason: LinksReason,
}

impl LinksFault {
    /// There was no memory.
    fn no_memory() -> LinksFault
        ensures { result.reason ≡ reasons.Memory }
    {
        LinksFault {
            part: 0,
            argument: 0,
            reason: LinksReason::Memory,
        }
    }
}

impl From<AllocError> for LinksFault {
    ghost from_gives = { λ _ f. f.reason ≡ reasons.Memory };

    fn from(_error: AllocError) -> LinksFault {
        LinksFault::no_memory()
    }
}

impl<T: Drop> From<AllocFailed<T>> for LinksFault {
    ghost from_gives = { λ _ f. f.reason ≡ reasons.Memory };

    fn from(_error: AllocFailed<T>) -> LinksFault {
        LinksFault::no_memory()
    }
}
