//! Where and why a signature does not fit a world.

ghost use Rattle.std.specs.Prelude.{◌≡◌};
ghost use Rattle.cm_wit_conforms.specs.Faults.{conform_reason_number};

use std::alloc::AllocError;
use std::fmt;
use thiserror::Error;

/// Which imports or exports are gone through.
#[derive(Clone, Copy, Debug, PartialEq, Eq)]
pub enum ConformList {
    /// The world's exports, each looked for in the signature.
    WorldExports,
    /// The signature's imports, each looked for in the world.
    HaveImports,
}

impl fmt::Display for ConformList {
    fn fmt<W: fmt::Write>(&self, f: &mut fmt::Formatter<W>) -> fmt::Result {
        f.write_str(match self {
            ConformList::WorldExports => "the world's export",
            ConformList::HaveImports => "the component's import",
        })
    }
}

/// An import or an export, or an item of one that is an instance. It is shown as
/// `the world's export 2`, and an item of one as `the world's export 2, item 0`.
#[derive(Clone, Copy, Debug, PartialEq, Eq)]
pub struct ConformItem {
    pub list: ConformList,
    /// The place in the list, from 0.
    pub place: usize,
    /// Of an item of an instance, its place there, from 0.
    pub item: Option<usize>,
}

impl fmt::Display for ConformItem {
    fn fmt<W: fmt::Write>(&self, f: &mut fmt::Formatter<W>) -> fmt::Result {
        let ConformItem { list, place, item } = self;
        match item {
            Some(number) => write!(f, "{list} {place}, item {number}"),
            None => write!(f, "{list} {place}"),
        }
    }
}

/// Why a signature does not fit a world.
#[derive(Clone, Copy, Debug, PartialEq, Eq, Error)]
pub enum ConformReason {
    /// The signature lacks an export of the world, or an item of one.
    #[error("the world's export is missing")]
    Missing = 1,
    /// The world lacks an import of the signature, or an item of one.
    #[error("the import is not in the world")]
    NotInWorld = 2,
    /// What has one name is of two types, or of two sorts.
    #[error("a different type than the world's")]
    DifferentType = 3,
    /// There was no memory.
    #[error("no memory")]
    Memory = 4,
}

impl ConformReason {
    /// The number by which the reason is known, from 1 for `Missing` to 4 for `Memory`.
    pub fn number(self) -> u8
        ensures { result ≡ conform_reason_number self }
    {
        self as u8
    }

    /// The word by which the reason is known, as `NotInWorld`.
    fn name(self) -> &'static str {
        match self {
            ConformReason::Missing => "Missing",
            ConformReason::NotInWorld => "NotInWorld",
            ConformReason::DifferentType => "DifferentType",
            ConformReason::Memory => "Memory",
        }
    }
}

/// Where and why a signature does not fit a world. It is shown as
/// `NotInWorld in the component's import 0: the import is not in the world`.
#[derive(Clone, Copy, Debug, PartialEq, Eq)]
pub struct ConformFault {
    /// What does not fit. With `Memory` it says nothing.
    pub item: ConformItem,
    pub reason: ConformReason,
}

impl fmt::Display for ConformFault {
    fn fmt<W: fmt::Write>(&self, f: &mut fmt::Formatter<W>) -> fmt::Result {
        let ConformFault { item, reason } = self;
        let name = reason.name();
        match reason {
            ConformReason::Memory => write!(f, "{name}: {reason}"),
            _ => write!(f, "{name} in {item}: {reason}"),
        }
    }
}

impl std::error::Error for ConformFault {}

impl From<AllocError> for ConformFault {
    ghost use Rattle.std.specs.Prelude.{◌≡◌};
    ghost use Rattle.cm_wit_conforms.specs.declared.fault.ConformReason.TheVariants as reason;

    ghost from_gives = { λ _ e. e.reason ≡ reason.Memory };

    fn from(_error: AllocError) -> ConformFault {
        ConformFault {
            item: ConformItem {
                list: ConformList::WorldExports,
                place: 0,
                item: None,
            },
            reason: ConformReason::Memory,
        }
    }
}
