//! Why a set of components can't be linked.

ghost use Rattle.std.specs.Prelude.{◌≡◌};
ghost use Rattle.cm_match_model.specs.Reasons.{reason_name, reason_number};

use std::error::Error;
use std::fmt;

/// Why a set of components can't be linked.
#[derive(Clone, Copy, PartialEq, Eq)]
pub enum LinkReason {
    /// There is no component.
    Empty = 1,
    /// There are more than 16 components.
    TooMany = 2,
    /// No component before exports what is imported.
    NoProvider = 3,
    /// More than one export of the components before has the name.
    TwoProviders = 4,
    /// An item of an imported instance that the exported one does not have.
    MissingExport = 5,
    /// What is exported is of another type than what is imported.
    DifferentType = 6,
    /// A resource that is another one than the import says.
    DifferentResource = 7,
    /// There was no memory.
    Memory = 8,
}

impl LinkReason {
    /// The number by which the reason is known, from 1 for `Empty` to 8 for `Memory`.
    pub fn number(self) -> u8
        ensures { result ≡ reason_number self }
    {
        self as u8
    }

    /// The word by which the reason is known, as `NoProvider`.
    pub fn name(self) -> &'static str
        ensures { result.now ≡ reason_name self }
    {
        match self {
            LinkReason::Empty => "Empty",
            LinkReason::TooMany => "TooMany",
            LinkReason::NoProvider => "NoProvider",
            LinkReason::TwoProviders => "TwoProviders",
            LinkReason::MissingExport => "MissingExport",
            LinkReason::DifferentType => "DifferentType",
            LinkReason::DifferentResource => "DifferentResource",
            LinkReason::Memory => "Memory",
        }
    }

    /// What the reason means.
    fn text(self) -> &'static str {
        match self {
            LinkReason::Empty | LinkReason::TooMany => "expected 1 to 16 components",
            LinkReason::NoProvider => "no component before it exports this name",
            LinkReason::TwoProviders => "more than one component before it exports this name",
            LinkReason::MissingExport => "the exported instance lacks an item of the imported one",
            LinkReason::DifferentType => "its type is not that of the export",
            LinkReason::DifferentResource => "a resource of it is not that of the export",
            LinkReason::Memory => "there was no memory",
        }
    }
}

impl fmt::Debug for LinkReason {
    fn fmt<W: fmt::Write>(&self, f: &mut fmt::Formatter<W>) -> fmt::Result {
        write!(f, "{}", self.name())
    }
}

impl fmt::Display for LinkReason {
    fn fmt<W: fmt::Write>(&self, f: &mut fmt::Formatter<W>) -> fmt::Result {
        write!(f, "{}", self.text())
    }
}

impl Error for LinkReason {}

/// Why and at which import a set of components can't be linked. It is shown as
/// `NoProvider in component 1, import 0:` and what the reason means.
#[derive(Clone, Copy, Debug, PartialEq, Eq, thiserror::Error)]
#[error("{} in component {component}, import {import}: {reason}", .reason.name())]
pub struct LinkFault {
    /// The place of the component in the set, from 0; 0 where the fault is the set's.
    pub component: usize,
    /// The number of the import, from 0; 0 where the fault is the set's.
    pub import: usize,
    pub reason: LinkReason,
}
