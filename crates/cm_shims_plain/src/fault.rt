//! Why bytes are not read as a plain component.

use cm_binary_forms::DecodeFault;
use cm_binary_model::LimitFault;
use thiserror::Error;

/// Why an item of a file with shims is refused, by the number of the reason.
#[derive(Clone, Copy, Debug, PartialEq, Eq, Error)]
pub enum ShimReason {
    /// An instance of a component, where no shim before it has this index.
    #[error("no shim has this index")]
    NoSuchShim,
    /// A shim imports what its instance is not given: an argument of this sort and name.
    #[error("an import of the shim is not given")]
    MissingArgument,
    /// A type with an index that no type has: of a shim, or of the file where it is an argument or
    /// an import that is equal to it.
    #[error("no type has this index")]
    NoSuchType,
    /// A function that a shim exports by an index that none of its functions has.
    #[error("no function of the shim has this index")]
    NoSuchFunc,
    /// A shim defines a resource type or the type of an instance.
    #[error("the shim defines a type of another kind")]
    OtherType,
    /// The shims of the instances so far take more than 16,777,216 bytes, each counted once an
    /// instance.
    #[error("more than 16777216 bytes of shims")]
    TooLong,
    /// A shim imports, or an instance is given, a sort and a name that stood before.
    #[error("a name stands twice")]
    NameTwice,
}

impl ShimReason {
    ghost use Rattle.std.specs.Prelude.{◌≡◌};
    ghost use Rattle.cm_shims_plain.specs.Reasons.{shim_reason_number};

    /// The number by which the reason is known, from 1 for `NoSuchShim` to 7 for `NameTwice`.
    pub fn number(self) -> u8
        ensures { result ≡ shim_reason_number self }
    {
        match self {
            ShimReason::NoSuchShim => 1,
            ShimReason::MissingArgument => 2,
            ShimReason::NoSuchType => 3,
            ShimReason::NoSuchFunc => 4,
            ShimReason::OtherType => 5,
            ShimReason::TooLong => 6,
            ShimReason::NameTwice => 7,
        }
    }
}

/// Why an item of a section is refused, and which: from 0.
#[derive(Clone, Copy, Debug, PartialEq, Eq)]
pub(crate) struct ItemFault {
    pub(crate) item: usize,
    pub(crate) reason: ShimReason,
}

/// Why and where a file with shims stands for no plain component. It is shown as `NoSuchShim in
/// section 3, item 0:` and what the reason means.
#[derive(Clone, Copy, Debug, PartialEq, Eq, Error)]
#[error("{reason:?} in section {section}, item {item}: {reason}")]
pub struct PlainFault {
    /// The section of the file, from 0, custom sections and shims counted.
    pub section: usize,
    /// The item in the section, from 0; of a shim the import, all of its imports counted.
    pub item: usize,
    pub reason: ShimReason,
}

/// Why bytes are not read as a plain component.
#[derive(Clone, Copy, Debug, PartialEq, Eq, Error)]
pub enum ShimFault {
    /// They are no component file that may have shims; or memory was refused, with the reason
    /// `Memory`.
    #[error("{0}")]
    Decode(DecodeFault),
    /// An item of the file is refused.
    #[error("{0}")]
    Plain(PlainFault),
    /// The plain component does not keep the limits of files.
    #[error("{0}")]
    Limit(LimitFault),
}
