//! Why bytes are no bundle.

use std::error::Error;
use std::fmt;

/// Why bytes are no bundle, by the number of the reason. At which byte the fault then is:
/// [`BundleFault`].
#[derive(Clone, Copy, Debug, PartialEq, Eq)]
pub enum BundleReason {
    /// The file does not begin with the preamble of a component: the first differing byte.
    BadPreamble,
    /// The input ends before the bundle does: the input's length.
    Truncated,
    /// A number that is too large, or not spelled as shortly as it can be: its first byte.
    BadNumber,
    /// Another number than the one that belongs there: its first byte.
    OtherNumber,
    /// The contents of a section are not as long as it says: their first byte.
    SizeMismatch,
    /// A byte without a meaning at its place: that byte.
    UnknownCode,
    /// The index of an instance that is no earlier part: its first byte.
    NoSuchPart,
    /// A name that is not UTF-8: its first byte.
    BadUtf8,
    /// More than 1,000 parts, or groups of imports: the byte behind the first one over, also where
    /// that byte is missing.
    TooManyParts,
    /// Bytes behind the exports: the first one.
    Surplus,
    /// 4,294,967,296 bytes and more: 4,294,967,295.
    TooLong,
    /// There was no memory. Nothing is said of the place.
    Memory,
    /// A section in front of the parts that is not one of imports of functions and instances, or of
    /// aliases of types, where it has to be: the first byte of its size.
    BadFront,
}

impl BundleReason {
    ghost use Rattle.std.specs.Prelude.{◌≡◌};
    ghost use Rattle.cm_bundle.specs.Reasons.{reason_number};

    /// The number by which the reason is known, from 1 for `BadPreamble` to 13 for `BadFront`.
    pub fn number(self) -> u8
        ensures { result ≡ reason_number self }
    {
        match self {
            BundleReason::BadPreamble => 1,
            BundleReason::Truncated => 2,
            BundleReason::BadNumber => 3,
            BundleReason::OtherNumber => 4,
            BundleReason::SizeMismatch => 5,
            BundleReason::UnknownCode => 6,
            BundleReason::NoSuchPart => 7,
            BundleReason::BadUtf8 => 8,
            BundleReason::TooManyParts => 9,
            BundleReason::Surplus => 10,
            BundleReason::TooLong => 11,
            BundleReason::Memory => 12,
            BundleReason::BadFront => 13,
        }
    }

    /// The word by which the reason is known, as `BadPreamble`.
    fn name(self) -> &'static str {
        match self {
            BundleReason::BadPreamble => "BadPreamble",
            BundleReason::Truncated => "Truncated",
            BundleReason::BadNumber => "BadNumber",
            BundleReason::OtherNumber => "OtherNumber",
            BundleReason::SizeMismatch => "SizeMismatch",
            BundleReason::UnknownCode => "UnknownCode",
            BundleReason::NoSuchPart => "NoSuchPart",
            BundleReason::BadUtf8 => "BadUtf8",
            BundleReason::TooManyParts => "TooManyParts",
            BundleReason::Surplus => "Surplus",
            BundleReason::TooLong => "TooLong",
            BundleReason::Memory => "Memory",
            BundleReason::BadFront => "BadFront",
        }
    }

    /// What is wrong, in a few words.
    fn text(self) -> &'static str {
        match self {
            BundleReason::BadPreamble => "no preamble of a component",
            BundleReason::Truncated => "the input ends too early",
            BundleReason::BadNumber => "a number that is too large, or not spelled shortest",
            BundleReason::OtherNumber => "another number than belongs there",
            BundleReason::SizeMismatch => "a section whose contents are of another length",
            BundleReason::UnknownCode => "an unknown code",
            BundleReason::NoSuchPart => "an instance that is no earlier part",
            BundleReason::BadUtf8 => "a name that is not UTF-8",
            BundleReason::TooManyParts => "more than 1000 parts",
            BundleReason::Surplus => "bytes behind the exports",
            BundleReason::TooLong => "more than 4294967295 bytes",
            BundleReason::Memory => "no memory",
            BundleReason::BadFront => "no imports, or no aliases of types, where they have to be",
        }
    }
}

impl fmt::Display for BundleReason {
    fn fmt<W: fmt::Write>(&self, f: &mut fmt::Formatter<W>) -> fmt::Result {
        f.write_str(self.text())
    }
}

impl Error for BundleReason {}

/// Why bytes are no bundle, and the place of the fault, counted in bytes from 0. It is shown as
/// `BadPreamble at 4: no preamble of a component`.
#[derive(Clone, Copy, Debug, PartialEq, Eq)]
pub struct BundleFault {
    pub at: usize,
    pub reason: BundleReason,
}

impl fmt::Display for BundleFault {
    fn fmt<W: fmt::Write>(&self, f: &mut fmt::Formatter<W>) -> fmt::Result {
        write!(f, "{} at {}: {}", self.reason.name(), self.at, self.reason)
    }
}

impl Error for BundleFault {}
