//! Why bytes are no component file.

use std::error::Error;
use std::fmt;

/// Why bytes are refused, by the number of the reason. At which byte the fault then is:
/// [`DecodeFault`].
#[derive(Clone, Copy, Debug, PartialEq, Eq)]
pub enum DecodeReason {
    /// The file does not begin with the preamble of a component: the first differing byte.
    BadPreamble,
    /// The input ends before the file does: the input's length.
    Truncated,
    /// A number that takes too many bytes or is too large: its first byte.
    BadNumber,
    /// The contents of a section are not as long as it says: the first byte that they leave, or the
    /// section's end where they want more.
    SizeMismatch,
    /// A byte without a meaning at its place: that byte.
    UnknownCode,
    /// A form of the standard that is not carried: the byte that names it.
    Unsupported(Feature),
    /// A text that is not UTF-8: its first byte.
    BadUtf8,
    /// A text that is no name where one is wanted: its first byte.
    BadName,
    /// A core module without its preamble: its first byte.
    NotAModule,
    /// More than 4,096 types: the first byte of the first one over, also where that byte is
    /// missing.
    TooMany,
    /// More than 16,777,216 bytes: 16,777,216.
    TooLong,
    /// The reader failed: the bytes read before.
    Read,
    /// There was no memory. Nothing is said of the place.
    Memory,
}

impl DecodeReason {
    ghost use Rattle.std.specs.Prelude.{◌≡◌};
    ghost use Rattle.cm_binary_forms.specs.Reasons.{reason_number};

    /// The number by which the reason is known, from 1 for `BadPreamble` to 13 for `Memory`.
    pub fn number(self) -> u8
        ensures { result ≡ reason_number self }
    {
        match self {
            DecodeReason::BadPreamble => 1,
            DecodeReason::Truncated => 2,
            DecodeReason::BadNumber => 3,
            DecodeReason::SizeMismatch => 4,
            DecodeReason::UnknownCode => 5,
            DecodeReason::Unsupported(_) => 6,
            DecodeReason::BadUtf8 => 7,
            DecodeReason::BadName => 8,
            DecodeReason::NotAModule => 9,
            DecodeReason::TooMany => 10,
            DecodeReason::TooLong => 11,
            DecodeReason::Read => 12,
            DecodeReason::Memory => 13,
        }
    }
}

impl DecodeReason {
    /// The word by which the reason is known, as `BadPreamble`.
    fn name(self) -> &'static str {
        match self {
            DecodeReason::BadPreamble => "BadPreamble",
            DecodeReason::Truncated => "Truncated",
            DecodeReason::BadNumber => "BadNumber",
            DecodeReason::SizeMismatch => "SizeMismatch",
            DecodeReason::UnknownCode => "UnknownCode",
            DecodeReason::Unsupported(_) => "Unsupported",
            DecodeReason::BadUtf8 => "BadUtf8",
            DecodeReason::BadName => "BadName",
            DecodeReason::NotAModule => "NotAModule",
            DecodeReason::TooMany => "TooMany",
            DecodeReason::TooLong => "TooLong",
            DecodeReason::Read => "Read",
            DecodeReason::Memory => "Memory",
        }
    }

    /// What is wrong, in a few words.
    fn text(self) -> &'static str {
        match self {
            DecodeReason::BadPreamble => "no preamble of a component",
            DecodeReason::Truncated => "the input ends too early",
            DecodeReason::BadNumber => "a number that is too long or too large",
            DecodeReason::SizeMismatch => "a section whose contents are of another length",
            DecodeReason::UnknownCode => "an unknown code",
            DecodeReason::Unsupported(_) => "not supported",
            DecodeReason::BadUtf8 => "a text that is not UTF-8",
            DecodeReason::BadName => "a text that is no name",
            DecodeReason::NotAModule => "no core module",
            DecodeReason::TooMany => "more than 4096 types",
            DecodeReason::TooLong => "more than 16777216 bytes",
            DecodeReason::Read => "the reader failed",
            DecodeReason::Memory => "no memory",
        }
    }
}

impl fmt::Display for DecodeReason {
    fn fmt<W: fmt::Write>(&self, f: &mut fmt::Formatter<W>) -> fmt::Result {
        match self {
            DecodeReason::Unsupported(feature) => write!(f, "{}: {feature}", self.text()),
            reason => f.write_str(reason.text()),
        }
    }
}

impl Error for DecodeReason {}

/// A form of the standard that is not carried.
#[derive(Clone, Copy, Debug, PartialEq, Eq)]
pub enum Feature {
    CoreTypes,
    NestedComponents,
    Start,
    InstanceOfComponent,
    CoreSort,
    Sort,
    AliasTarget,
    TypeDefinition,
    DeclaredType,
    Declaration,
    FloatType,
    Description,
    ExportDescription,
}

impl Feature {
    /// What is not carried, in a few words.
    fn text(self) -> &'static str {
        match self {
            Feature::CoreTypes => "core type sections",
            Feature::NestedComponents => "components in components",
            Feature::Start => "start sections",
            Feature::InstanceOfComponent => "instances made of components",
            Feature::CoreSort => "core types, core modules and core instances as sorts",
            Feature::Sort => "this sort in this place",
            Feature::AliasTarget => "this target of an alias",
            Feature::TypeDefinition => "types of components",
            Feature::DeclaredType => "this type in the type of an instance",
            Feature::Declaration => "core types in the type of an instance",
            Feature::FloatType => "floats",
            Feature::Description => "this description in this place",
            Feature::ExportDescription => "an export with a description",
        }
    }
}

impl fmt::Display for Feature {
    fn fmt<W: fmt::Write>(&self, f: &mut fmt::Formatter<W>) -> fmt::Result {
        f.write_str(self.text())
    }
}

/// Why bytes are no component file, and the place of the fault, counted in bytes from 0. It is
/// shown as `BadPreamble at 4: no preamble of a component`.
#[derive(Clone, Copy, Debug, PartialEq, Eq)]
pub struct DecodeFault {
    pub at: usize,
    pub reason: DecodeReason,
}

impl fmt::Display for DecodeFault {
    fn fmt<W: fmt::Write>(&self, f: &mut fmt::Formatter<W>) -> fmt::Result {
        write!(f, "{} at {}: ", self.reason.name(), self.at)?;
        match self.reason {
            DecodeReason::Unsupported(feature) => write!(f, "{feature}"),
            reason => write!(f, "{reason}"),
        }
    }
}

impl Error for DecodeFault {}
