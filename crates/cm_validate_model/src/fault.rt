//! Why a component is not valid.

ghost use Rattle.std.specs.Prelude.{◌≡◌};
ghost use Rattle.cm_validate_model.specs.ReasonWords.{reason_name, reason_number};

use std::error::Error;
use std::fmt;

/// The rule that an item of a component violates. docs/RULES.md has the table of rules.
#[derive(Clone, Copy, PartialEq, Eq)]
pub enum ValidReason {
    /// An index, or a name of an export, that nothing before the item has.
    NoSuchIndex = 1,
    /// What stands under an index is of another sort than is needed.
    WrongSort = 2,
    /// A record, variant, tuple, enum or set of flags that is empty.
    EmptyType = 3,
    /// More than 32 flags.
    TooManyFlags = 4,
    /// A function's result that holds a borrow.
    BorrowInResult = 5,
    /// Two names of one list that are the same, where they must differ.
    DuplicateName = 6,
    /// A lift or lower without the memory that it needs.
    NeedsMemory = 7,
    /// A lift or lower without the allocator that it needs.
    NeedsRealloc = 8,
    /// A canonical option that is given twice.
    OptionTwice = 9,
    /// A canonical option where it may not stand.
    OptionNotAllowed = 10,
    /// A core function that is no guest's, where a guest's is needed.
    NotGuestFunction = 11,
    /// A memory other than the component's first.
    SecondMemory = 12,
    /// A resource that the component does not define.
    NotOwnResource = 13,
    /// A name of a form that may not stand there.
    BadAnnotatedName = 14,
    /// There was no memory.
    Memory = 15,
    /// A lowered function that does not come from an import.
    NotImported = 16,
    /// An expanded type past the limits.
    TooLarge = 17,
    /// An encoding that strings are not stored in.
    StoresLatin1 = 19,
}

impl ValidReason {
    /// The number by which the reason is known, from 1 for `NoSuchIndex` to 19 for `StoresLatin1`.
    pub fn number(self) -> u8
        ensures { result ≡ reason_number self }
    {
        self as u8
    }

    /// The word by which the reason is known, as `NoSuchIndex`.
    pub fn name(self) -> &'static str
        ensures { result.now ≡ reason_name self }
    {
        match self {
            ValidReason::NoSuchIndex => "NoSuchIndex",
            ValidReason::WrongSort => "WrongSort",
            ValidReason::EmptyType => "EmptyType",
            ValidReason::TooManyFlags => "TooManyFlags",
            ValidReason::BorrowInResult => "BorrowInResult",
            ValidReason::DuplicateName => "DuplicateName",
            ValidReason::NeedsMemory => "NeedsMemory",
            ValidReason::NeedsRealloc => "NeedsRealloc",
            ValidReason::OptionTwice => "OptionTwice",
            ValidReason::OptionNotAllowed => "OptionNotAllowed",
            ValidReason::NotGuestFunction => "NotGuestFunction",
            ValidReason::SecondMemory => "SecondMemory",
            ValidReason::NotOwnResource => "NotOwnResource",
            ValidReason::BadAnnotatedName => "BadAnnotatedName",
            ValidReason::Memory => "Memory",
            ValidReason::NotImported => "NotImported",
            ValidReason::TooLarge => "TooLarge",
            ValidReason::StoresLatin1 => "StoresLatin1",
        }
    }

    /// What the reason means.
    fn text(self) -> &'static str {
        match self {
            ValidReason::NoSuchIndex =>
                "nothing before the item has this index, or exports this name",
            ValidReason::WrongSort =>
                "what stands under the index is of another sort or type than is wanted there",
            ValidReason::EmptyType =>
                "a record, variant, tuple, enum or flags type has nothing in it",
            ValidReason::TooManyFlags => "a flags type has more than 32 labels",
            ValidReason::BorrowInResult => "the result of a function holds a borrow",
            ValidReason::DuplicateName =>
                "two names that must differ are the same, whatever the case of their letters",
            ValidReason::NeedsMemory =>
                "the lift or lower has no memory option, and its type needs one",
            ValidReason::NeedsRealloc =>
                "the lift or lower has no realloc option, and its type needs one",
            ValidReason::OptionTwice => "a canonical option is given twice",
            ValidReason::OptionNotAllowed => "a canonical option stands where it may not",
            ValidReason::NotGuestFunction =>
                "the core function is none of a core instance's exports",
            ValidReason::SecondMemory =>
                "the memory is another one than that of the component's first memory option",
            ValidReason::NotOwnResource => "the component itself does not define the resource",
            ValidReason::BadAnnotatedName =>
                "a name of this form may not stand here, or does not fit its type",
            ValidReason::Memory => "there was no memory",
            ValidReason::NotImported => "the function that is lowered does not come from an import",
            ValidReason::TooLarge => "the type has more than 10,000 nodes or 64 levels",
            ValidReason::StoresLatin1 => "strings are not stored in this encoding",
        }
    }
}

impl fmt::Debug for ValidReason {
    fn fmt<W: fmt::Write>(&self, f: &mut fmt::Formatter<W>) -> fmt::Result {
        write!(f, "{}", self.name())
    }
}

impl fmt::Display for ValidReason {
    fn fmt<W: fmt::Write>(&self, f: &mut fmt::Formatter<W>) -> fmt::Result {
        write!(f, "{}", self.text())
    }
}

impl Error for ValidReason {}

/// Why and where a component is not valid. It is shown as `NoSuchIndex in section 3, item 0:` and
/// what the reason means.
#[derive(Clone, Copy, Debug, PartialEq, Eq, thiserror::Error)]
#[error("{} in section {section}, item {item}: {reason}", .reason.name())]
pub struct ValidFault {
    /// The section, from 0, custom sections counted.
    pub section: usize,
    /// The item in the section, from 0; a section that is one item has item 0.
    pub item: usize,
    pub reason: ValidReason,
}
