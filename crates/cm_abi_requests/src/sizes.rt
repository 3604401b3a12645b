//! The sizes that are asked for a part.

ghost use Rattle.std.specs.Prelude.{◌≡◌, ◌*◌, ◌^◌, ◌<◌, length};
ghost use Rattle.cm_abi_model.specs.Requests.{read_charset, shrunk, stored_charset, tagged_charset};
ghost use Rattle.cm_abi_model.specs.Requests.{text_sizes};
ghost use Rattle.cm_abi_model.specs.Texts.{latin1, utf16, utf8};
ghost use Rattle.cm_abi_requests.specs.Asking.{grown};
ghost use Rattle.cm_abi_requests.specs.Sizes.{sizes_seen};

use cm_abi_model::StringEncoding;

/// The sizes that are asked for one after another for a part, in bytes.
#[derive(Clone, Copy, Debug, PartialEq, Eq, Drop)]
pub enum Sizes {
    One(u32),
    Two(u32, u32),
    Three(u32, u32, u32),
}

impl Sizes {
    /// How many they are: one, two or three.
    pub(crate) fn count(self) -> usize
        ensures { result ≡ length (sizes_seen self) }
    {
        match self {
            Sizes::One(_) => 1,
            Sizes::Two(_, _) => 2,
            Sizes::Three(_, _, _) => 3,
        }
    }
}

/// What is asked for first; where less is kept, then that.
fn shrunk(size: u32, exact: u32) -> Sizes
    ensures { sizes_seen result ≡ shrunk size exact }
{
    if exact < size {
        Sizes::Two(size, exact)
    } else {
        Sizes::One(size)
    }
}

/// A byte a unit; where that is too little the most that there may be, and where less is kept, then
/// that.
fn grown(units: u32, most: u32, exact: u32) -> Sizes
    ensures { sizes_seen result ≡ grown units most exact }
{
    if exact <= units {
        Sizes::One(units)
    } else if exact < most {
        Sizes::Three(units, most, exact)
    } else {
        Sizes::Two(units, most)
    }
}

/// Those of a string that is read in UTF-8.
fn utf8_sizes(target: StringEncoding, units: u32, exact: u32) -> Sizes
    requires fits { 3 * units < 2 ^ 32 }
    ensures { sizes_seen result ≡ text_sizes utf8 (stored_charset target) units exact }
{
    match target {
        StringEncoding::Utf8 => Sizes::One(exact),
        StringEncoding::Utf16 | StringEncoding::Latin1OrUtf16 => shrunk(2 * units, exact),
    }
}

/// Those of a string that is read in UTF-16.
fn utf16_sizes(target: StringEncoding, units: u32, exact: u32) -> Sizes
    requires fits { 3 * units < 2 ^ 32 }
    ensures { sizes_seen result ≡ text_sizes utf16 (stored_charset target) units exact }
{
    match target {
        StringEncoding::Utf8 => grown(units, 3 * units, exact),
        StringEncoding::Utf16 | StringEncoding::Latin1OrUtf16 => Sizes::One(exact),
    }
}

/// Those of a string that is read in Latin-1.
fn latin1_sizes(target: StringEncoding, units: u32, exact: u32) -> Sizes
    requires fits { 3 * units < 2 ^ 32 }
    ensures { sizes_seen result ≡ text_sizes latin1 (stored_charset target) units exact }
{
    match target {
        StringEncoding::Utf8 => grown(units, 2 * units, exact),
        StringEncoding::Utf16 | StringEncoding::Latin1OrUtf16 => Sizes::One(exact),
    }
}

/// Those of a string that is read in Latin-1 or, where its tag says so, in UTF-16.
fn tagged_sizes(is_tagged: bool, target: StringEncoding, units: u32, exact: u32) -> Sizes
    requires fits { 3 * units < 2 ^ 32 }
    ensures { sizes_seen result
        ≡ text_sizes (tagged_charset is_tagged) (stored_charset target) units exact }
{
    if is_tagged {
        utf16_sizes(target, units, exact)
    } else {
        latin1_sizes(target, units, exact)
    }
}

/// Those of a string that has so many units in its source and takes so many bytes where it is
/// stored.
pub(crate) fn text_sizes(
    source: StringEncoding,
    is_tagged: bool,
    target: StringEncoding,
    units: u32,
    exact: u32,
) -> Sizes
    requires fits { 3 * units < 2 ^ 32 }
    ensures { sizes_seen result
        ≡ text_sizes (read_charset source is_tagged) (stored_charset target) units exact }
{
    match source {
        StringEncoding::Utf8 => utf8_sizes(target, units, exact),
        StringEncoding::Utf16 => utf16_sizes(target, units, exact),
        StringEncoding::Latin1OrUtf16 => tagged_sizes(is_tagged, target, units, exact),
    }
}
