//! How a canonical definition says that strings are encoded.

/// The bit of a length that says UTF-16, where strings are in Latin-1 or in UTF-16
/// (CanonicalABI.md, `UTF16_TAG`).
pub const UTF16_TAG: u32 = 0x8000_0000;

/// The encoding of the strings of a canonical definition (CanonicalABI.md, the options
/// `string-encoding`).
#[derive(Clone, Copy, Debug, PartialEq, Eq)]
pub enum StringEncoding {
    /// UTF-8, counted in bytes.
    Utf8,
    /// UTF-16, counted in units of two bytes, each little end first.
    Utf16,
    /// Each string in Latin-1, counted in bytes, or in UTF-16, counted in units; bit 31 of its
    /// length is set where it is UTF-16. Strings are read from it, and never stored.
    Latin1OrUtf16,
}
