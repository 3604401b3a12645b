//! How strings stand in memory: at which alignment, and in how many bytes.

ghost use Rattle.std.specs.Prelude.{◌≡◌, ◌<◌, length};
ghost use Rattle.std.specs.Str.{chars};
ghost use Rattle.cm_abi_model.specs.Requests.{text_bytes};
ghost use Rattle.cm_abi_model.specs.Texts.{text_align, utf16};

use crate::encoding::StringEncoding;
use cm_text::{Utf8, Utf16, transcoded_size};

/// The alignment of a string's pointer, in bytes: that of a unit of its encoding (CanonicalABI.md,
/// "Loading", `load_string_from_range`).
pub fn text_align(encoding: StringEncoding) -> u32
    ensures value { result ≡ text_align encoding }
    ensures positive { 0 < result }
{
    match encoding {
        StringEncoding::Utf8 => 1,
        StringEncoding::Utf16 | StringEncoding::Latin1OrUtf16 => 2,
    }
}

/// How many bytes a text takes in UTF-16.
pub fn utf16_size(text: &str) -> usize
    ensures { result ≡ length (text_bytes utf16 (chars text.now)) }
{
    match transcoded_size::<Utf8, Utf16>(text.as_bytes()) {
        Ok(size) => size,
        Err(_) => unreachable!(),
    }
}
