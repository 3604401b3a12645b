//! How many bytes numbers, texts and names take, spelled shortest.

ghost use Rattle.std.specs.Prelude.{◌≡◌, ◌≤◌, length, pos, true};
ghost use Rattle.std.specs.Str.{is_utf8};
ghost use Rattle.cm_leb.specs.NumbersWritten.{shortest_signed, shortest_unsigned};
ghost use Rattle.cm_binary_grammar.specs.Spelling.{blob_spelling};
ghost use Rattle.cm_binary_model.specs.Spelling.{extern_name_spelling};
ghost use Rattle.cm_binary_model.specs.Parts.{holds_label, holds_name, is_index};
ghost use Rattle.cm_binary_model.specs.Measures.{saturate};

use cm_leb::formats::{spelled_length, spelled_signed_length};
use cm_types::{ExternName, Label};

/// The length of a number.
pub(crate) fn number_length(number: u64) -> u64
    ensures length { result ≡ length (shortest_unsigned number) }
    ensures few { result ≤ 5 }
{
    spelled_length(number) as u64
}

/// The length of an index.
pub(crate) fn index_length(index: u32) -> u64
    ensures length { result ≡ length (shortest_unsigned index) }
    ensures few { result ≤ 5 }
    ensures holds { is_index index ≡ true }
{
    number_length(u64::from(index))
}

/// The length of an index as a number with a sign.
pub(crate) fn signed_index_length(index: u32) -> u64
    ensures length { result ≡ length (shortest_signed (pos index)) }
    ensures few { result ≤ 5 }
    ensures holds { is_index index ≡ true }
{
    spelled_signed_length(i64::from(index)) as u64
}

/// The length of bytes behind their number.
pub(crate) fn blob_length(bytes: &[u8]) -> u64
    ensures { result ≡ saturate (length (blob_spelling bytes.now)) }
{
    number_length(bytes.len() as u64).saturating_add(bytes.len() as u64)
}

/// The length of a text behind its length.
pub(crate) fn text_length(text: &str) -> u64
    ensures length { result ≡ saturate (length (blob_spelling text.now)) }
    ensures utf8 { is_utf8 text.now ≡ true }
{
    blob_length(text.as_bytes())
}

/// The length of a label behind its length.
pub(crate) fn label_length(label: &Label) -> u64
    ensures length { result ≡ saturate (length (blob_spelling label.now)) }
    ensures holds { holds_label label.now ≡ true }
{
    blob_length(label.as_bytes())
}

/// The length of an extern name behind its length.
pub(crate) fn name_length(name: &ExternName) -> u64
    ensures length { result ≡ saturate (length (blob_spelling name.now)) }
    ensures holds { holds_name name.now ≡ true }
{
    blob_length(name.as_bytes())
}

/// The length of an extern name behind a byte and its length.
pub(crate) fn extern_name_length(name: &ExternName) -> u64
    ensures length { result ≡ saturate (length (extern_name_spelling name.now)) }
    ensures holds { holds_name name.now ≡ true }
{
    name_length(name).saturating_add(1)
}
