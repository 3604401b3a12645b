//! What the encodings mean, as laws over their definitions: each function here does nothing, and
//! its contract is the law.

ghost use Rattle.std.specs.Prelude.{◌≡◌, ℕ, List, IsTrue};
ghost use Rattle.std.specs.Char.{IsScalar};
ghost use Rattle.cm_text.specs.Text.{IsText};
ghost use Rattle.cm_text.specs.Utf16.{units, spell_utf16};
ghost use Rattle.cm_text.specs.Utf8.{spell_utf8};
ghost use Rattle.cm_text.specs.WellFormed.{is_well_formed_utf8, is_well_formed_utf16};

use crate::{Encoding, Latin1, Source, Utf8, Utf16};

/// Bytes are the text of one list of scalars at most.
pub fn one_list_of_scalars<S: Source>()
    ensures { (scalars others bytes : List ℕ) → IsText S.has S.spell scalars bytes
        → IsText S.has S.spell others bytes → scalars ≡ others }
{}

/// The spellings of UTF-8 are the byte sequences of table 3-7 of the Unicode Standard, and no
/// others: so there is no overlong form, and none of a surrogate.
pub fn utf8_is_well_formed()
    ensures spelled { (c : ℕ) → IsScalar c → IsTrue (is_well_formed_utf8 (spell_utf8 c)) }
    ensures read { (bytes : List ℕ) → IsTrue (is_well_formed_utf8 bytes)
        → (c : ℕ) × IsScalar c × (spell_utf8 c ≡ bytes) }
{}

/// The units of the spellings of UTF-16 are those that are no surrogates, and the pairs of a high
/// and a low surrogate, and no others: so no surrogate stands alone.
pub fn utf16_is_well_formed()
    ensures spelled { (c : ℕ) → IsScalar c → IsTrue (is_well_formed_utf16 (units (spell_utf16 c))) }
    ensures read { (us : List ℕ) → IsTrue (is_well_formed_utf16 us)
        → (c : ℕ) × IsScalar c × (units (spell_utf16 c) ≡ us) }
{}

/// The alignment of a string in a memory, in bytes: 1 in UTF-8, and 2 in UTF-16 and in the encoding
/// `latin1+utf16`, as Latin-1 (CanonicalABI.md, "Loading", `load_string_from_range`). A law about
/// constants answers them, in the order of its clauses.
pub fn alignments() -> (usize, usize, usize)
    ensures utf8 { result.0 ≡ 1 }
    ensures utf16 { result.1 ≡ 2 }
    ensures latin1 { result.2 ≡ 2 }
{
    (Utf8::ALIGNMENT, Utf16::ALIGNMENT, Latin1::ALIGNMENT)
}

/// The bytes of a unit, in which the length of a string is counted: 1 in UTF-8 and in Latin-1, 2 in
/// UTF-16 (CanonicalABI.md, "Loading", `load_string_from_range`).
pub fn unit_sizes() -> (usize, usize, usize)
    ensures utf8 { result.0 ≡ 1 }
    ensures utf16 { result.1 ≡ 2 }
    ensures latin1 { result.2 ≡ 1 }
{
    (Utf8::UNIT_SIZE, Utf16::UNIT_SIZE, Latin1::UNIT_SIZE)
}

/// The most bytes that a text takes for each unit that it has in another encoding: 3 in UTF-8, 2 in
/// UTF-16 (this project's own choice of a bound, which is the least one).
pub fn greatest_growths() -> (usize, usize)
    ensures utf8 { result.0 ≡ 3 }
    ensures utf16 { result.1 ≡ 2 }
{
    (Utf8::GREATEST_GROWTH, Utf16::GREATEST_GROWTH)
}
