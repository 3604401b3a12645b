//! A walk over the bytes of a label, from the first to the last.

ghost use Rattle.std.specs.Prelude.{◌≡◌, ◌∷◌, ℕ, [], List, false};
ghost use Rattle.std.specs.Option.{option_map_or};
ghost use Rattle.cm_types.specs.Names.{is_in_acronym, is_in_word, is_label};
ghost use Rattle.cm_types.specs.LabelWalks.{is_rest};
ghost use Rattle.cm_types.specs.declared.label_walk.Place.TheVariants as place;

/// Where a walk over the bytes of a label stands.
#[derive(Clone, Copy)]
enum Place {
    /// Before a fragment.
    Before,
    /// Behind a byte of a word.
    InWord,
    /// Behind a byte of an acronym.
    InAcronym,
}

fn is_in_word(byte: u8) -> bool
    ensures { result ≡ is_in_word byte }
{
    byte.is_ascii_lowercase() || byte.is_ascii_digit()
}

fn is_in_acronym(byte: u8) -> bool
    ensures { result ≡ is_in_acronym byte }
{
    byte.is_ascii_uppercase() || byte.is_ascii_digit()
}

/// The place behind the first byte of a fragment, if the byte may be that.
#[tactic(auto, using(crate::proofs::LabelWalks::word_begins, crate::proofs::LabelWalks::acronym_begins, crate::proofs::LabelWalks::nothing_begins))]
fn begin(byte: u8) -> Option<Place>
    ensures { (rest : List ℕ)
        → is_label (byte ∷ rest) ≡ option_map_or (λ p. is_rest p rest) result false }
{
    if byte.is_ascii_lowercase() {
        Some(Place::InWord)
    } else if byte.is_ascii_uppercase() {
        Some(Place::InAcronym)
    } else {
        None
    }
}

/// The place behind a byte that comes after one of a word, if the byte may.
#[tactic(auto, using(crate::proofs::LabelWalks::word_goes_on, crate::proofs::LabelWalks::word_ends, crate::proofs::LabelWalks::word_stops))]
fn after_word(byte: u8) -> Option<Place>
    ensures { (rest : List ℕ) → is_rest place.InWord (byte ∷ rest)
        ≡ option_map_or (λ p. is_rest p rest) result false }
{
    if is_in_word(byte) {
        Some(Place::InWord)
    } else if byte == b'-' {
        Some(Place::Before)
    } else {
        None
    }
}

/// The place behind a byte that comes after one of an acronym, if the byte may.
#[tactic(auto, using(crate::proofs::LabelWalks::acronym_goes_on, crate::proofs::LabelWalks::acronym_ends, crate::proofs::LabelWalks::acronym_stops))]
fn after_acronym(byte: u8) -> Option<Place>
    ensures { (rest : List ℕ) → is_rest place.InAcronym (byte ∷ rest)
        ≡ option_map_or (λ p. is_rest p rest) result false }
{
    if is_in_acronym(byte) {
        Some(Place::InAcronym)
    } else if byte == b'-' {
        Some(Place::Before)
    } else {
        None
    }
}

/// The place behind a byte, if a label may have it there.
fn after(place: Place, byte: u8) -> Option<Place>
    ensures { (rest : List ℕ) → is_rest place (byte ∷ rest)
        ≡ option_map_or (λ p. is_rest p rest) result false }
{
    match place {
        Place::Before => begin(byte),
        Place::InWord => after_word(byte),
        Place::InAcronym => after_acronym(byte),
    }
}

/// Whether a label may end at a place.
fn may_end(place: Place) -> bool
    ensures { result ≡ is_rest place [] }
{
    match place {
        Place::Before => false,
        Place::InWord => true,
        Place::InAcronym => true,
    }
}

/// Whether a text is a label. Each byte is looked at once, up to the first that no label has there.
pub(crate) fn is_label(text: &str) -> bool
    ensures { result ≡ is_label text.now }
{
    let mut place = Place::Before;
    for byte in text.as_bytes() {
        match after(place, *byte) {
            Some(next) => place = next,
            None => return false,
        }
    }
    may_end(place)
}
