//! Words that were likely meant.

/// The longest word that is compared.
const MAX_LENGTH: usize = 24;

/// Whether a word is likely a slip for another one: with at most two letters more, fewer or other
/// than it has, whatever their case, of which the first one is right or all but one are.
pub fn is_near(word: &str, meant: &str) -> bool {
    let (word, meant) = (word.as_bytes(), meant.as_bytes());
    word.len() <= MAX_LENGTH
        && meant.len() <= MAX_LENGTH
        && (is_within(word, meant, 1) || (begins_alike(word, meant) && is_within(word, meant, 2)))
}

fn begins_alike(word: &[u8], meant: &[u8]) -> bool {
    match (word.first(), meant.first()) {
        (Some(a), Some(b)) => a.eq_ignore_ascii_case(b),
        _ => false,
    }
}

/// Whether so many edits, each of one letter, make one word of the other.
fn is_within(word: &[u8], meant: &[u8], edits: u8) -> bool {
    match (word.split_first(), meant.split_first()) {
        (None, _) => meant.len() <= edits as usize,
        (_, None) => word.len() <= edits as usize,
        (Some((a, behind)), Some((b, meant_behind))) => {
            if a.eq_ignore_ascii_case(b) && is_within(behind, meant_behind, edits) {
                return true;
            }
            edits > 0
                && (is_within(behind, meant_behind, edits - 1)
                    || is_within(behind, meant, edits - 1)
                    || is_within(word, meant_behind, edits - 1))
        }
    }
}
