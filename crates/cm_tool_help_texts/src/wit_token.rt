//! The token at a byte of a WIT text, and what stands before it.

/// The text from a byte on.
pub(crate) fn rest_at(text: &str, at: usize) -> &str {
    text.get(at..).unwrap_or("")
}

/// The text before a byte.
pub(crate) fn front_at(text: &str, at: usize) -> &str {
    text.get(..at).unwrap_or(text)
}

fn is_of_word(c: char) -> bool {
    c.is_ascii_alphanumeric() || c == '-'
}

/// The token with which a text begins: a word, with `%` before it where it stands there, a number,
/// or one character, or the two of `->` and of a comment's begin; empty at the text's end.
pub(crate) fn token_of(rest: &str) -> &str {
    if rest.starts_with("->") || rest.starts_with("/*") {
        return rest.get(..2).unwrap_or("");
    }
    let begins_word = rest.starts_with(|c: char| c.is_ascii_alphanumeric() || c == '%');
    for (n, (at, c)) in rest.char_indices().enumerate() {
        let goes_on = n == 0 || (begins_word && is_of_word(c));
        if !goes_on {
            return rest.get(..at).unwrap_or("");
        }
    }
    rest
}

/// Whether what stands before a place ends with this word or mark, blanks aside.
pub(crate) fn ends_with(front: &str, word: &str) -> bool {
    front.trim_end().ends_with(word)
}
