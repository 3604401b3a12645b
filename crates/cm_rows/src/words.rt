//! Words of rows.

/// The word at a place; empty where there is none.
pub fn word<'a>(words: &[&'a str], at: usize) -> &'a str {
    words.get(at).copied().unwrap_or("")
}

/// The words from a place on.
pub fn words_from<'a, 'b>(words: &'a [&'b str], at: usize) -> &'a [&'b str] {
    let start = at.min(words.len());
    &words[start..]
}

/// Of a word `N*WORD` the number and the word after it; any other word stands once.
pub fn split_repeat(word: &str) -> (u32, &str) {
    match word.split_once('*') {
        Some((times, rest)) => match times.parse::<u32>() {
            Ok(times) => (times, rest),
            Err(_) => (1, word),
        },
        None => (1, word),
    }
}
