//! Finding a text by the marks from its home on.

ghost use Rattle.std.specs.Prelude.{◌≡◌, map};
ghost use Rattle.std.specs.Prelude.{get_or};
ghost use Rattle.std.specs.String.{string_bytes};
ghost use Rattle.cm_names.specs.Finding.{found, is_text, marked};

use crate::hash::home;

/// How many marks are looked at for a text.
pub(crate) const WINDOW: usize = 16;

/// Whether a text is the one of a number.
fn is_text(texts: &[String], text: &str, number: usize) -> bool
    ensures { result ≡ is_text (map string_bytes texts.now) text.now number }
{
    match texts.get(number) {
        Some(other) => text == other.as_str(),
        None => false,
    }
}

/// The number that a place is marked with, if it is.
pub(crate) fn marked(marks: &[u32], at: usize) -> Option<usize>
    ensures { result ≡ marked (get_or marks.now at 0) }
{
    let mark = *marks.get(at)?;
    let number = mark.checked_sub(1)?;
    Some(number as usize)
}

/// The number of a text, if it is found by the marks from its home on: up to the first place
/// without a mark, and no more than 16.
pub(crate) fn find(marks: &[u32], texts: &[String], text: &str) -> Option<usize>
    ensures { result ≡ found marks.now (map string_bytes texts.now) text.now }
{
    let home = home(text, marks.len());
    for at in home..home + WINDOW {
        let number = marked(marks, at)?;
        if is_text(texts, text, number) {
            return Some(number);
        }
    }
    None
}
