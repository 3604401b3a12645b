//! Texts in diagrams.

use cm_hux_said::is_hidden;
use std::fmt;

/// A text as a diagram shows it: letters, digits and the marks that mean nothing to Mermaid are
/// written as they are, and each other character of ASCII by its number, as `#59;`. What
/// `is_hidden` says is written as `\u{202e}`, so that a line stays one line.
#[derive(Clone, Copy)]
pub(crate) struct Charted<'a>(pub(crate) &'a str);

/// Whether a character means nothing to Mermaid in a text, and to the page that shows it.
fn is_plain(c: char) -> bool {
    c > '\u{7f}'
        || c.is_ascii_alphanumeric()
        || matches!(
            c,
            ' ' | '-' | '_' | '.' | ',' | '/' | '(' | ')' | '[' | ']' | '\'' | '=' | '+' | '@'
        )
}

impl fmt::Display for Charted<'_> {
    fn fmt<W: fmt::Write>(&self, f: &mut fmt::Formatter<W>) -> fmt::Result {
        for c in self.0.chars() {
            let number = c as u32;
            if is_hidden(c) {
                write!(f, "#92;u#123;{number:x}#125;")?;
            } else if is_plain(c) {
                write!(f, "{c}")?;
            } else {
                write!(f, "#{number};")?;
            }
        }
        Ok(())
    }
}
