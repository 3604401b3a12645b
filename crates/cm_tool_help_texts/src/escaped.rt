//! Texts that stay in one line.

use std::fmt;

/// A text as a line shows it: each character that would end the line, hide a part of it or turn its
/// direction (`is_hidden`) is written as `\u{202e}`, with its number in hexadecimal digits. All
/// others are written as they are.
#[derive(Clone, Copy)]
pub struct Escaped<'a>(pub &'a str);

/// Whether a character is a control character, ends a line or a paragraph, or is a mark of
/// direction (Unicode, "Bidirectional Character Types").
pub fn is_hidden(c: char) -> bool {
    matches!(
        c,
        '\0'..='\u{1f}'
            | '\u{7f}'..='\u{9f}'
            | '\u{61c}'
            | '\u{200e}'..='\u{200f}'
            | '\u{2028}'..='\u{202e}'
            | '\u{2066}'..='\u{2069}'
            | '\u{feff}'
    )
}

impl fmt::Display for Escaped<'_> {
    fn fmt<W: fmt::Write>(&self, f: &mut fmt::Formatter<W>) -> fmt::Result {
        for c in self.0.chars() {
            if is_hidden(c) {
                let number = c as u32;
                write!(f, "\\u{{{number:x}}}")?;
            } else {
                write!(f, "{c}")?;
            }
        }
        Ok(())
    }
}
