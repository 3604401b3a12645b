//! Where names stand in a text, and in which line.

ghost use Rattle.std.specs.Prelude.{◌≡◌, ◌+◌, ◌^◌, ◌<◌, ◌≤◌, IfOk, slice_get, take};
ghost use Rattle.cm_wit_projects_reading.specs.Places.{after_byte, first_place, is_sought};
ghost use Rattle.cm_wit_projects_reading.specs.Places.{name_place, place_behind, sought_in};

use cm_wit_projects_tokens::lexed;
use cm_wit_tokens::{Form, Keyword, Lexed, Token};
use std::alloc::{AllocError, Global};
use std::collections::VecDeque;

/// A place in a text as compilers tell it: the line, and the character in it, both from 1.
#[derive(Clone, Copy, PartialEq, Eq)]
pub struct LinePlace {
    pub line: usize,
    pub column: usize,
}

impl LinePlace {
    /// The place behind one more byte. A byte that goes on with a character (10xxxxxx) moves none.
    fn after_byte(self, byte: u8) -> LinePlace
        requires line { self.line + 1 < 2 ^ 64 }
        requires column { self.column + 1 < 2 ^ 64 }
        ensures place { result ≡ after_byte self byte }
        ensures line { result.line ≤ self.line + 1 }
        ensures column { result.column ≤ self.column + 1 }
    {
        if byte == b'\n' {
            LinePlace {
                line: self.line + 1,
                column: 1,
            }
        } else if byte / 64 == 2 {
            self
        } else {
            LinePlace {
                line: self.line,
                column: self.column + 1,
            }
        }
    }
}

/// The place behind all bytes of a text.
#[tactic(auto, using(crate::proofs::LineLaws::line_laws))]
fn place_behind(text: &[u8]) -> LinePlace
    ensures { result ≡ place_behind first_place text.now }
{
    let mut place = LinePlace { line: 1, column: 1 };
    for byte in text {
        place = place.after_byte(*byte);
    }
    place
}

/// The line and the column of a byte of a text, or of the text's end where it has fewer bytes.
pub fn line_place(text: &str, at: usize) -> LinePlace
    ensures { result ≡ place_behind first_place (take at text.now) }
{
    let bytes = text.as_bytes();
    if at <= bytes.len() {
        let (before, _) = bytes.split_at(at);
        place_behind(before)
    } else {
        place_behind(bytes)
    }
}

/// Whether a token is a name that stands where so many bytes of the text are left, or behind.
fn is_sought(token: &Token, left: usize) -> bool
    ensures { result ≡ is_sought left token.now }
{
    token.left <= left
        && matches!(
            token.form,
            Form::Identifier(_) | Form::Keyword(Keyword::Constructor)
        )
}

/// The n-th name among tokens, from where so many bytes of the text are left.
#[tactic(auto, using(crate::proofs::SoughtLaws::sought_laws))]
fn nth_name(mut tokens: VecDeque<Token>, left: usize, number: usize) -> Option<Token>
    ensures { result ≡ slice_get (sought_in left tokens.items) number }
{
    let mut before = number;
    while let Some(token) = tokens.pop_front() {
        if is_sought(&token, left) {
            if before == 0 {
                return Some(token);
            }
            before -= 1;
        }
    }
    None
}

/// The byte at which the n-th name stands, from 0, of those from where so many bytes of the text
/// are left, or the text's length, in time linear in the text. Names are identifiers, and the word
/// `constructor`. Refused only where there is no memory.
pub fn name_place(
    alloc: Global,
    text: &str,
    left: usize,
    number: usize,
) -> Result<usize, AllocError>
    ensures { IfOk result (λ at. at ≡ name_place text.now left number) }
{
    let Lexed { tokens, .. } = lexed(alloc, text)?;
    match nth_name(tokens, left, number) {
        Some(token) => Ok(text.len().saturating_sub(token.left)),
        None => Ok(text.len()),
    }
}
