//! Where the names of a text stand.

ghost use Rattle.std.specs.Prelude.{◌≡◌, IfOk, slice_get};
ghost use Rattle.cm_wit_package.specs.Places.{is_name, name_place, names_in};

use cm_wit_tokens::{Form, Keyword, Lexed, Token};
use std::alloc::{AllocError, Global};
use std::collections::VecDeque;

/// Whether a token is a name: an identifier, or the word `constructor`.
fn is_name(form: &Form) -> bool
    ensures { result ≡ is_name form.now }
{
    matches!(
        form,
        Form::Identifier(_) | Form::Keyword(Keyword::Constructor)
    )
}

/// The token that is the n-th name.
#[tactic(auto, using(crate::proofs::PlaceLaws::place_laws))]
fn nth_name(mut tokens: VecDeque<Token>, number: usize) -> Option<Token>
    ensures { result ≡ slice_get (names_in tokens.items) number }
{
    let mut left = number;
    while let Some(token) = tokens.pop_front() {
        if is_name(&token.form) {
            if left == 0 {
                return Some(token);
            }
            left -= 1;
        }
    }
    None
}

/// The byte at which the n-th name of a text begins, or the text's length, in time linear in the
/// text. Refused only where there is no memory.
pub fn name_place(alloc: Global, text: &str, number: usize) -> Result<usize, AllocError>
    ensures { IfOk result (λ at. at ≡ name_place text.now number) }
{
    let Lexed { tokens, .. } = Lexed::of_text(alloc, text)?;
    match nth_name(tokens, number) {
        Some(token) => Ok(text.len().saturating_sub(token.left)),
        None => Ok(text.len()),
    }
}
