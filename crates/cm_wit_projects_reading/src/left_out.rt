//! Where things stand, and passing over forms that are left out.

ghost use Rattle.std.specs.Prelude.{◌≡◌};
ghost use Rattle.cm_wit_tokens.specs.Grammar.{first, passes};
ghost use Rattle.cm_wit_tokens.specs.Reading.{Reads};
ghost use Rattle.cm_wit_projects_reading.specs.LeftOut.{is_left_out, is_other, left_of, to_mark};
ghost use Rattle.cm_wit_projects_reading.specs.Passing.{Passes, PassesWord};

use cm_wit_tokens::{Cursor, Form, Keyword, Operator, ReadError, WitReason};

/// How many bytes of the text are left from the next token on, and none at the text's end.
pub fn place(cursor: &Cursor) -> usize
    ensures { result ≡ left_of (first cursor.now) }
{
    match cursor.left() {
        Some(left) => left,
        None => 0,
    }
}

/// Whether a token is a word of a form that is left out.
fn is_left_out(form: &Form) -> bool
    ensures { result ≡ is_left_out form.now }
{
    matches!(
        form,
        Form::Keyword(
            Keyword::Own
                | Keyword::F32
                | Keyword::F64
                | Keyword::Stream
                | Keyword::Future
                | Keyword::Async,
        )
    )
}

/// Whether the next token is a word of a form that is left out.
fn next_is_left_out(cursor: &Cursor) -> bool
    ensures { result ≡ passes is_left_out (first cursor.now) }
{
    match cursor.next() {
        Some(form) => is_left_out(form),
        None => false,
    }
}

/// Whether a token may stand behind such a word: all but `;`, `{` and `}`.
fn is_other(form: &Form) -> bool
    ensures { result ≡ is_other form.now }
{
    !matches!(
        form,
        Form::Operator(Operator::Semicolon | Operator::LeftBrace | Operator::RightBrace)
    )
}

/// Whether the next token may stand behind such a word.
fn next_is_other(cursor: &Cursor) -> bool
    ensures { result ≡ passes is_other (first cursor.now) }
{
    match cursor.next() {
        Some(form) => is_other(form),
        None => false,
    }
}

/// Takes the tokens that may stand behind such a word, and the mark that closes.
#[tactic(auto, using(crate::proofs::PassingLaws::skip_laws))]
fn skip_past(cursor: &mut Cursor, closing: Operator) -> Result<(), ReadError>
    ensures { Reads (to_mark closing) (λ x. x) cursor.old cursor.new result }
{
    while next_is_other(cursor) {
        cursor.take();
    }
    if cursor.next_is(closing) {
        cursor.take();
        Ok(())
    } else {
        Err(ReadError::Fault(WitReason::Unexpected))
    }
}

/// Behind a fault of this reason, passes over what is left out.
#[tactic(auto, using(crate::proofs::PassingLaws::passing_laws))]
fn pass_word(cursor: &mut Cursor, closing: Operator, reason: WitReason) -> Result<usize, ReadError>
    ensures { PassesWord closing reason cursor.old cursor.new result }
{
    if !next_is_left_out(cursor) {
        return Err(ReadError::Fault(reason));
    }
    match cursor.take() {
        Some(word) => {
            skip_past(cursor, closing)?;
            Ok(word.left)
        }
        None => Err(ReadError::Fault(reason)),
    }
}

/// Where a fault is at a word of a form that is left out, passes over it and all to the next
/// closing mark, and answers how many bytes of the text are left from the word on.
pub fn pass_left_out(
    cursor: &mut Cursor,
    closing: Operator,
    fault: ReadError,
) -> Result<usize, ReadError>
    ensures { Passes closing fault cursor.old cursor.new result }
{
    match fault {
        ReadError::Memory => Err(ReadError::Memory),
        ReadError::Fault(reason) => pass_word(cursor, closing, reason),
    }
}
