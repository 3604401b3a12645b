//! What stands at the front of a WIT text: a blank, a comment or a token.

ghost use Rattle.std.specs.Prelude.{◌≡◌, true, false, drop, IfOk, IsTrue, IsCharBoundary};
ghost use Rattle.cm_wit_tokens.specs.declared.front.Front.TheVariants as front_is;
ghost use Rattle.cm_types.specs.Names.{is_label};
ghost use Rattle.cm_wit_tokens.specs.Tokens.{token_front, word_form, identifier_form, version_form};
ghost use Rattle.cm_wit_tokens.specs.Tokens.{from_digits, integer_of, comment_front, front};
ghost use Rattle.cm_wit_tokens.specs.Tokens.{version_front, front_behind, IsWithin, operator_front};
ghost use Rattle.cm_wit_tokens.specs.Tokens.{integer_front, word_front, escaped_front, slash_front};
ghost use Rattle.cm_wit_tokens.specs.Tokens.{hyphen_front, EndsAtChar};

use crate::Version;
use crate::comment::comment_length;
use crate::keyword::Keyword;
use crate::operator::Operator;
use crate::run::Run;
use crate::token::Form;
use cm_types::{Label, NameFault};
use std::alloc::{AllocError, Global};

/// What a text begins with, and how many bytes that has.
#[derive(Drop)]
pub enum Front {
    /// Nothing: the text is empty.
    End,
    /// A blank or a comment.
    Gap(usize),
    Token(Form, usize),
    /// None of these.
    Bad,
}

fn token_front(form: Option<Form>, length: usize) -> Front
    ensures { result ≡ token_front form length }
{
    match form {
        Some(form) => Front::Token(form, length),
        None => Front::Bad,
    }
}

fn identifier_form(alloc: Global, word: &str) -> Result<Option<Form>, AllocError>
    ensures { IfOk result (λ form. form ≡ identifier_form word.now) }
{
    match Label::parse(alloc, word) {
        Ok(label) => Ok(Some(Form::Identifier(label))),
        Err(NameFault::Memory) => Err(AllocError),
        Err(_) => Ok(None),
    }
}

fn word_form(alloc: Global, word: &str) -> Result<Option<Form>, AllocError>
    ensures { IfOk result (λ form. form ≡ word_form word.now) }
{
    match Keyword::of_word(word.as_bytes()) {
        Some(keyword) => Ok(Some(Form::Keyword(keyword))),
        None => identifier_form(alloc, word),
    }
}

fn version_form(alloc: Global, text: &str) -> Result<Option<Form>, AllocError>
    ensures { IfOk result (λ form. form ≡ version_form text.now) }
{
    if text.is_empty() {
        return Ok(None);
    }
    let version = Version::parse(alloc, text)?;
    Ok(version.map(Form::Version))
}

/// The number that digits are, behind a number that those before them are; `None` where it is above
/// 4,294,967,295.
#[tactic(auto, using(crate::proofs::DigitLaws::digit_laws))]
fn from_digits(digits: &[u8]) -> Option<u32>
    ensures { result ≡ from_digits 0 digits.now }
{
    let mut number: u32 = 0;
    for digit in digits {
        let units = u32::from(digit.saturating_sub(b'0'));
        number = number.checked_mul(10)?.checked_add(units)?;
    }
    Some(number)
}

fn integer_of(digits: &[u8]) -> Option<u32>
    ensures { result ≡ integer_of digits.now }
{
    match digits {
        [b'0', _, ..] => None,
        digits => from_digits(digits),
    }
}

fn comment_front(rest: &[u8]) -> Front
    ensures { result ≡ comment_front rest.now }
{
    match comment_length(rest) {
        Some(length) => Front::Gap(2 + length),
        None => Front::Bad,
    }
}

fn operator_front(byte: u8) -> Front
    ensures { result ≡ operator_front byte }
{
    token_front(Operator::of_byte(byte).map(Form::Operator), 1)
}

fn integer_front(text: &str) -> Front
    ensures { result ≡ integer_front text.now }
{
    let digits = Run::Digits.text(text);
    token_front(
        integer_of(digits.as_bytes()).map(Form::Integer),
        digits.len(),
    )
}

fn word_front(alloc: Global, text: &str) -> Result<Front, AllocError>
    ensures { IfOk result (λ f. f ≡ word_front text.now) }
{
    let word = Run::Word.text(text);
    Ok(token_front(word_form(alloc, word)?, word.len()))
}

/// What a text begins with behind a `%`.
fn escaped_front(alloc: Global, rest: &str) -> Result<Front, AllocError>
    ensures { IfOk result (λ f. f ≡ escaped_front rest.now) }
{
    let word = Run::Word.text(rest);
    Ok(token_front(identifier_form(alloc, word)?, 1 + word.len()))
}

fn version_front(alloc: Global, text: &str) -> Result<Front, AllocError>
    ensures { IfOk result (λ f. f ≡ version_front text.now) }
{
    if text.is_empty() {
        return Ok(Front::End);
    }
    let version = Run::Version.text(text);
    Ok(token_front(version_form(alloc, version)?, version.len()))
}

/// What a text begins with that begins with `/`.
fn slash_front(rest: &[u8]) -> Front
    ensures { result ≡ slash_front rest.now }
{
    match rest {
        [b'/', rest @ ..] => Front::Gap(2 + Run::Line.length(rest)),
        [b'*', rest @ ..] => comment_front(rest),
        _ => operator_front(b'/'),
    }
}

/// What a text begins with that begins with `-`.
fn hyphen_front(rest: &[u8]) -> Front
    ensures { result ≡ hyphen_front rest.now }
{
    match rest {
        [b'>', ..] => Front::Token(Form::Operator(Operator::Arrow), 2),
        _ => Front::Bad,
    }
}

/// A text without its first byte, which is ASCII.
fn behind_first(text: &str) -> &str
    requires { IsCharBoundary text.now 1 }
    ensures { result.now ≡ drop 1 text.now }
{
    let (_, rest) = text.split_at(1);
    rest
}

fn plain_front(alloc: Global, text: &str) -> Result<Front, AllocError>
    ensures { IfOk result (λ f. f ≡ front text.now) }
{
    let [first, rest @ ..] = text.as_bytes() else {
        return Ok(Front::End);
    };
    match *first {
        b' ' | b'\t' | b'\r' | b'\n' => Ok(Front::Gap(1)),
        b'/' => Ok(slash_front(rest)),
        b'-' => Ok(hyphen_front(rest)),
        b'%' => escaped_front(alloc, behind_first(text)),
        first if first.is_ascii_alphabetic() => word_front(alloc, text),
        first if first.is_ascii_digit() => Ok(integer_front(text)),
        first => Ok(operator_front(first)),
    }
}

fn begins_with_blank(text: &[u8]) -> bool
    ensures { IsTrue result → front text.now ≡ front_is.Gap 1 }
{
    matches!(text, [b' ' | b'\t' | b'\r' | b'\n', ..])
}

/// Whether a text begins with a blank, which directly behind an `@` is none.
pub fn is_blank_next(text: &str, behind_at: bool) -> bool
    ensures gap { IsTrue result → front_behind behind_at text.now ≡ front_is.Gap 1 }
    ensures boundary { IsTrue result → IsCharBoundary text.now 1 }
{
    if behind_at {
        return false;
    }
    begins_with_blank(text.as_bytes())
}

impl Front {
    /// What a text begins with, directly behind an `@` or elsewhere.
    pub fn of_text(alloc: Global, text: &str, behind_at: bool) -> Result<Front, AllocError>
        ensures front { IfOk result (λ f. f ≡ front_behind behind_at text.now) }
        ensures within { IfOk result (λ f. IsWithin f text.now) }
        ensures boundary { IfOk result (λ f. EndsAtChar f text.now) }
    {
        if behind_at {
            version_front(alloc, text)
        } else {
            plain_front(alloc, text)
        }
    }
}
