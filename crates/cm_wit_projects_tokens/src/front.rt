//! What stands at the front of a WIT text: a blank, a comment or a token.

ghost use Rattle.std.specs.Prelude.{◌≡◌, drop, IfOk};
ghost use Rattle.cm_wit_tokens.specs.Tokens.{comment_front, escaped_front, from_digits, front};
ghost use Rattle.cm_wit_tokens.specs.Tokens.{hyphen_front, identifier_form, integer_front};
ghost use Rattle.cm_wit_tokens.specs.Tokens.{integer_of, operator_front, slash_front, token_front};
ghost use Rattle.cm_wit_tokens.specs.Tokens.{version_form, version_front};
ghost use Rattle.std.specs.Char.{is_ascii_alphabetic, is_ascii_digit};
ghost use Rattle.cm_wit_projects_tokens.specs.Tokens.{begins, front_at, plain_front, reserved};
ghost use Rattle.cm_wit_projects_tokens.specs.Tokens.{word_form, word_front};
ghost use Rattle.cm_wit_projects_tokens.specs.Views.{front_view};

use crate::comment::comment_length;
use crate::run::Run;
use crate::standing::Standing;
use cm_types::{Label, NameFault};
use cm_wit_tokens::{Form, Keyword, Operator, Version};
use std::alloc::{AllocError, Global};

/// What a text begins with, and how many bytes that has.
#[derive(Drop)]
pub enum Front {
    /// Nothing: the text is empty.
    End,
    /// A blank or a comment.
    Gap(usize),
    Token(Form, usize),
    /// None of these.
    Bad,
}

fn token_front(form: Option<Form>, length: usize) -> Front
    ensures { front_view result ≡ token_front form length }
{
    match form {
        Some(form) => Front::Token(form, length),
        None => Front::Bad,
    }
}

fn identifier_form(alloc: Global, word: &str) -> Result<Option<Form>, AllocError>
    ensures { IfOk result (λ form. form ≡ identifier_form word.now) }
{
    match Label::parse(alloc, word) {
        Ok(label) => Ok(Some(Form::Identifier(label))),
        Err(NameFault::Memory) => Err(AllocError),
        Err(_) => Ok(None),
    }
}

/// The keyword whose token a word is, if it is one's.
fn reserved(word: &[u8]) -> Option<Keyword>
    ensures { result ≡ reserved word.now }
{
    if word == b"with".as_slice() {
        Some(Keyword::From)
    } else if word == b"from".as_slice() || word == b"map".as_slice() {
        Some(Keyword::Own)
    } else if word == b"error-context".as_slice() {
        Some(Keyword::Own)
    } else {
        Keyword::of_word(word)
    }
}

fn word_form(alloc: Global, word: &str) -> Result<Option<Form>, AllocError>
    ensures { IfOk result (λ form. form ≡ word_form word.now) }
{
    match reserved(word.as_bytes()) {
        Some(keyword) => Ok(Some(Form::Keyword(keyword))),
        None => identifier_form(alloc, word),
    }
}

fn version_form(alloc: Global, text: &str) -> Result<Option<Form>, AllocError>
    ensures { IfOk result (λ form. form ≡ version_form text.now) }
{
    if text.is_empty() {
        return Ok(None);
    }
    let version = Version::parse(alloc, text)?;
    Ok(version.map(Form::Version))
}

/// The number that digits are; `None` where it is above 4,294,967,295.
#[tactic(auto, using(crate::proofs::DigitLaws::digit_laws))]
fn from_digits(digits: &[u8]) -> Option<u32>
    ensures { result ≡ from_digits 0 digits.now }
{
    let mut number: u32 = 0;
    for digit in digits {
        let units = u32::from(digit.saturating_sub(b'0'));
        number = number.checked_mul(10)?.checked_add(units)?;
    }
    Some(number)
}

fn integer_of(digits: &[u8]) -> Option<u32>
    ensures { result ≡ integer_of digits.now }
{
    match digits {
        [b'0', _, ..] => None,
        digits => from_digits(digits),
    }
}

fn comment_front(rest: &[u8]) -> Front
    ensures { front_view result ≡ comment_front rest.now }
{
    match comment_length(rest) {
        Some(length) => Front::Gap(2 + length),
        None => Front::Bad,
    }
}

fn operator_front(byte: u8) -> Front
    ensures { front_view result ≡ operator_front byte }
{
    token_front(Operator::of_byte(byte).map(Form::Operator), 1)
}

fn integer_front(text: &[u8]) -> Front
    ensures { front_view result ≡ integer_front text.now }
{
    let digits = Run::Digits.text(text);
    token_front(
        integer_of(digits.as_bytes()).map(Form::Integer),
        digits.len(),
    )
}

fn word_front(alloc: Global, text: &[u8]) -> Result<Front, AllocError>
    ensures { IfOk result (λ f. front_view f ≡ word_front text.now) }
{
    let word = Run::Word.text(text);
    Ok(token_front(word_form(alloc, word)?, word.len()))
}

/// What a text begins with behind a `%`.
fn escaped_front(alloc: Global, rest: &[u8]) -> Result<Front, AllocError>
    ensures { IfOk result (λ f. front_view f ≡ escaped_front rest.now) }
{
    let word = Run::Word.text(rest);
    Ok(token_front(identifier_form(alloc, word)?, 1 + word.len()))
}

fn version_front(alloc: Global, text: &[u8]) -> Result<Front, AllocError>
    ensures { IfOk result (λ f. front_view f ≡ version_front text.now) }
{
    if text.is_empty() {
        return Ok(Front::End);
    }
    let version = Run::Version.text(text);
    Ok(token_front(version_form(alloc, version)?, version.len()))
}

/// What a text begins with that begins with `/`.
fn slash_front(rest: &[u8]) -> Front
    ensures { front_view result ≡ slash_front rest.now }
{
    match rest {
        [b'/', rest @ ..] => Front::Gap(2 + Run::Line.length(rest)),
        [b'*', rest @ ..] => comment_front(rest),
        _ => operator_front(b'/'),
    }
}

/// What a text begins with that begins with `-`.
fn hyphen_front(rest: &[u8]) -> Front
    ensures { front_view result ≡ hyphen_front rest.now }
{
    match rest {
        [b'>', ..] => Front::Token(Form::Operator(Operator::Arrow), 2),
        _ => Front::Bad,
    }
}

/// What a text begins with in no gate.
fn plain_front(alloc: Global, text: &[u8]) -> Result<Front, AllocError>
    ensures { IfOk result (λ f. front_view f ≡ plain_front text.now) }
{
    let [first, rest @ ..] = text else {
        return Ok(Front::End);
    };
    match *first {
        b' ' | b'\t' | b'\r' | b'\n' => Ok(Front::Gap(1)),
        b'/' => Ok(slash_front(rest)),
        b'-' => Ok(hyphen_front(rest)),
        b'%' => escaped_front(alloc, rest),
        first if first.is_ascii_alphabetic() => word_front(alloc, text),
        first if first.is_ascii_digit() => Ok(integer_front(text)),
        first => Ok(operator_front(first)),
    }
}

fn begins_with_letter(text: &[u8]) -> bool
    ensures { result ≡ begins is_ascii_alphabetic text.now }
{
    matches!(text, [first, ..] if first.is_ascii_alphabetic())
}

fn begins_with_digit(text: &[u8]) -> bool
    ensures { result ≡ begins is_ascii_digit text.now }
{
    matches!(text, [first, ..] if first.is_ascii_digit())
}

impl Front {
    /// What a text begins with, whose first token would stand there.
    pub fn of_text(alloc: Global, text: &[u8], standing: Standing) -> Result<Front, AllocError>
        ensures { IfOk result (λ f. front_view f ≡ front_at standing text.now) }
    {
        match standing {
            Standing::BehindAt if !begins_with_letter(text) => version_front(alloc, text),
            Standing::InGate if begins_with_digit(text) => version_front(alloc, text),
            _ => plain_front(alloc, text),
        }
    }
}
