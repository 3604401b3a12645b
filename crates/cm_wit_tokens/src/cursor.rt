//! Tokens that are read from the front on.

ghost use Rattle.std.specs.Prelude.{◌≡◌, [], ◌∷◌, option_copied, MatchOption, Err};
ghost use Rattle.cm_wit_tokens.specs.Forms.{is_keyword, is_operator};
ghost use Rattle.cm_wit_tokens.specs.Grammar.{first, passes, token};
ghost use Rattle.cm_wit_tokens.specs.Reading.{Reads, next_form, next_left};
ghost use Rattle.cm_wit_tokens.specs.Parts.{expect, expect_word, identifier, length, version_of};
ghost use Rattle.cm_wit_tokens.specs.Parts.{no_file_item, no_item, other_fault, unexpected};
ghost use Rattle.cm_wit_tokens.specs.Parts.{unexpected_file_item, unexpected_item};

use crate::fault::{ReadError, WitReason};
use crate::{Form, Keyword, Label, Operator, Token, Version};
use std::collections::VecDeque;
use std::marker::Model;

/// The tokens that are left. A reader that answers a fault has left those from its place on.
///
/// Contracts see a cursor as the list of these tokens.
#[derive(Drop)]
pub struct Cursor {
    tokens: VecDeque<Token>,
}

impl Model for Cursor {
    ghost use Rattle.std.specs.Prelude.{List};
    ghost use Rattle.cm_wit_tokens.specs.declared.token.Token.{Token};

    ghost Value = { List Token };

    ghost view = { λ cursor. cursor.tokens.items };
}

/// The reason for which a token is no part of what is wanted: some keywords begin forms of WIT that
/// are not read.
fn other_fault(form: &Form) -> WitReason
    ensures { result ≡ other_fault form.now }
{
    match form {
        Form::Keyword(
            Keyword::Include
            | Keyword::Own
            | Keyword::F32
            | Keyword::F64
            | Keyword::Stream
            | Keyword::Future
            | Keyword::Async
            | Keyword::From,
        ) => WitReason::Unsupported,
        _ => WitReason::Unexpected,
    }
}

/// The reason for which a token begins no item: `@` begins a gate, and gates are not read.
fn no_item(form: &Form) -> WitReason
    ensures { result ≡ no_item form.now }
{
    match form {
        Form::Operator(Operator::At) => WitReason::Unsupported,
        form => other_fault(form),
    }
}

/// The reason for which a token begins no item of a file, where no `use` is read either.
fn no_file_item(form: &Form) -> WitReason
    ensures { result ≡ no_file_item form.now }
{
    match form {
        Form::Keyword(Keyword::Use) => WitReason::Unsupported,
        form => no_item(form),
    }
}

impl Cursor {
    /// A cursor before the first token.
    pub fn new(tokens: VecDeque<Token>) -> Cursor
        ensures { result ≡ tokens.items }
    {
        Cursor { tokens }
    }

    /// What the next token is, if there is one.
    pub fn next(&self) -> Option<&Form>
        ensures { option_copied result ≡ next_form self.now }
    {
        match self.tokens.front() {
            Some(token) => Some(&token.form),
            None => None,
        }
    }

    /// How many bytes of the text are left from the next token on, if there is one.
    pub fn left(&self) -> Option<usize>
        ensures { result ≡ next_left self.now }
    {
        match self.tokens.front() {
            Some(token) => Some(token.left),
            None => None,
        }
    }

    /// Takes the next token, if there is one.
    pub fn take(&mut self) -> Option<Token>
        ensures { MatchOption result ((self.old ≡ []) × (self.new ≡ []))
            (λ t. self.old ≡ t ∷ self.new) }
    {
        self.tokens.pop_front()
    }

    /// Whether the next token is this operator.
    pub fn next_is(&self, operator: Operator) -> bool
        ensures { result ≡ passes (is_operator operator) (first self.now) }
    {
        match self.next() {
            Some(form) => form.is_operator(operator),
            None => false,
        }
    }

    /// Whether the next token is this keyword.
    pub fn next_is_keyword(&self, keyword: Keyword) -> bool
        ensures { result ≡ passes (is_keyword keyword) (first self.now) }
    {
        match self.next() {
            Some(form) => form.is_keyword(keyword),
            None => false,
        }
    }

    /// The fault of the next token, or of its want.
    pub fn unexpected(&self) -> ReadError
        ensures { result ≡ unexpected self.now }
    {
        match self.next() {
            Some(form) => ReadError::Fault(other_fault(form)),
            None => ReadError::Fault(WitReason::Unexpected),
        }
    }

    /// The fault of the next token where an item is wanted.
    pub fn unexpected_item(&self) -> ReadError
        ensures { result ≡ unexpected_item self.now }
    {
        match self.next() {
            Some(form) => ReadError::Fault(no_item(form)),
            None => ReadError::Fault(WitReason::Unexpected),
        }
    }

    /// The fault of the next token where an item of a file is wanted.
    pub fn unexpected_file_item(&self) -> ReadError
        ensures { result ≡ unexpected_file_item self.now }
    {
        match self.next() {
            Some(form) => ReadError::Fault(no_file_item(form)),
            None => ReadError::Fault(WitReason::Unexpected),
        }
    }

    /// Reads this operator.
    pub fn expect(&mut self, operator: Operator) -> Result<(), ReadError>
        ensures { Reads (expect operator) (λ x. x) self.old self.new result }
    {
        if self.next_is(operator) {
            self.take();
            Ok(())
        } else {
            Err(self.unexpected())
        }
    }

    /// Reads this keyword.
    pub fn expect_keyword(&mut self, keyword: Keyword) -> Result<(), ReadError>
        ensures { Reads (expect_word keyword) (λ x. x) self.old self.new result }
    {
        if self.next_is_keyword(keyword) {
            self.take();
            Ok(())
        } else {
            Err(self.unexpected())
        }
    }

    /// Reads an identifier.
    pub fn identifier(&mut self) -> Result<Label, ReadError>
        ensures { Reads identifier (λ x. x) self.old self.new result }
    {
        let Some(Form::Identifier(_)) = self.next() else {
            return Err(self.unexpected());
        };
        match self.take() {
            Some(
                Token {
                    form: Form::Identifier(label),
                    ..
                },
            ) => Ok(label),
            _ => unreachable!(),
        }
    }

    /// Reads the version of a package.
    pub fn version(&mut self) -> Result<Version, ReadError>
        ensures { Reads (token version_of) (λ x. x) self.old self.new result }
    {
        let Some(Form::Version(_)) = self.next() else {
            return Err(self.unexpected());
        };
        match self.take() {
            Some(
                Token {
                    form: Form::Version(version),
                    ..
                },
            ) => Ok(version),
            _ => unreachable!(),
        }
    }

    /// Reads the length of a list of fixed length. A length of 0 is unexpected.
    pub fn length(&mut self) -> Result<u32, ReadError>
        ensures { Reads length (λ x. x) self.old self.new result }
    {
        match self.next() {
            Some(Form::Integer(number)) if *number > 0 => {
                let number = *number;
                self.take();
                Ok(number)
            }
            _ => Err(self.unexpected()),
        }
    }
}
