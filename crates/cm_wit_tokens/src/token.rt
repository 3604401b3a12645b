//! The tokens of WIT texts.

ghost use Rattle.std.specs.Prelude.{◌≡◌};
ghost use Rattle.cm_wit_tokens.specs.Tokens.{is_at};
ghost use Rattle.cm_wit_tokens.specs.Forms.{is_operator, is_keyword};

use crate::Version;
use crate::keyword::Keyword;
use crate::operator::Operator;
use cm_types::Label;

/// What a token is (WIT.md, "Lexical structure").
#[derive(Drop)]
pub enum Form {
    Operator(Operator),
    Keyword(Keyword),
    /// A label that is no keyword, or any label behind `%`.
    Identifier(Label),
    /// What stands directly behind `@`.
    Version(Version),
    /// Decimal digits, at most 4,294,967,295, with no zero in front.
    Integer(u32),
}

impl Form {
    /// Whether a version is to stand directly behind the token.
    pub fn is_at(&self) -> bool
        ensures { result ≡ is_at self.now }
    {
        matches!(self, Form::Operator(Operator::At))
    }

    /// Whether the token is this operator.
    #[tactic(auto, using(crate::proofs::SpellingLaws::spelling_laws))]
    pub fn is_operator(&self, operator: Operator) -> bool
        ensures { result ≡ is_operator operator self.now }
    {
        match self {
            Form::Operator(found) => found.is(operator),
            _ => false,
        }
    }

    /// Whether the token is this keyword.
    #[tactic(auto, using(crate::proofs::SpellingLaws::spelling_laws))]
    pub fn is_keyword(&self, keyword: Keyword) -> bool
        ensures { result ≡ is_keyword keyword self.now }
    {
        match self {
            Form::Keyword(found) => found.is(keyword),
            _ => false,
        }
    }
}

/// A token, and how many bytes of the text are left from its first byte on.
#[derive(Drop)]
pub struct Token {
    pub left: usize,
    pub form: Form,
}
