//! The operators of WIT texts.

ghost use Rattle.std.specs.Prelude.{◌≡◌, ◌≢◌, true, false};
ghost use Rattle.cm_wit_tokens.specs.Operators.{operator_of, operator_spelling};

/// A mark of one byte, or the arrow of two (WIT.md, "Operators and Packages delimiters").
#[derive(Clone, Copy, PartialEq, Eq)]
pub enum Operator {
    Equals,
    Comma,
    Colon,
    Semicolon,
    LeftParenthesis,
    RightParenthesis,
    LeftBrace,
    RightBrace,
    LessThan,
    GreaterThan,
    /// `->`
    Arrow,
    Slash,
    Period,
    At,
    Underscore,
}

impl Operator {
    /// The operator in a text.
    pub fn as_str(self) -> &'static str
        ensures { result.now ≡ operator_spelling self }
    {
        match self {
            Operator::Equals => "=",
            Operator::Comma => ",",
            Operator::Colon => ":",
            Operator::Semicolon => ";",
            Operator::LeftParenthesis => "(",
            Operator::RightParenthesis => ")",
            Operator::LeftBrace => "{",
            Operator::RightBrace => "}",
            Operator::LessThan => "<",
            Operator::GreaterThan => ">",
            Operator::Arrow => "->",
            Operator::Slash => "/",
            Operator::Period => ".",
            Operator::At => "@",
            Operator::Underscore => "_",
        }
    }

    /// Whether it is this operator.
    pub(crate) fn is(self, other: Operator) -> bool
        ensures same { result ≡ true → self ≡ other }
        ensures other { result ≡ false → self ≢ other }
    {
        self == other
    }

    /// The operator that one byte is, if it is one.
    pub fn of_byte(byte: u8) -> Option<Operator>
        ensures { result ≡ operator_of byte }
    {
        match byte {
            b'=' => Some(Operator::Equals),
            b',' => Some(Operator::Comma),
            b':' => Some(Operator::Colon),
            b';' => Some(Operator::Semicolon),
            b'(' => Some(Operator::LeftParenthesis),
            b')' => Some(Operator::RightParenthesis),
            b'{' => Some(Operator::LeftBrace),
            b'}' => Some(Operator::RightBrace),
            b'<' => Some(Operator::LessThan),
            b'>' => Some(Operator::GreaterThan),
            b'/' => Some(Operator::Slash),
            b'.' => Some(Operator::Period),
            b'@' => Some(Operator::At),
            b'_' => Some(Operator::Underscore),
            _ => None,
        }
    }
}
