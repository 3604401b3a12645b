//! Where a token stands, as to gates.

ghost use Rattle.std.specs.Prelude.{◌≡◌};
ghost use Rattle.cm_wit_projects_tokens.specs.Gates.{behind_mark, standing_behind};

use cm_wit_tokens::{Form, Operator};

/// Where the next token of a text stands, as to gates (WIT.md, "Feature Gates").
#[derive(Clone, Copy)]
pub enum Standing {
    /// In no gate.
    Plain,
    /// Directly behind an `@`.
    BehindAt,
    /// Behind the word of a gate.
    BehindWord,
    /// In the parentheses of a gate.
    InGate,
}

impl Standing {
    /// Where the token behind a mark stands.
    fn behind_mark(self, mark: Operator) -> Standing
        ensures { result ≡ behind_mark self mark }
    {
        match (self, mark) {
            (_, Operator::At) => Standing::BehindAt,
            (Standing::BehindWord, Operator::LeftParenthesis) => Standing::InGate,
            (Standing::InGate, Operator::RightParenthesis) => Standing::Plain,
            (Standing::InGate, _) => Standing::InGate,
            _ => Standing::Plain,
        }
    }

    /// Where the token behind a token stands.
    pub fn behind(self, form: &Form) -> Standing
        ensures { result ≡ standing_behind self form.now }
    {
        match (self, form) {
            (_, Form::Operator(mark)) => self.behind_mark(*mark),
            (Standing::BehindAt, Form::Identifier(_)) => Standing::BehindWord,
            (Standing::InGate, _) => Standing::InGate,
            _ => Standing::Plain,
        }
    }
}
