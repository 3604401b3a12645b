//! The tokens of WIT texts, and where they stop.

ghost use Rattle.std.specs.Prelude.{◌≡◌, IfOk};
ghost use Rattle.cm_wit_tokens.specs.Tokens.{lexed};
ghost use Rattle.cm_wit_tokens.specs.LexedViews.{lexed_view};

use crate::front::{Front, is_blank_next};
use crate::token::Token;
use std::alloc::{AllocError, Global};
use std::collections::VecDeque;

/// The tokens of a text in order, up to its end or to the first place where no blank, comment or
/// token begins.
#[derive(Drop)]
pub struct Lexed {
    pub tokens: VecDeque<Token>,
    /// How many bytes of the text are left at that place, if there is one.
    pub stop: Option<usize>,
}

impl Lexed {
    #[tactic(auto, using(crate::proofs::LexedLaws::lexed_laws))]
    /// The tokens of a text, in time linear in it. Refused only where there is no memory.
    pub fn of_text(alloc: Global, text: &str) -> Result<Lexed, AllocError>
        ensures { IfOk result (λ tokens. lexed_view tokens ≡ lexed text.now) }
    {
        let mut tokens = VecDeque::new(alloc);
        let mut rest = text;
        let mut behind_at = false;
        loop {
            if is_blank_next(rest, behind_at) {
                behind_at = false;
                (_, rest) = rest.split_at(1);
                continue;
            }
            match Front::of_text(alloc, rest, behind_at)? {
                Front::End => return Ok(Lexed { tokens, stop: None }),
                Front::Bad => {
                    return Ok(Lexed {
                        tokens,
                        stop: Some(rest.len()),
                    });
                }
                Front::Gap(length) => {
                    behind_at = false;
                    (_, rest) = rest.split_at(length);
                }
                Front::Token(form, length) => {
                    behind_at = form.is_at();
                    tokens.push_back(Token {
                        left: rest.len(),
                        form,
                    })?;
                    (_, rest) = rest.split_at(length);
                }
            }
        }
    }
}
