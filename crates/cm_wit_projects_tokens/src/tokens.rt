//! The tokens of WIT texts that projects write, and where they stop.

ghost use Rattle.std.specs.Prelude.{◌≡◌, drop, IfOk};
ghost use Rattle.cm_wit_tokens.specs.LexedViews.{lexed_view};
ghost use Rattle.cm_wit_projects_tokens.specs.Tokens.{lexed, without_mark};

use crate::front::Front;
use crate::standing::Standing;
use cm_wit_tokens::{Lexed, Token};
use std::alloc::{AllocError, Global};
use std::collections::VecDeque;

/// A text without its first bytes, so many.
#[tactic(auto, using(crate::proofs::LexedLaws::behind_laws))]
fn behind(text: &[u8], length: usize) -> &[u8]
    ensures { result.now ≡ drop length text.now }
{
    if length <= text.len() {
        let (_, rest) = text.split_at(length);
        rest
    } else {
        &[]
    }
}

/// A text without the byte-order mark that it may begin with.
fn without_mark(text: &[u8]) -> &[u8]
    ensures { result.now ≡ without_mark text.now }
{
    match text {
        [0xEF, 0xBB, 0xBF, rest @ ..] => rest,
        _ => text,
    }
}

/// The tokens of a text, in time linear in it. Gates may stand in it (WIT.md, "Feature Gates"), and
/// a byte-order mark at its front. Refused only where there is no memory.
#[tactic(auto, using(crate::proofs::LexedLaws::lexed_laws))]
pub fn lexed(alloc: Global, text: &str) -> Result<Lexed, AllocError>
    ensures { IfOk result (λ l. lexed_view l ≡ lexed text.now) }
{
    let all = without_mark(text.as_bytes());
    let mut tokens = VecDeque::new(alloc);
    let mut rest = all;
    let mut standing = Standing::Plain;
    for _turn in 0..all.len() {
        match Front::of_text(alloc, rest, standing)? {
            Front::End => return Ok(Lexed { tokens, stop: None }),
            Front::Bad => {
                return Ok(Lexed {
                    tokens,
                    stop: Some(rest.len()),
                });
            }
            Front::Gap(length) => {
                rest = behind(rest, length);
                continue;
            }
            Front::Token(form, length) => {
                standing = standing.behind(&form);
                tokens.push_back(Token {
                    left: rest.len(),
                    form,
                })?;
                rest = behind(rest, length);
            }
        }
    }
    Ok(Lexed { tokens, stop: None })
}
