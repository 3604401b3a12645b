//! Whole texts.

ghost use Rattle.std.specs.Prelude.{◌≡◌, ◌⊎◌, ℕ, List, IfOk, IfErr, length};
ghost use Rattle.cm_wit_tokens.specs.Exact.{Lawful};
ghost use Rattle.cm_wit_tokens.specs.Whole.{Answers, GivesAll, IsFaultOf, IsMemory, IsTextOf};
ghost use Rattle.cm_wit_tokens.specs.Whole.{end_fault, place_fault, text_reads, whole};

use crate::Lexed;
use crate::cursor::Cursor;
use crate::fault::{ReadError, WitFault, WitReason};
use crate::lists::Item;
use std::alloc::Global;

/// The fault at the end of the tokens of a text of `size` bytes, or where `left` bytes are left and
/// none begins.
fn end_fault(size: usize, left: Option<usize>) -> WitFault
    ensures { result ≡ end_fault size left }
{
    match left {
        None => WitFault {
            at: size,
            reason: WitReason::Unexpected,
        },
        Some(left) => WitFault {
            at: size.saturating_sub(left),
            reason: WitReason::BadToken,
        },
    }
}

/// The fault of a reader that stands where `left` bytes are left, or at the end of the tokens.
fn place_fault(size: usize, stop: Option<usize>, left: Option<usize>, reason: WitReason) -> WitFault
    ensures { result ≡ place_fault size stop left reason }
{
    match left {
        None => end_fault(size, stop),
        Some(left) => WitFault {
            at: size.saturating_sub(left),
            reason,
        },
    }
}

/// Reads a value to the last token.
fn read_all<T: Item>(alloc: Global, cursor: &mut Cursor) -> Result<T, ReadError>
    ensures { GivesAll T.tree cursor.new result (whole T.grammar cursor.old) }
{
    let value = T::read(alloc, cursor)?;
    match cursor.next() {
        None => Ok(value),
        Some(_) => Err(cursor.unexpected()),
    }
}

/// Reads a text, or gives its first fault.
fn read_exactly<T: Item>(alloc: Global, text: &str) -> Result<T, WitFault>
    ensures { Answers T.tree (text_reads T.grammar text.now) result }
{
    let Lexed { tokens, stop } = Lexed::of_text(alloc, text)?;
    let mut cursor = Cursor::new(tokens);
    match read_all::<T>(alloc, &mut cursor) {
        Ok(value) => match stop {
            None => Ok(value),
            Some(left) => Err(end_fault(text.len(), Some(left))),
        },
        Err(ReadError::Memory) => Err(WitFault::MEMORY),
        Err(ReadError::Fault(reason)) => {
            Err(place_fault(text.len(), stop, cursor.left(), reason))
        }
    }
}

/// Reads a text that is one value from its first token to its last, in time linear in it. A fault
/// is the first one in reading order: `BadToken` where no token begins, else at the byte at which
/// the token at fault begins, or at the text's length; or it may be that memory is refused.
#[tactic(auto, using(crate::proofs::TextLaws::text_laws))]
pub fn read_text<T: Item>(alloc: Global, text: &str) -> Result<T, WitFault>
    requires { Lawful T.grammar }
    ensures exact { Answers T.tree (text_reads T.grammar text.now) result }
    ensures accepted { IfOk result (λ x. IsTextOf T.grammar (T.tree x) text.now) }
    ensures complete { (x : T.Tree) → IsTextOf T.grammar x text.now → IfErr result IsMemory }
    ensures refused { IfErr result (λ e. IsMemory e ⊎ IsFaultOf T.grammar text.now e) }
{
    read_exactly(alloc, text)
}
