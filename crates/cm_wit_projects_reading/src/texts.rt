//! Whole texts.

ghost use Rattle.std.specs.Prelude.{◌≡◌, ◌⊎◌, IfOk, IfErr, length};
ghost use Rattle.cm_wit_tokens.specs.Reading.{next_form};
ghost use Rattle.cm_wit_tokens.specs.Whole.{Answers, GivesAll, IsMemory, end_fault, place_fault};
ghost use Rattle.cm_wit_tokens.specs.Whole.{whole};
ghost use Rattle.cm_wit_projects_reading.specs.Files.{file};
ghost use Rattle.cm_wit_projects_reading.specs.Texts.{IsSourceFault, IsSourceOf, source_reads};
ghost use Rattle.cm_wit_projects_reading.specs.Texts.{told_reason};
ghost use Rattle.cm_wit_projects_reading.specs.Trees.{File};
ghost use Rattle.cm_wit_projects_reading.specs.Views.{file_tree};

use crate::file::WitFile;
use cm_wit_projects_tokens::lexed;
use cm_wit_tokens::{Cursor, Form, Item, Keyword, Lexed, ReadError, WitFault, WitReason};
use std::alloc::Global;

/// The fault at the end of the tokens of a text of `size` bytes, or where `left` bytes are left and
/// none begins.
fn end_fault(size: usize, left: Option<usize>) -> WitFault
    ensures { result ≡ end_fault size left }
{
    match left {
        None => WitFault {
            at: size,
            reason: WitReason::Unexpected,
        },
        Some(left) => WitFault {
            at: size.saturating_sub(left),
            reason: WitReason::BadToken,
        },
    }
}

/// The fault of a reader that stands where `left` bytes are left, or at the end of the tokens.
fn place_fault(size: usize, stop: Option<usize>, left: Option<usize>, reason: WitReason) -> WitFault
    ensures { result ≡ place_fault size stop left reason }
{
    match left {
        None => end_fault(size, stop),
        Some(left) => WitFault {
            at: size.saturating_sub(left),
            reason,
        },
    }
}

/// The reason of a fault at the next token: a word of a form that is read stands in a wrong place.
fn told_reason(cursor: &Cursor, reason: WitReason) -> WitReason
    ensures { result ≡ told_reason (next_form cursor.now) reason }
{
    match cursor.next() {
        Some(Form::Keyword(Keyword::Include | Keyword::From)) => WitReason::Unexpected,
        _ => reason,
    }
}

/// Reads a file to the last token.
fn read_all(alloc: Global, cursor: &mut Cursor) -> Result<WitFile, ReadError>
    ensures { GivesAll file_tree cursor.new result (whole file cursor.old) }
{
    let file = WitFile::read(alloc, cursor)?;
    match cursor.next() {
        None => Ok(file),
        Some(_) => Err(cursor.unexpected()),
    }
}

/// Reads a text, or gives its first fault.
fn read_exactly(alloc: Global, text: &str) -> Result<WitFile, WitFault>
    ensures { Answers file_tree (source_reads file text.now) result }
{
    let Lexed { tokens, stop } = lexed(alloc, text)?;
    let mut cursor = Cursor::new(tokens);
    match read_all(alloc, &mut cursor) {
        Ok(file) => match stop {
            None => Ok(file),
            Some(left) => Err(end_fault(text.len(), Some(left))),
        },
        Err(ReadError::Memory) => Err(WitFault::MEMORY),
        Err(ReadError::Fault(reason)) => {
            let reason = told_reason(&cursor, reason);
            Err(place_fault(text.len(), stop, cursor.left(), reason))
        }
    }
}

/// Reads a text as a file of a project, in time linear in it.
///
/// A fault is the first one in reading order, at a byte from 0: `BadToken` where no blank, comment
/// or token begins; else at the token with which no file goes on, or at the text's length. It is
/// `TooDeep` for a type more than 64 deep, `Unsupported` at a word of a form that is left out where
/// no type or function stands, else `Unexpected`. Or it may be that memory is refused. A type or a
/// function with a form that is left out is no fault: the tree says where the form begins.
pub fn read_file(alloc: Global, text: &str) -> Result<WitFile, WitFault>
    ensures exact { Answers file_tree (source_reads file text.now) result }
    ensures accepted { IfOk result (λ f. IsSourceOf file (file_tree f) text.now) }
    ensures complete { (f : File) → IsSourceOf file f text.now → IfErr result IsMemory }
    ensures refused { IfErr result (λ e. IsMemory e ⊎ IsSourceFault file text.now e) }
{
    read_exactly(alloc, text)
}
