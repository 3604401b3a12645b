//! Reading packages.

ghost use Rattle.std.specs.Prelude.{IfOk};
ghost use Rattle.cm_wit_names.specs.FileMentions.{mentions};
ghost use Rattle.cm_wit_names.specs.Rules.{IsFirstFault};
ghost use Rattle.cm_wit_reading.specs.Views.{file_tree};
ghost use Rattle.cm_wit_package.specs.Packages.{IsParsed};

use crate::package::Package;
use crate::places::name_place;
use cm_wit_names::{Names, mentions};
use cm_wit_reading::{WitFile, read_file};
use cm_wit_tokens::{WitFault, WitReason};
use std::alloc::{AllocError, Global};

/// The first fault of the names of a file.
fn first_fault(alloc: Global, file: &WitFile) -> Result<Option<(usize, WitReason)>, AllocError>
    ensures { IfOk result (IsFirstFault (mentions (file_tree file.now))) }
{
    let mentions = mentions(alloc, file)?;
    Names::new(alloc, mentions)?.first_fault(alloc)
}

/// Reads a text as a package, in time linear in it.
///
/// A text that is no file is refused with its first fault in reading order, at the byte, from 0, at
/// which the fault's token begins, or at the text's length: `BadToken`, `Unexpected`, `Unsupported`
/// or `TooDeep`. A file is refused with the first fault of its names, at the byte at which the name
/// begins: `Unexpected` at the first name in a result that leads to a borrow; else `Duplicate` at a
/// name that stands in its list already (ASCII case aside), `UnknownName` at one that nothing
/// declares, or `Cycle` at that of a declaration that leads to itself (WIT.md, "Packages and
/// Worlds"). Or it may be that memory is refused (`Memory`).
#[tactic(auto, using(crate::proofs::ParseLaws::parse_laws))]
pub fn parse(alloc: Global, text: &str) -> Result<Package, WitFault>
    ensures exact { IsParsed text.now result }
{
    let file = read_file(alloc, text)?;
    match first_fault(alloc, &file)? {
        None => Ok(Package { file }),
        Some((number, reason)) => Err(WitFault {
            at: name_place(alloc, text, number)?,
            reason,
        }),
    }
}
