//! What the text of a world imports and exports.

ghost use Rattle.std.specs.Prelude.{◌≡◌, ◌+◌, ◌<◌, ◌^◌, ◌++◌, ℕ, [], IfOk, OnOk, map};
ghost use Rattle.cm_wit_reading.specs.Views.{extern_tree, world_item_tree};
ghost use Rattle.cm_wit_worlds.specs.InterfaceViews.{files_of};
ghost use Rattle.cm_wit_worlds.specs.Externs.{exports_from, extern_number, imports_from};

use crate::Directory;
use cm_wit_reading::{WorldExtern, WorldItem};
use std::alloc::{AllocError, Global};

/// The number of what an item is. Refused only where there is no memory.
fn extern_number<'a>(
    directory: &Directory<'a>,
    alloc: Global,
    place: usize,
    number: usize,
    what: &WorldExtern,
) -> Result<Option<usize>, AllocError>
    ensures { (j : ℕ) (count : ℕ) → count + j ≡ number → IfOk result (λ n. n
        ≡ extern_number (files_of directory.now.files.items) place count j (extern_tree what.now)) }
{
    match what {
        WorldExtern::Interface(path) => directory.target(alloc, place, path),
        WorldExtern::Func(_, _) => Ok(Some(number)),
    }
}

/// The numbers of what the items of a world import. Refused only where there is no memory.
#[tactic(auto, using(crate::proofs::ListLaws::import_laws))]
pub fn written_imports<'a>(
    directory: &Directory<'a>,
    alloc: Global,
    place: usize,
    count: usize,
    items: &[WorldItem],
) -> Result<Vec<Option<usize>>, AllocError>
    requires { count < 2 ^ 63 }
    ensures { IfOk result (λ v. v.items ≡ imports_from (files_of directory.now.files.items) place
        count 0 (map world_item_tree items.now)) }
{
    let mut out = Vec::new(alloc);
    for (index, item) in items.iter().enumerate() {
        if let WorldItem::Import(what) = item {
            out.push(extern_number(directory, alloc, place, count + index, what)?)?;
        }
    }
    Ok(out)
}

/// The numbers of what the items of a world export. Refused only where there is no memory.
#[tactic(auto, using(crate::proofs::ListLaws::import_laws))]
pub fn written_exports<'a>(
    directory: &Directory<'a>,
    alloc: Global,
    place: usize,
    count: usize,
    items: &[WorldItem],
) -> Result<Vec<Option<usize>>, AllocError>
    requires { count < 2 ^ 63 }
    ensures { IfOk result (λ v. v.items ≡ exports_from (files_of directory.now.files.items) place
        count 0 (map world_item_tree items.now)) }
{
    let mut out = Vec::new(alloc);
    for (index, item) in items.iter().enumerate() {
        if let WorldItem::Export(what) = item {
            out.push(extern_number(directory, alloc, place, count + index, what)?)?;
        }
    }
    Ok(out)
}

/// Adds numbers.
#[tactic(auto, using(crate::proofs::ListLaws::import_laws))]
fn add_all(out: &mut Vec<Option<usize>>, numbers: &[Option<usize>]) -> Result<(), AllocError>
    ensures { OnOk result (out.new.items ≡ out.old.items ++ numbers.now) }
{
    for number in numbers {
        out.push(*number)?;
    }
    Ok(())
}

/// Two lists of numbers, one behind the other. Refused only where there is no memory.
pub fn joined(
    alloc: Global,
    front: &[Option<usize>],
    rest: &[Option<usize>],
) -> Result<Vec<Option<usize>>, AllocError>
    ensures { IfOk result (λ v. v.items ≡ front.now ++ rest.now) }
{
    let mut out = Vec::new(alloc);
    add_all(&mut out, front)?;
    add_all(&mut out, rest)?;
    Ok(out)
}
