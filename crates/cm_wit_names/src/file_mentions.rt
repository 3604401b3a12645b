//! The mentions in files.

ghost use Rattle.std.specs.Prelude.{◌≡◌, IfOk, OnOk, map};
ghost use Rattle.cm_wit_reading.specs.Views.{file_item_tree, file_tree};
ghost use Rattle.cm_wit_names.specs.FileMentions.{file_item_marks, file_marks, mentions};
ghost use Rattle.cm_wit_names.specs.Marks.{each};
ghost use Rattle.cm_wit_names.specs.MentionViews.{Adds, mention_view};

use crate::adding::{add, bare};
use crate::interface_mentions::add_interface;
use crate::mention::Mention;
use crate::world_mentions::add_world;
use cm_wit_reading::{FileItem, WitFile};
use std::alloc::{AllocError, Global};

/// Adds the interfaces and worlds of a file.
#[tactic(auto, using(crate::proofs::AddLaws::add_laws))]
fn add_items<'a>(
    out: &mut Vec<Mention<'a>>,
    file: &'a WitFile,
    items: &'a [FileItem],
) -> Result<(), AllocError>
    ensures { OnOk result (Adds
        (each (file_item_marks (file_tree file.now)) (map file_item_tree items.now))
        out.old out.new) }
{
    for item in items {
        match item {
            FileItem::Interface(interface) => add_interface(out, interface)?,
            FileItem::World(world) => add_world(out, file, world)?,
        }
    }
    Ok(())
}

/// Adds what each name of a file declares and refers to.
#[tactic(auto, using(crate::proofs::AddLaws::add_laws))]
fn add_file<'a>(out: &mut Vec<Mention<'a>>, file: &'a WitFile) -> Result<(), AllocError>
    ensures { OnOk result (Adds (file_marks (file_tree file.now)) out.old out.new) }
{
    add(out, bare())?;
    add(out, bare())?;
    add_items(out, file, &file.items)?;
    Ok(())
}

/// What each name of a file declares and refers to, in reading order, in time linear in the file.
/// Refused only where there is no memory.
pub fn mentions<'a>(alloc: Global, file: &'a WitFile) -> Result<Vec<Mention<'a>>, AllocError>
    ensures { IfOk result (λ v. map mention_view v.items ≡ mentions (file_tree file.now)) }
{
    let mut out = Vec::new(alloc);
    add_file(&mut out, file)?;
    Ok(out)
}
