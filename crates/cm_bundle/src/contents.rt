//! What stands in a bundle, open or closed.

ghost use Rattle.std.specs.Prelude.{◌≡◌, ◌≤◌, length, map};
ghost use Rattle.cm_binary_grammar.specs.Reading.{Reads};
ghost use Rattle.cm_bundle.specs.Bundles.{behind_front, open_content, content};
ghost use Rattle.cm_bundle.specs.Trees.{content_tree, group_tree};

use crate::fault::BundleReason;
use crate::form::{Content, ImportGroup, MAX_PARTS};
use crate::fronts::{read_front, spaces_behind};
use crate::parts::read_body;
use cm_binary_grammar::{Cursor, ReadError};
use std::alloc::Global;

/// Reads what a bundle imports, its parts, and its exports.
pub fn read_content<'a>(
    alloc: Global,
    bytes: &mut Cursor<'a, BundleReason>,
) -> Result<Content<'a>, ReadError<BundleReason>>
    ensures read { Reads content content_tree bytes.old bytes.new result }
    ensures end { bytes.new.end ≡ bytes.old.end }
{
    match bytes.rest.first() {
        None => Err(bytes.want()),
        Some(first) if *first == 0x07 => read_open(alloc, bytes),
        Some(_) => read_behind(alloc, bytes, Vec::new(alloc)),
    }
}

/// Reads the front of an open bundle, and what stands behind it.
#[tactic(auto, unfolding(crate::specs::Bundles::open_content))]
fn read_open<'a>(
    alloc: Global,
    bytes: &mut Cursor<'a, BundleReason>,
) -> Result<Content<'a>, ReadError<BundleReason>>
    ensures read { Reads open_content content_tree bytes.old bytes.new result }
    ensures end { bytes.new.end ≡ bytes.old.end }
{
    let front = read_front(alloc, bytes)?;
    read_behind(alloc, bytes, front)
}

/// Reads the parts and the exports behind a front.
#[tactic(auto, unfolding(crate::specs::Bundles::behind_front))]
fn read_behind<'a>(
    alloc: Global,
    bytes: &mut Cursor<'a, BundleReason>,
    front: Vec<ImportGroup<'a>>,
) -> Result<Content<'a>, ReadError<BundleReason>>
    requires { length front.items ≤ MAX_PARTS }
    ensures read { Reads (behind_front (map group_tree front.entry.items))
        content_tree bytes.old bytes.new result }
    ensures end { bytes.new.end ≡ bytes.old.end }
{
    let spaces = spaces_behind(alloc, &front)?;
    let body = read_body(alloc, bytes, spaces)?;
    Ok(Content { front, body })
}
