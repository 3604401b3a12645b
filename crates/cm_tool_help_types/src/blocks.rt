//! The lines of a component that is shown, import by import and export by export.

use std::alloc::{AllocError, Global};
use std::collections::BTreeMap;

/// What a signature's text is searched for.
#[derive(Clone, Copy, PartialEq, Eq)]
pub(crate) enum Side {
    Imports,
    Exports,
}

impl Side {
    /// What the first line of an import or an export begins with.
    pub(crate) fn front(self) -> &'static str {
        match self {
            Side::Imports => "import ",
            Side::Exports => "export ",
        }
    }
}

/// An import or an export: its name, the rest of its line, and the lines of its items.
#[derive(Clone, Copy)]
pub(crate) struct Block<'a> {
    pub name: &'a str,
    pub what: &'a str,
    pub items: &'a str,
}

/// An item of an instance: its name, and what it is.
#[derive(Clone, Copy)]
pub(crate) struct ItemLine<'a> {
    pub name: &'a str,
    pub what: &'a str,
}

/// The import or the export that begins at the front of a text.
pub(crate) fn block_at<'a>(text: &'a str, side: Side) -> Option<Block<'a>> {
    let behind = text.strip_prefix(side.front())?;
    let (line, items) = behind.split_once('\n')?;
    let (name, what) = line.split_once(' ')?;
    Some(Block { name, what, items })
}

/// The import or the export of this number.
pub(crate) fn numbered(text: &str, side: Side, number: usize) -> Option<Block<'_>> {
    let mut at: usize = 0;
    let mut left = number;
    for line in text.split('\n') {
        if line.starts_with(side.front()) {
            if left == 0 {
                return block_at(text.get(at..)?, side);
            }
            left -= 1;
        }
        at = at.saturating_add(line.len()).saturating_add(1);
    }
    None
}

/// The first import or export of a name for which this holds.
pub(crate) fn first_named<'a, P: Fn(&'a str) -> bool>(
    text: &'a str,
    side: Side,
    is_wanted: P,
) -> Option<Block<'a>>
    requires { P.IsAlwaysCallable is_wanted }
{
    let mut at: usize = 0;
    for line in text.split('\n') {
        if line.starts_with(side.front()) {
            let block = block_at(text.get(at..)?, side)?;
            if is_wanted(block.name) {
                return Some(block);
            }
        }
        at = at.saturating_add(line.len()).saturating_add(1);
    }
    None
}

/// What the line of an item says: `  func f (x: u32)` and `  type t u32`.
fn item_of(line: &str) -> Option<ItemLine<'_>> {
    let behind = line.strip_prefix("  ")?;
    let (_, behind) = behind.split_once(' ')?;
    let (name, _) = behind.split_once(' ')?;
    Some(ItemLine {
        name,
        what: line.strip_prefix("  ")?,
    })
}

/// The item that the line at the front of a text is.
pub(crate) fn item_at(text: &str) -> Option<ItemLine<'_>> {
    let (line, _) = text.split_once('\n')?;
    item_of(line)
}

/// What each item of an instance is, by its name.
type Whats<'a> = BTreeMap<&'a str, &'a str>;

fn whats_of<'a>(alloc: Global, block: Block<'a>) -> Result<Whats<'a>, AllocError> {
    let mut whats = BTreeMap::new(alloc);
    for line in block.items.split('\n') {
        let Some(item) = item_of(line) else {
            return Ok(whats);
        };
        whats.insert(item.name, item.what)?;
    }
    Ok(whats)
}

/// What the first item of an instance is that another one has not.
pub(crate) fn first_missing<'a>(
    alloc: Global,
    own: Block<'a>,
    other: Block<'a>,
) -> Result<Option<&'a str>, AllocError> {
    let whats = whats_of(alloc, other)?;
    for line in own.items.split('\n') {
        let Some(item) = item_of(line) else {
            return Ok(None);
        };
        if whats.get(&item.name).is_none() {
            return Ok(Some(item.what));
        }
    }
    Ok(None)
}

/// What the first item of an instance is that another one has as something else, and what that is.
pub(crate) fn first_changed<'a>(
    alloc: Global,
    own: Block<'a>,
    other: Block<'a>,
) -> Result<Option<(&'a str, &'a str)>, AllocError> {
    let whats = whats_of(alloc, other)?;
    for line in own.items.split('\n') {
        let Some(item) = item_of(line) else {
            return Ok(None);
        };
        match whats.get(&item.name) {
            Some(found) if !is_alike(item.what, found) => return Ok(Some((item.what, *found))),
            _ => {}
        }
    }
    Ok(None)
}

/// Whether two lines are the same but for the numbers of resources, which count anew in each
/// component.
fn is_alike(a: &str, b: &str) -> bool {
    let mut others = b.split('#');
    for part in a.split('#') {
        match others.next() {
            Some(other) if behind_number(part) == behind_number(other) => {}
            _ => return false,
        }
    }
    others.next().is_none()
}

fn behind_number(part: &str) -> &str {
    part.trim_start_matches(|c: char| c.is_ascii_digit())
}
