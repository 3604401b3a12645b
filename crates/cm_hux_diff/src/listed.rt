//! The lines of a text that shows a signature.

use std::alloc::{AllocError, Global};

/// An item of an instance: its sort, its name, and what it is.
#[derive(Clone, Copy)]
pub(crate) struct Item<'a> {
    pub(crate) sort: &'a str,
    pub(crate) name: &'a str,
    pub(crate) what: &'a str,
}

/// An import or an export: its name, what it is, and the items of an instance.
#[derive(Drop)]
pub(crate) struct Block<'a> {
    pub(crate) name: &'a str,
    pub(crate) what: &'a str,
    pub(crate) items: Vec<Item<'a>>,
}

/// All imports and exports, in order.
#[derive(Drop)]
pub(crate) struct Listed<'a> {
    pub(crate) imports: Vec<Block<'a>>,
    pub(crate) exports: Vec<Block<'a>>,
}

impl<'a> Listed<'a> {
    /// Those that a text shows.
    pub(crate) fn read(alloc: Global, text: &'a str) -> Result<Listed<'a>, AllocError> {
        let mut listed = Listed {
            imports: Vec::new(alloc),
            exports: Vec::new(alloc),
        };
        for line in text.split('\n') {
            listed.add_line(alloc, line)?;
        }
        Ok(listed)
    }

    fn add_line(&mut self, alloc: Global, line: &'a str) -> Result<(), AllocError> {
        if let Some(block) = block_of(alloc, line, "import ") {
            self.imports.push(block)?;
        } else if let Some(block) = block_of(alloc, line, "export ") {
            self.exports.push(block)?;
        } else if let Some(item) = item_of(line) {
            self.add_item(item)?;
        }
        Ok(())
    }

    /// Adds an item to the last import or export: exports stand behind all imports.
    fn add_item(&mut self, item: Item<'a>) -> Result<(), AllocError> {
        if self.exports.is_empty() {
            add_to_last(&mut self.imports, item)
        } else {
            add_to_last(&mut self.exports, item)
        }
    }
}

/// Adds an item to the last of these.
fn add_to_last<'a>(blocks: &mut Vec<Block<'a>>, item: Item<'a>) -> Result<(), AllocError> {
    if let Some(block) = blocks.last_mut() {
        block.items.push(item)?;
    }
    Ok(())
}

/// The import or the export that a line begins.
fn block_of<'a>(alloc: Global, line: &'a str, front: &str) -> Option<Block<'a>> {
    let (name, what) = line.strip_prefix(front)?.split_once(' ')?;
    Some(Block {
        name,
        what,
        items: Vec::new(alloc),
    })
}

/// The item that a line is: `  func f (x: u32)` or `  type t u32`.
fn item_of(line: &str) -> Option<Item<'_>> {
    let (sort, behind) = line.strip_prefix("  ")?.split_once(' ')?;
    let (name, what) = behind.split_once(' ')?;
    Some(Item { sort, name, what })
}
