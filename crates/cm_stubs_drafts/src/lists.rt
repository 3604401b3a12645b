//! Items of lists.

use std::alloc::{AllocError, Global};

/// Adds an item. Where there is no memory, the item is let go.
pub(crate) fn put<T: Drop>(items: &mut Vec<T>, item: T) -> Result<(), AllocError> {
    items.push(item)?;
    Ok(())
}

/// A list of one item. Where there is no memory, the item is let go.
pub(crate) fn one<T: Drop>(alloc: Global, item: T) -> Result<Vec<T>, AllocError> {
    let mut items = Vec::new(alloc);
    put(&mut items, item)?;
    Ok(items)
}
