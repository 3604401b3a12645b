//! Items of lists, and numbers in files.

use cm_leb::formats::{write_count, write_index};
use cm_leb::write_u32;
use std::alloc::{AllocError, Global};

/// Adds an item. Where there is no memory, the item is let go.
pub(crate) fn put<T: Drop>(items: &mut Vec<T>, item: T) -> Result<(), AllocError> {
    items.push(item)?;
    Ok(())
}

/// Writes a number of items or of bytes. It promises nothing, so that what calls it proves nothing
/// of the bytes.
pub(crate) fn write_number(out: &mut Vec<u8>, number: usize) -> Result<(), AllocError> {
    write_count(out, number)
}

/// Writes an index.
pub(crate) fn write_place(out: &mut Vec<u8>, index: u32) -> Result<(), AllocError> {
    write_u32(out, index)
}

/// Writes the index of a type where a value type is used.
pub(crate) fn write_type(out: &mut Vec<u8>, index: u32) -> Result<(), AllocError> {
    write_index(out, index)
}

/// Writes bytes as they stand.
pub(crate) fn write_bytes(out: &mut Vec<u8>, bytes: &[u8]) -> Result<(), AllocError> {
    out.extend_from_slice(bytes)
}

/// Writes a text behind its length.
pub(crate) fn write_text(out: &mut Vec<u8>, text: &str) -> Result<(), AllocError> {
    write_number(out, text.len())?;
    write_bytes(out, text.as_bytes())
}

/// Writes a section of this id.
pub(crate) fn write_section(out: &mut Vec<u8>, id: u8, contents: &[u8]) -> Result<(), AllocError> {
    out.push(id)?;
    write_number(out, contents.len())?;
    write_bytes(out, contents)
}

/// A list that begins with these bytes.
pub(crate) fn bytes_of(alloc: Global, bytes: &[u8]) -> Result<Vec<u8>, AllocError> {
    bytes.to_vec(alloc)
}
