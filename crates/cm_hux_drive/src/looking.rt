//! What is found where a script says what is to be seen.

use cm_machine::Event;
use cm_tool_lines::write_event;
use std::alloc::{AllocError, Global};

/// The most bytes that are shown where memory has others than wanted.
const MOST: usize = 32;

/// What is found.
#[derive(Drop)]
pub(crate) enum Found {
    /// What was wanted.
    AsWanted,
    /// A line that is to be printed.
    Line(String),
    /// Something else: what was expected and what was had.
    Other(String),
}

/// The line of an event, without its LF.
fn line_of(alloc: Global, event: &Event) -> Result<Vec<u8>, AllocError> {
    let mut line = Vec::new(alloc);
    match write_event(&mut line, event) {
        Ok(()) => {
            let _feed = line.pop();
            Ok(line)
        }
        Err(_) => Err(AllocError),
    }
}

/// What is found where this was the last event, and that of a line is expected.
pub(crate) fn event_found(
    alloc: Global,
    wanted: &str,
    event: Option<&Event>,
) -> Result<Found, AllocError> {
    let Some(event) = event else {
        return Ok(Found::Other(format!(in alloc; "expected {wanted}, had no event")?));
    };
    if line_of(alloc, event)?.as_slice() == wanted.as_bytes() {
        Ok(Found::AsWanted)
    } else {
        Ok(Found::Other(format!(in alloc; "expected {wanted}, had {event}")?))
    }
}

/// So many bytes of a memory from an address on, if it has them.
fn bytes_at(memory: &[u8], at: u32, size: usize) -> Option<&[u8]> {
    let start = at as usize;
    memory.get(start..start.saturating_add(size))
}

/// The text of a memory that ends before the expected bytes do.
fn too_short(alloc: Global, memory: &[u8], at: u32, size: usize) -> Result<Found, AllocError> {
    let length = memory.len();
    Ok(Found::Other(format!(in alloc; "expected {size} bytes at {at}, had a memory of {length}")?))
}

/// What is found where these bytes are expected in a memory, at an address.
pub(crate) fn memory_found(
    alloc: Global,
    memory: Option<&[u8]>,
    at: u32,
    wanted: &[u8],
) -> Result<Found, AllocError> {
    let memory = memory.unwrap_or(&[]);
    match bytes_at(memory, at, wanted.len()) {
        None => too_short(alloc, memory, at, wanted.len()),
        Some(had) if had == wanted => Ok(Found::AsWanted),
        Some(had) => others_found(alloc, at, wanted, had),
    }
}

/// How many bytes at the beginning of two lists are equal.
fn equal_front(wanted: &[u8], had: &[u8]) -> usize {
    wanted
        .iter()
        .zip(had.iter())
        .take_while(|pair| pair.0 == pair.1)
        .count()
}

/// The text of bytes that are not the expected ones: all bytes, or where they are many those from
/// the first that differs.
fn others_found(alloc: Global, at: u32, wanted: &[u8], had: &[u8]) -> Result<Found, AllocError> {
    let skipped = if wanted.len() <= MOST {
        0
    } else {
        equal_front(wanted, had)
    };
    let at = u64::from(at).saturating_add(skipped as u64);
    let wanted = hex::encode(alloc, piece(wanted, skipped))?;
    let had = hex::encode(alloc, piece(had, skipped))?;
    Ok(Found::Other(format!(in alloc; "expected {wanted} at {at}, had {had}")?))
}

/// The bytes from a place on that are shown.
fn piece(bytes: &[u8], from: usize) -> &[u8] {
    let rest = bytes.get(from..).unwrap_or(&[]);
    rest.get(..MOST).unwrap_or(rest)
}

/// The line of so many bytes of an instance's memory, from an address on: `I AT HEX`.
pub(crate) fn printed(
    alloc: Global,
    memory: Option<&[u8]>,
    instance: u32,
    at: u32,
    size: u32,
) -> Result<Found, AllocError> {
    let memory = memory.unwrap_or(&[]);
    match bytes_at(memory, at, size as usize) {
        None => too_short(alloc, memory, at, size as usize),
        Some(&[]) => Ok(Found::Line(format!(in alloc; "{instance} {at} -")?)),
        Some(bytes) => {
            let digits = hex::encode(alloc, bytes)?;
            Ok(Found::Line(format!(in alloc; "{instance} {at} {digits}")?))
        }
    }
}
