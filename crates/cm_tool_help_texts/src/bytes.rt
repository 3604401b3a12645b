//! What stands in bytes that are no component file.

use crate::escaped::Escaped;
use cm_binary_forms::{DecodeFault, DecodeReason, Feature};
use cm_types::{ExternName, Label, NameFault};
use std::alloc::{AllocError, Global};
use std::fmt::Write;

/// What stands where the bytes of a file have their first fault.
pub fn bytes_help(alloc: Global, bytes: &[u8], fault: DecodeFault) -> Result<String, AllocError> {
    match fault.reason {
        DecodeReason::Truncated if bytes.is_empty() => said(alloc, ": the file is empty"),
        DecodeReason::Truncated => end_help(alloc, bytes),
        DecodeReason::BadPreamble => said(alloc, kind_of_file(bytes)),
        DecodeReason::Unsupported(feature) => {
            said(alloc, kind_of_form(feature, bytes.get(fault.at)))
        }
        DecodeReason::UnknownCode => said(alloc, kind_of_code(bytes.get(fault.at))),
        DecodeReason::SizeMismatch => section_help(alloc, bytes, fault.at),
        DecodeReason::BadName => name_help(alloc, bytes, fault.at),
        _ => Ok(String::new(alloc)),
    }
}

fn said(alloc: Global, words: &str) -> Result<String, AllocError> {
    String::from_str(alloc, words)
}

/// What a file is that does not begin as a component file does.
fn kind_of_file(bytes: &[u8]) -> &'static str {
    if bytes.starts_with(b"\0asm\x01\0\0\0") {
        ": it is a core module, of which wasm-component-ld, or wasm-tools component new, makes a \
         component"
    } else if bytes.starts_with(b"\0asm") {
        ": it is a WebAssembly file of another version"
    } else if bytes.starts_with(b"(component") || bytes.starts_with(b"(module") {
        ": it is a text, of which wasm-tools parse makes a file"
    } else if bytes.starts_with(b"package ") {
        ": it is a WIT text, which conform reads by --wit"
    } else {
        ": it is no WebAssembly file"
    }
}

/// What tools mean by a form that is not read.
fn kind_of_form(feature: Feature, found: Option<&u8>) -> &'static str {
    match (feature, found) {
        (Feature::NestedComponents, _) => ": tools make one for each exported interface",
        (Feature::Description, Some(0x03)) => ": tools import a type so where a world uses it",
        _ => "",
    }
}

/// What tools mean by a code that is not known.
fn kind_of_code(found: Option<&u8>) -> &'static str {
    match found {
        Some(0x43) => ": the type of an asynchronous function begins so",
        _ => "",
    }
}

/// A section: its number in the file, its id, and where its contents begin and end.
#[derive(Clone, Copy)]
struct Place {
    number: usize,
    id: u8,
    start: usize,
    end: usize,
}

/// The number that begins at a byte in LEB128, and the byte behind it.
fn number_at(bytes: &[u8], at: usize) -> Option<(usize, usize)> {
    let mut value: usize = 0;
    let mut weight: usize = 1;
    for n in 0..5usize {
        let place = at.checked_add(n)?;
        let byte = *bytes.get(place)?;
        let part = (byte % 128) as usize;
        value = value.checked_add(part.checked_mul(weight)?)?;
        if byte < 128 {
            return Some((value, place.checked_add(1)?));
        }
        weight = weight.checked_mul(128)?;
    }
    None
}

/// The section at a byte.
fn section_at(bytes: &[u8], number: usize, at: usize) -> Option<Place> {
    let id = *bytes.get(at)?;
    let (size, start) = number_at(bytes, at.checked_add(1)?)?;
    let end = start.checked_add(size)?;
    Some(Place {
        number,
        id,
        start,
        end,
    })
}

/// The section in which, or at whose end, a byte stands.
fn section_of(bytes: &[u8], at: usize) -> Option<Place> {
    let mut next: usize = 8;
    for number in 0..bytes.len() {
        let place = section_at(bytes, number, next)?;
        if at <= place.end {
            return Some(place);
        }
        next = place.end;
    }
    None
}

/// Where the section ends in which a file ends too early.
fn end_help(alloc: Global, bytes: &[u8]) -> Result<String, AllocError> {
    match section_of(bytes, bytes.len()) {
        Some(
            Place {
                number,
                id,
                end,
                ..
            },
        ) => { format!(in alloc; ": section {number}, of id {id}, ends at byte {end}") }
        None => Ok(String::new(alloc)),
    }
}

/// Which section is not as long as it says, and by how much.
fn section_help(alloc: Global, bytes: &[u8], at: usize) -> Result<String, AllocError> {
    let mut out = String::new(alloc);
    let Some(
        Place {
            number,
            id,
            start,
            end,
        },
    ) = section_of(bytes, at)
    else {
        return Ok(out);
    };
    let size = end.saturating_sub(start);
    write!(
        out,
        ": section {number}, of id {id}, has a size of {size} from byte {start} on, and its \
         contents "
    )?;
    if at < end {
        let used = at.saturating_sub(start);
        write!(out, "take {used}")?;
    } else {
        write!(out, "want more")?;
    }
    Ok(out)
}

/// The length of the text that begins at a byte: the number in LEB128 that ends before it.
fn length_before(bytes: &[u8], at: usize) -> Option<usize> {
    let mut found = None;
    for n in 1..6usize {
        let start = at.checked_sub(n)?;
        match number_at(bytes, start) {
            Some((value, behind)) if behind == at => found = Some(value),
            _ => return found,
        }
    }
    found
}

/// The text that begins at a byte.
fn text_at(bytes: &[u8], at: usize) -> Option<&str> {
    let end = at.checked_add(length_before(bytes, at)?)?;
    str::from_utf8(bytes.get(at..end)?).ok()
}

/// The most bytes of a name that are shown.
const MAX_NAME: usize = 100;

/// The text that is no name, and why.
fn name_help(alloc: Global, bytes: &[u8], at: usize) -> Result<String, AllocError> {
    let mut out = String::new(alloc);
    let Some(text) = text_at(bytes, at) else {
        return Ok(out);
    };
    if text.len() <= MAX_NAME {
        write!(out, ": found \"{}\"", Escaped(text))?;
    } else {
        let length = text.len();
        write!(out, ": found a name of {length} bytes")?;
    }
    if let Some(fault) = fault_of(alloc, text) {
        write!(out, ": {fault}")?;
    }
    Ok(out)
}

/// Why a text is no name: no extern name, or else no label.
fn fault_of(alloc: Global, text: &str) -> Option<NameFault> {
    match ExternName::parse(alloc, text) {
        Err(fault) => Some(fault),
        Ok(_) => Label::parse(alloc, text).err(),
    }
}
