//! Bytes in hexadecimal digits.

use crate::fault::RowFault;
use crate::line::Line;
use crate::words::split_repeat;
use hex::FromHexError;
use std::alloc::{AllocError, Global};

/// The bytes that a word spells.
pub fn read_bytes(alloc: Global, word: &str) -> Result<Vec<u8>, RowFault> {
    let mut bytes = Vec::new(alloc);
    if word == "-" {
        return Ok(bytes);
    }
    for part in word.split('.') {
        let (times, digits) = split_repeat(part);
        add_repeated(&mut bytes, alloc, &decode(alloc, digits)?, times)?;
    }
    Ok(bytes)
}

fn add_repeated(
    bytes: &mut Vec<u8>,
    alloc: Global,
    part: &[u8],
    times: u32,
) -> Result<(), AllocError> {
    if let [byte] = part {
        return bytes.extend_from_slice(&Vec::from_elem(alloc, *byte, times as usize)?);
    }
    for _ in 0..times {
        bytes.extend_from_slice(part)?;
    }
    Ok(())
}

fn decode(alloc: Global, digits: &str) -> Result<Vec<u8>, RowFault> {
    match hex::decode(alloc, digits) {
        Ok(bytes) => Ok(bytes),
        Err(FromHexError::OutOfMemory) => Err(RowFault::Memory),
        Err(_) => Err(RowFault::NotARow),
    }
}

/// Writes bytes as pairs of digits, or `-` for none.
pub fn write_bytes(line: &mut Line, bytes: &[u8]) {
    if bytes.is_empty() {
        line.put("-");
    }
    write_digits(line, bytes);
}

/// Units that are equal and follow one another are written once from this many on.
const LEAST_REPEAT: usize = 4;

/// Writes bytes as [`Line::bytes`] reads them. A run of at least four equal units of `unit` bytes
/// is a part of its own, written once with its number.
pub fn write_units(line: &mut Line, bytes: &[u8], unit: usize) {
    if bytes.is_empty() {
        line.put("-");
        return;
    }
    let mut rest = bytes;
    let mut is_open = false;
    let mut is_first = true;
    for _ in 0..bytes.len() {
        let size = unit.min(rest.len());
        let (first, _) = rest.split_at(size);
        let times = repeats(rest, first);
        let count = if times < LEAST_REPEAT { 1 } else { times };
        if !is_first && (times >= LEAST_REPEAT || !is_open) {
            line.put(".");
        }
        if times >= LEAST_REPEAT {
            line.show(times);
            line.put("*");
        }
        write_digits(line, first);
        is_open = times < LEAST_REPEAT;
        is_first = false;
        rest = rest.get(count.saturating_mul(size)..).unwrap_or(&[]);
        if rest.is_empty() {
            break;
        }
    }
}

/// How often a unit stands at the front of bytes, one after another.
fn repeats(bytes: &[u8], unit: &[u8]) -> usize {
    if unit.is_empty() {
        return 0;
    }
    bytes
        .chunks(unit.len())
        .take_while(|part| *part == unit)
        .count()
}

fn write_digits(line: &mut Line, bytes: &[u8]) {
    for byte in bytes {
        line.pair(*byte);
    }
}
