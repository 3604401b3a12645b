//! Strings as lists of scalars.

use crate::rules::{Asked, Encoding, Stop, small};
use cm_machine::Trap;
use std::alloc::Global;

/// The scalars that bytes spell, or `BadText`.
pub fn read(alloc: Global, encoding: Encoding, bytes: &[u8]) -> Result<Vec<u32>, Stop> {
    match encoding {
        Encoding::Utf8 => read_utf8(alloc, bytes),
        Encoding::Utf16 => read_utf16(alloc, bytes),
    }
}

fn read_utf8(alloc: Global, bytes: &[u8]) -> Result<Vec<u32>, Stop> {
    let mut scalars = Vec::new(alloc);
    match str::from_utf8(bytes) {
        Ok(text) => {
            for scalar in text.chars() {
                scalars.push(u32::from(scalar))?;
            }
            Ok(scalars)
        }
        Err(_) => Err(Stop::Trap(Trap::BadText)),
    }
}

fn read_utf16(alloc: Global, bytes: &[u8]) -> Result<Vec<u32>, Stop> {
    let mut scalars = Vec::new(alloc);
    let mut first: Option<u32> = None;
    for pair in bytes.chunks(2) {
        let low = pair.first().copied().unwrap_or(0);
        let high = pair.get(1).copied().unwrap_or(0);
        let unit = u32::from(high) * 256 + u32::from(low);
        let is_second = matches!(unit, 0xDC00..0xE000);
        match first {
            Some(lead) if is_second => {
                scalars.push(0x10000 + lead % 1024 * 1024 + unit % 1024)?;
                first = None;
            }
            None if matches!(unit, 0xD800..0xDC00) => first = Some(unit),
            None if !is_second => scalars.push(unit)?,
            _ => return Err(Stop::Trap(Trap::BadText)),
        }
    }
    match first {
        None => Ok(scalars),
        Some(_) => Err(Stop::Trap(Trap::BadText)),
    }
}

/// The bytes of a text.
pub fn write(alloc: Global, encoding: Encoding, text: &[u32]) -> Result<Vec<u8>, Stop> {
    let mut bytes = Vec::new(alloc);
    for scalar in text {
        match encoding {
            Encoding::Utf8 => write_utf8(&mut bytes, *scalar)?,
            Encoding::Utf16 => write_utf16(&mut bytes, *scalar)?,
        }
    }
    Ok(bytes)
}

fn write_utf8(bytes: &mut Vec<u8>, scalar: u32) -> Result<(), Stop> {
    match scalar {
        0..0x80 => bytes.push(scalar as u8)?,
        0x80..0x800 => bytes.push(0xC0 + (scalar / 64 % 32) as u8)?,
        0x800..0x10000 => {
            bytes.push(0xE0 + (scalar / 4096 % 16) as u8)?;
            bytes.push(follow(scalar / 64))?;
        }
        _ => {
            bytes.push(0xF0 + (scalar / 262_144 % 8) as u8)?;
            bytes.push(follow(scalar / 4096))?;
            bytes.push(follow(scalar / 64))?;
        }
    }
    if scalar >= 0x80 {
        bytes.push(follow(scalar))?;
    }
    Ok(())
}

/// A byte that follows the first one of a scalar, with the low six bits of a number.
fn follow(bits: u32) -> u8 {
    0x80 + (bits % 64) as u8
}

fn write_utf16(bytes: &mut Vec<u8>, scalar: u32) -> Result<(), Stop> {
    if scalar < 0x10000 {
        return write_unit(bytes, scalar);
    }
    let rest = scalar - 0x10000;
    write_unit(bytes, 0xD800 + rest / 1024 % 1024)?;
    write_unit(bytes, 0xDC00 + rest % 1024)
}

fn write_unit(bytes: &mut Vec<u8>, unit: u32) -> Result<(), Stop> {
    bytes.push((unit % 256) as u8)?;
    bytes.push((unit / 256 % 256) as u8)?;
    Ok(())
}

/// The bytes of a unit.
pub fn unit(encoding: Encoding) -> u32 {
    match encoding {
        Encoding::Utf8 => 1,
        Encoding::Utf16 => 2,
    }
}

/// The requests for a text that goes from one encoding to another.
pub fn requests(
    alloc: Global,
    text: &[u32],
    source: Encoding,
    target: Encoding,
) -> Result<Vec<Asked>, Stop> {
    let exact = small(write(alloc, target, text)?.len());
    let given = small(write(alloc, source, text)?.len());
    let units = given / unit(source).max(1);
    let mut asked = Vec::new(alloc);
    let mut size = if source == target {
        exact
    } else {
        units.saturating_mul(unit(target))
    };
    push(&mut asked, target, size)?;
    let is_ascii = text.iter().all(|scalar| *scalar < 0x80);
    if source == Encoding::Utf16 && target == Encoding::Utf8 && !is_ascii {
        size = units.saturating_mul(3);
        push(&mut asked, target, size)?;
    }
    if size > exact {
        push(&mut asked, target, exact)?;
    }
    Ok(asked)
}

/// A request for so many bytes, chained to the one before it, if there is one.
fn push(asked: &mut Vec<Asked>, target: Encoding, size: u32) -> Result<(), Stop> {
    let old_size = asked.last().map(|before| before.size);
    asked.push(Asked {
        chained: old_size.is_some(),
        old_size: old_size.unwrap_or(0),
        align: unit(target),
        size,
    })?;
    Ok(())
}
