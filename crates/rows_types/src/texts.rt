//! Rows on texts in the encodings.

use cm_rows::{Line, RowFault, word, words_from, write_bytes, write_units};
use cm_text::{
    Encoding, Latin1, Source, TextFault, Utf8, Utf16, ascii_run, ascii_units, narrow, transcode,
    transcode_into, transcoded_size, widen,
};
use std::alloc::Global;

/// The answer to `transcode FROM TO BYTES..`, `scalars FROM BYTES`, `split_first FROM BYTES`,
/// `append TO NUMBER..`, `constants ENCODING`, `ascii_run BYTES..`, `ascii_units BYTES..`, `widen
/// BYTES` or `narrow BYTES`.
pub fn answer(alloc: Global, words: &[&str], line: &mut Line) {
    let rest = words_from(words, 1);
    let (first, text) = (word(rest, 0), word(rest, 1));
    match word(words, 0) {
        "transcode" => write_transcoded(alloc, first, text, words_from(rest, 2), line),
        "scalars" => write_scalars_of(alloc, first, &line.bytes(alloc, text), line),
        "split_first" => write_first_of(first, &line.bytes(alloc, text), line),
        "append" => write_appended(alloc, first, words_from(rest, 1), line),
        "constants" => write_constants(first, line),
        "ascii_run" => write_ascii_runs(alloc, rest, line),
        "ascii_units" => write_ascii_units(alloc, rest, line),
        "widen" => write_wide(alloc, &line.bytes(alloc, first), line),
        "narrow" => write_narrow(alloc, &line.bytes(alloc, first), line),
        "faults" => write_faults(line),
        _ => line.refuse(),
    }
}

fn write_faults(line: &mut Line) {
    for fault in [TextFault::IllFormed { at: 0 }, TextFault::Memory] {
        line.number_of_debug(&fault, fault.number());
    }
}

fn write_transcoded(alloc: Global, from: &str, to: &str, texts: &[&str], line: &mut Line) {
    match (from, to) {
        ("utf8", "utf8") => write_texts::<Utf8, Utf8>(alloc, texts, line),
        ("utf8", "utf16") => write_texts::<Utf8, Utf16>(alloc, texts, line),
        ("utf16", "utf8") => write_texts::<Utf16, Utf8>(alloc, texts, line),
        ("utf16", "utf16") => write_texts::<Utf16, Utf16>(alloc, texts, line),
        ("latin1", "utf8") => write_texts::<Latin1, Utf8>(alloc, texts, line),
        ("latin1", "utf16") => write_texts::<Latin1, Utf16>(alloc, texts, line),
        _ => line.refuse(),
    }
}

fn write_texts<S: Source, D: Encoding>(alloc: Global, texts: &[&str], line: &mut Line) {
    for (place, text) in texts.iter().enumerate() {
        if place > 0 {
            line.put(" ");
        }
        let bytes = line.bytes(alloc, text);
        write_text::<S, D>(alloc, &bytes, line);
    }
}

/// Writes the text in the other encoding, or where it is ill-formed, and what another call says
/// otherwise.
fn write_text<S: Source, D: Encoding>(alloc: Global, bytes: &[u8], line: &mut Line) {
    match transcode::<S, D>(alloc, bytes) {
        Ok(text) => {
            write_units(line, &text, D::UNIT_SIZE);
            if S::check(bytes).is_err() {
                line.put("(checked as none)");
            }
            if !writes_into::<S, D>(alloc, bytes, &text, line) {
                line.put("(written otherwise)");
            }
        }
        Err(TextFault::IllFormed { at }) => {
            write_ill_formed(line, at);
            write_other_fault(line, at, S::check(bytes).err());
            write_other_fault(line, at, transcoded_size::<S, D>(bytes).err());
            write_other_fault(line, at, S::scalars(alloc, bytes).err());
        }
        Err(TextFault::Memory) => line.fail(RowFault::Memory),
    }
}

/// Whether the text has this size and is written into a slice of that size.
fn writes_into<S: Source, D: Encoding>(
    alloc: Global,
    bytes: &[u8],
    text: &[u8],
    line: &mut Line,
) -> bool {
    let Ok(size) = transcoded_size::<S, D>(bytes) else {
        return false;
    };
    let Ok(mut room) = Vec::from_elem(alloc, 0xAAu8, size) else {
        line.fail(RowFault::Memory);
        return false;
    };
    transcode_into::<S, D>(bytes, room.as_mut_slice());
    room.as_slice() == text
}

/// Writes a fault that is not the one at `at`, or that there is none.
fn write_other_fault(line: &mut Line, at: usize, fault: Option<TextFault>) {
    match fault {
        Some(TextFault::IllFormed { at: other }) if other == at => {}
        Some(TextFault::IllFormed { at: other }) => {
            line.put("(otherwise @");
            line.show(other);
            line.put(")");
        }
        Some(TextFault::Memory) => line.put("(no memory)"),
        None => line.put("(otherwise none)"),
    }
}

fn write_ill_formed(line: &mut Line, at: usize) {
    line.put("ill-formed@");
    line.show(at);
}

fn write_scalars_of(alloc: Global, from: &str, text: &[u8], line: &mut Line) {
    match from {
        "utf8" => write_scalars(Utf8::scalars(alloc, text), line),
        "utf16" => write_scalars(Utf16::scalars(alloc, text), line),
        "latin1" => write_scalars(Latin1::scalars(alloc, text), line),
        _ => line.refuse(),
    }
}

fn write_scalars(scalars: Result<Vec<char>, TextFault>, line: &mut Line) {
    match scalars {
        Ok(scalars) => {
            line.put("scalars");
            for scalar in &scalars {
                line.put(" ");
                line.hex(u32::from(*scalar));
            }
        }
        Err(TextFault::IllFormed { at }) => write_ill_formed(line, at),
        Err(TextFault::Memory) => line.fail(RowFault::Memory),
    }
}

fn write_first_of(from: &str, text: &[u8], line: &mut Line) {
    match from {
        "utf8" => write_first(Utf8::split_first(text), line),
        "utf16" => write_first(Utf16::split_first(text), line),
        "latin1" => write_first(Latin1::split_first(text), line),
        _ => line.refuse(),
    }
}

fn write_first(first: Option<(char, &[u8])>, line: &mut Line) {
    match first {
        Some((scalar, rest)) => {
            line.put("scalar ");
            line.hex(u32::from(scalar));
            line.put(", left ");
            write_bytes(line, rest);
        }
        None => line.put("none"),
    }
}

fn write_appended(alloc: Global, to: &str, numbers: &[&str], line: &mut Line) {
    match to {
        "utf8" => append_all::<Utf8>(alloc, numbers, line),
        "utf16" => append_all::<Utf16>(alloc, numbers, line),
        _ => line.refuse(),
    }
}

/// Writes the text of scalars, whose numbers are in hexadecimal digits.
fn append_all<D: Encoding>(alloc: Global, numbers: &[&str], line: &mut Line) {
    let mut text = Vec::new(alloc);
    for number in numbers {
        let number = u32::from_str_radix(number, 16).unwrap_or(u32::MAX);
        match char::from_u32(number) {
            Some(scalar) => {
                line.kept(D::append(&mut text, scalar));
            }
            None => line.refuse(),
        }
    }
    write_bytes(line, &text);
}

/// Writes the size of a unit, the alignment and, of an encoding that is written, the greatest
/// growth.
fn write_constants(encoding: &str, line: &mut Line) {
    let (unit, alignment, growth) = match encoding {
        "utf8" => (Utf8::UNIT_SIZE, Utf8::ALIGNMENT, Utf8::GREATEST_GROWTH),
        "utf16" => (Utf16::UNIT_SIZE, Utf16::ALIGNMENT, Utf16::GREATEST_GROWTH),
        "latin1" => (Latin1::UNIT_SIZE, Latin1::ALIGNMENT, 0),
        _ => return line.refuse(),
    };
    line.put("unit ");
    line.show(unit);
    line.put(", alignment ");
    line.show(alignment);
    line.put(", growth ");
    line.show(growth);
}

fn write_ascii_runs(alloc: Global, texts: &[&str], line: &mut Line) {
    line.put("first");
    for text in texts {
        line.put(" ");
        let bytes = line.bytes(alloc, text);
        line.show(ascii_run(&bytes));
    }
}

fn write_ascii_units(alloc: Global, texts: &[&str], line: &mut Line) {
    line.put("first");
    for text in texts {
        line.put(" ");
        let bytes = line.bytes(alloc, text);
        line.show(ascii_units(&bytes));
    }
}

/// Only fewer than 1,000 bytes are a row.
fn write_wide(alloc: Global, bytes: &[u8], line: &mut Line) {
    if bytes.len() >= 1_000 {
        return line.refuse();
    }
    let Ok(mut units) = Vec::from_elem(alloc, 0xAAu8, 2 * bytes.len()) else {
        return line.fail(RowFault::Memory);
    };
    widen(bytes, units.as_mut_slice());
    write_bytes(line, &units);
}

/// Only units below 0x80 are a row.
fn write_narrow(alloc: Global, units: &[u8], line: &mut Line) {
    let count = ascii_units(units);
    if units.len() >= 1_000 || units.len() != count.saturating_mul(2) {
        return line.refuse();
    }
    let Ok(mut bytes) = Vec::from_elem(alloc, 0xAAu8, count) else {
        return line.fail(RowFault::Memory);
    };
    narrow(units, bytes.as_mut_slice());
    write_bytes(line, &bytes);
}
