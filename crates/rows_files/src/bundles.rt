//! Rows on bundles.

use crate::shown::{read_supply, write_bundle, write_fault, write_refusal};
use cm_bundle::{Bundle, BundleReason, Part, Supply, read, write};
use cm_rows::{Line, NamedFiles, word, words_from, write_bytes};
use std::alloc::Global;

/// The answer to `name NAME BYTES`, `read SOURCE`, `again SOURCE`, `changed SOURCE AT BYTES`,
/// `cuts SOURCE`, `write PARTS`, `parts N`, `over N BYTES` or `numbers`.
pub fn answer(alloc: Global, files: &mut NamedFiles, words: &[&str], line: &mut Line) {
    let source = word(words, 1);
    match word(words, 0) {
        "name" => files.name(alloc, source, word(words, 2), line),
        "read" => write_read(alloc, &files.read(alloc, source, line), line),
        "again" => write_again(alloc, &files.read(alloc, source, line), line),
        "changed" => {
            let mut file = files.read(alloc, source, line);
            let bytes = line.bytes(alloc, word(words, 3));
            change(&mut file, line.number(word(words, 2)), &bytes);
            write_read(alloc, &file, line);
        }
        "cuts" => write_cuts(alloc, &files.read(alloc, source, line), line),
        "write" => write_written(alloc, files, words_from(words, 1), line),
        "parts" => write_parts(alloc, line.number(source), line),
        "over" => {
            let more = line.bytes(alloc, word(words, 2));
            write_over(alloc, line.number(source), &more, line);
        }
        "numbers" => write_numbers(line),
        _ => line.refuse(),
    }
}

/// Writes bytes over those of a file from `at` on.
fn change(file: &mut Vec<u8>, at: usize, bytes: &[u8]) {
    for (place, byte) in file.iter_mut().skip(at).zip(bytes) {
        *place = *byte;
    }
}

/// Writes what a file is read as.
fn write_read(alloc: Global, file: &[u8], line: &mut Line) {
    match read(alloc, file) {
        Ok(bundle) => write_bundle(alloc, &bundle, line),
        Err(fault) => write_fault(&fault, line),
    }
}

/// Writes what a file is written as that was read.
fn write_again(alloc: Global, file: &[u8], line: &mut Line) {
    match read(alloc, file) {
        Ok(bundle) => write_file(alloc, &bundle, line),
        Err(fault) => write_fault(&fault, line),
    }
}

fn write_file(alloc: Global, bundle: &Bundle<'_>, line: &mut Line) {
    match write(alloc, bundle) {
        Ok(file) => write_bytes(line, &file),
        Err(fault) => write_refusal(&fault, line),
    }
}

/// Writes for each length below that of the file the fault of so many bytes of it, or `whole`;
/// equal reasons that follow one another at the end of the bytes are written once.
fn write_cuts(alloc: Global, file: &[u8], line: &mut Line) {
    let mut others: usize = 0;
    for length in 0..file.len() {
        match read(alloc, &file[..length]) {
            Err(fault) if fault.reason == BundleReason::Truncated && fault.at == length => {
                others = others.saturating_add(1);
            }
            Err(fault) => {
                write_fault(&fault, line);
                line.put("; ");
            }
            Ok(_) => line.put("whole; "),
        }
    }
    line.show(others);
    line.put(" times Truncated at the end");
}

/// Writes the file of the bundle of parts `part SOURCE SUPPLY.. |`, and `exports SUPPLY..`.
fn write_written(alloc: Global, files: &NamedFiles, words: &[&str], line: &mut Line) {
    let contents = read_files(alloc, files, words, line);
    write_made(alloc, &contents, words, line);
}

/// The files of the parts.
fn read_files(alloc: Global, files: &NamedFiles, words: &[&str], line: &mut Line) -> Vec<Vec<u8>> {
    let mut contents = Vec::new(alloc);
    for words in words.split(|word| *word == "|") {
        if word(words, 0) == "part" {
            let file = files.read(alloc, word(words, 1), line);
            line.push(&mut contents, file);
        }
    }
    contents
}

/// Writes the file of the bundle whose parts have these files.
fn write_made<'a, 'b: 'a>(
    alloc: Global,
    contents: &'a [Vec<u8>],
    words: &[&'b str],
    line: &mut Line,
) {
    let mut parts = Vec::new(alloc);
    let mut exports = Vec::new(alloc);
    for words in words.split(|word| *word == "|") {
        match word(words, 0) {
            "part" => {
                let arguments = read_supplies(alloc, words_from(words, 2), line);
                if let Some(file) = contents.get(parts.len()) {
                    line.push(&mut parts, Part { file, arguments });
                }
            }
            "exports" => exports = read_supplies(alloc, words_from(words, 1), line),
            _ => line.refuse(),
        }
    }
    write_file(
        alloc,
        &Bundle {
            front: Vec::new(alloc),
            parts,
            exports,
            customs: Vec::new(alloc),
        },
        line,
    );
}

fn read_supplies<'a>(alloc: Global, words: &[&'a str], line: &mut Line) -> Vec<Supply<'a>> {
    let mut supplies = Vec::new(alloc);
    for word in words {
        let supply = read_supply(word, line);
        line.push(&mut supplies, supply);
    }
    supplies
}

/// A bundle of so many empty files that exports nothing.
fn empty_parts<'a>(alloc: Global, count: usize, line: &mut Line) -> Bundle<'a> {
    let mut parts = Vec::new(alloc);
    for _ in 0..count {
        let part = Part {
            file: &[],
            arguments: Vec::new(alloc),
        };
        line.push(&mut parts, part);
    }
    Bundle {
        front: Vec::new(alloc),
        parts,
        exports: Vec::new(alloc),
        customs: Vec::new(alloc),
    }
}

/// Writes how many bytes a bundle of so many empty files has, and how many parts it is read as.
fn write_parts(alloc: Global, count: usize, line: &mut Line) {
    let bundle = empty_parts(alloc, count, line);
    match write(alloc, &bundle) {
        Ok(file) => {
            line.show(file.len());
            line.put(" bytes, ");
            match read(alloc, &file) {
                Ok(bundle) => line.show(bundle.parts.len()),
                Err(fault) => write_fault(&fault, line),
            }
            line.put(" parts");
        }
        Err(fault) => write_refusal(&fault, line),
    }
}

/// Writes what the bundle of so many empty files is read as that ends in these bytes, in the place
/// of its exports.
fn write_over(alloc: Global, count: usize, more: &[u8], line: &mut Line) {
    let bundle = empty_parts(alloc, count, line);
    match write(alloc, &bundle) {
        Ok(mut file) => {
            file.truncate(file.len().saturating_sub(6));
            for byte in more {
                line.push(&mut file, *byte);
            }
            write_read(alloc, &file, line);
        }
        Err(fault) => write_refusal(&fault, line),
    }
}

/// Writes each reason with its number.
fn write_numbers(line: &mut Line) {
    for reason in [
        BundleReason::BadPreamble,
        BundleReason::Truncated,
        BundleReason::BadNumber,
        BundleReason::OtherNumber,
        BundleReason::SizeMismatch,
        BundleReason::UnknownCode,
        BundleReason::NoSuchPart,
        BundleReason::BadUtf8,
        BundleReason::TooManyParts,
        BundleReason::Surplus,
        BundleReason::TooLong,
        BundleReason::Memory,
        BundleReason::BadFront,
    ] {
        line.number_of_debug(&reason, reason.number());
    }
}
