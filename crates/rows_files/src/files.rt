//! Rows on files: reading and writing them.

use crate::faults::write_faults;
use crate::outcomes::{write_outcome, write_reason};
use crate::sections::read_sections;
use cm_binary::{Component, DecodeReason, decode, encode, written_and_read};
use cm_rows::{Line, NamedFiles, word, words_from, write_bytes};
use std::alloc::Global;

/// The answer to `name NAME BYTES`, `limits SECTIONS`, `decode SOURCE`, `changed SOURCE AT BYTES`,
/// `beginnings SOURCE`, `encode SOURCE`, `written_and_read SOURCE` or `faults KIND`.
pub fn answer(alloc: Global, files: &mut NamedFiles, words: &[&str], line: &mut Line) {
    let source = word(words, 1);
    match word(words, 0) {
        "name" => files.name(alloc, source, word(words, 2), line),
        "limits" => write_limits(alloc, words_from(words, 1), line),
        "changed" => {
            let mut file = files.read(alloc, source, line);
            let bytes = line.bytes(alloc, word(words, 3));
            change(&mut file, line.number(word(words, 2)), &bytes);
            write_outcome(alloc, decode(alloc, &file), line);
        }
        "faults" => write_faults(source, line),
        call => answer_of_file(alloc, call, &files.read(alloc, source, line), line),
    }
}

fn answer_of_file(alloc: Global, call: &str, file: &[u8], line: &mut Line) {
    match call {
        "decode" => write_outcome(alloc, decode(alloc, file), line),
        "beginnings" => write_beginnings(alloc, file, line),
        "encode" => {
            if let Some(component) = read_component(alloc, file, line) {
                if let Some(bytes) = line.kept(encode(alloc, &component)) {
                    write_bytes(line, &bytes);
                }
            }
        }
        "written_and_read" => {
            if let Some(component) = read_component(alloc, file, line) {
                write_outcome(alloc, written_and_read(alloc, &component), line);
            }
        }
        _ => line.refuse(),
    }
}

/// Writes how many bytes the file of a component of these sections has, or the limit that they
/// pass.
fn write_limits(alloc: Global, words: &[&str], line: &mut Line) {
    match Component::new(read_sections(alloc, words, line)) {
        Ok(component) => {
            if let Some(bytes) = line.kept(encode(alloc, &component)) {
                line.show(bytes.len());
                line.put(" bytes");
            }
        }
        Err(fault) => line.fault(&fault),
    }
}

/// The component of a file, which is to have one.
pub fn read_component(alloc: Global, file: &[u8], line: &mut Line) -> Option<Component> {
    match decode(alloc, file) {
        Ok(component) => Some(component),
        Err(fault) => {
            line.refuse_for(fault.reason == DecodeReason::Memory);
            None
        }
    }
}

/// Writes bytes over those of a file from `at` on.
fn change(file: &mut Vec<u8>, at: usize, bytes: &[u8]) {
    for (place, byte) in file.iter_mut().skip(at).zip(bytes) {
        *place = *byte;
    }
}

/// Writes for each length below that of the file the fault of so many bytes of it, or `whole`.
fn write_beginnings(alloc: Global, file: &[u8], line: &mut Line) {
    line.put("below the length:");
    for length in 0..file.len() {
        match decode(alloc, &file[..length]) {
            Ok(_) => line.put(" whole"),
            Err(fault) => {
                line.put(" ");
                write_reason(line, fault.reason);
                line.put("@");
                line.show(fault.at);
            }
        }
    }
}
