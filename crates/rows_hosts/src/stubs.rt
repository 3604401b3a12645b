//! Rows on stubs: what a component that stands in for a host exports or imports.

use crate::texts::{signature_of, world_of};
use cm_rows::{Line, NamedFiles, word, words_from};
use huxarte::Component;
use huxarte::components::{LinkReason, Signature, ValidReason};
use huxarte::files::Section;
use huxarte::shims::read;
use huxarte::stub::{
    StubFault, StubFileFault, caller, caller_file, caller_for, provider, provider_file_of,
    provider_for,
};
use std::alloc::Global;

/// The answer to `provided FILE..` and `called FILE..`, of the signatures of components; to
/// `provided world NAME TEXT..` and `called world NAME TEXT..`, of the world of this full name; or
/// to `provider` and `caller`, of no component. `asked` and `calls` stand for `provided` and
/// `called` of one signature, by files that other readers take.
pub fn answer(alloc: Global, files: &NamedFiles, words: &[&str], line: &mut Line) {
    let signatures = signatures_of(alloc, files, words_from(words, 1), line);
    let stub = match word(words, 0) {
        "asked" | "calls" => return answer_file(alloc, word(words, 0), signatures.last(), line),
        "provider" => provider_for(alloc, &[]),
        "caller" => caller_for(alloc, &[]),
        "provided" => provider(alloc, &signatures),
        "called" => match signatures.last() {
            Some(last) => caller(alloc, last),
            None => return line.refuse(),
        },
        _ => return line.refuse(),
    };
    match stub {
        Ok(stub) => write_names(&stub, line),
        Err(fault) if is_memory(fault) => line.refuse_for(true),
        Err(fault) => line.fault(&fault),
    }
}

/// The answer to `asked` and `calls`: the names in what the file of the stub is read as.
fn answer_file(alloc: Global, what: &str, of: Option<&Signature>, line: &mut Line) {
    let Some(of) = of else {
        return line.refuse();
    };
    match file_of(alloc, what, of) {
        Ok(file) => match read(alloc, &file) {
            Ok(shimmed) => write_names(&shimmed.component, line),
            Err(_) => line.refuse_for(true),
        },
        Err(StubFileFault::Memory) => line.refuse_for(true),
        Err(fault) => line.fault(&fault),
    }
}

/// The file of a provider of what a signature imports, or of a caller of what it exports.
fn file_of(alloc: Global, what: &str, of: &Signature) -> Result<Vec<u8>, StubFileFault> {
    if what == "asked" {
        return provider_file_of(alloc, of);
    }
    match caller(alloc, of) {
        Ok(stub) => caller_file(alloc, &stub, of),
        Err(fault) if is_memory(fault) => Err(StubFileFault::Memory),
        Err(_) => Err(StubFileFault::NotAsked),
    }
}

/// The signature of a world, or those of the components of some sources.
fn signatures_of(
    alloc: Global,
    files: &NamedFiles,
    words: &[&str],
    line: &mut Line,
) -> Vec<Signature> {
    let mut signatures = Vec::new(alloc);
    if word(words, 0) == "world" {
        if let Some(world) = world_of(alloc, words_from(words, 1), line) {
            line.push(&mut signatures, world);
        }
        return signatures;
    }
    for source in words {
        if let Some(signature) = signature_of(alloc, files, source, line) {
            line.push(&mut signatures, signature);
        }
    }
    signatures
}

/// Writes the names of what a stub imports and exports.
fn write_names(stub: &Component, line: &mut Line) {
    line.put("links");
    for section in stub.sections() {
        write_names_in(section, line);
    }
}

/// Writes the names of the imports or exports of a section, each behind a blank.
fn write_names_in(section: &Section, line: &mut Line) {
    match section {
        Section::Imports(imports) => {
            for import in imports {
                write_name(import.name.as_str(), line);
            }
        }
        Section::Exports(exports) => {
            for export in exports {
                write_name(export.name.as_str(), line);
            }
        }
        _ => {}
    }
}

fn write_name(name: &str, line: &mut Line) {
    line.put(" ");
    line.put(name);
}

/// Whether the fault is want of memory.
fn is_memory(fault: StubFault) -> bool {
    match fault {
        StubFault::Memory => true,
        StubFault::Component { fault, .. } | StubFault::NotValid(fault) => {
            fault.reason == ValidReason::Memory
        }
        StubFault::NotLinked(fault) => fault.reason == LinkReason::Memory,
        _ => false,
    }
}
