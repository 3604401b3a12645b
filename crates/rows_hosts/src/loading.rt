//! Rows on loading: whether files come to a set, or the fault in words.

use cm_rows::{Line, NamedFiles};
use huxarte::components::{LinkReason, ValidReason};
use huxarte::faults::{NamedFile, Shown};
use huxarte::files::DecodeReason;
use huxarte::shims::{FilesFault, FitReason, ShimFault};
use huxarte::{LoadFault, Misuse, RealFault, load, load_real};
use std::alloc::{AllocError, Global};

/// Writes `loaded` where the files of these sources come to a set, each with no page of memory, or
/// else the fault in words.
pub fn answer(alloc: Global, files: &NamedFiles, sources: &[&str], line: &mut Line) {
    let bytes = read_all(alloc, files, sources, line);
    let slices = slices(alloc, &bytes, line);
    let pages = no_pages(alloc, sources, line);
    match load(alloc, &slices, &pages) {
        Ok(_) => line.put("loaded"),
        Err(fault) if is_memory(fault) => line.refuse_for(true),
        Err(fault) => {
            let names = names_of(alloc, sources, line);
            let named = with_names(alloc, &names, &bytes, line);
            show(fault.shown(alloc, &named), line);
        }
    }
}

/// Writes the same of files of real tools, which may have shims.
pub fn answer_real(alloc: Global, files: &NamedFiles, sources: &[&str], line: &mut Line) {
    let bytes = read_all(alloc, files, sources, line);
    let slices = slices(alloc, &bytes, line);
    let pages = no_pages(alloc, sources, line);
    match load_real(alloc, &slices, &pages) {
        Ok(_) => line.put("loaded"),
        Err(fault) if is_memory_of_real(fault) => line.refuse_for(true),
        Err(fault) => {
            let names = names_of(alloc, sources, line);
            let named = with_names(alloc, &names, &bytes, line);
            show(fault.shown(alloc, &named), line);
        }
    }
}

fn show(shown: Result<Shown, AllocError>, line: &mut Line) {
    if let Some(shown) = line.kept(shown) {
        line.show(shown);
    }
}

/// The bytes of sources.
fn read_all(alloc: Global, files: &NamedFiles, sources: &[&str], line: &mut Line) -> Vec<Vec<u8>> {
    let mut all = Vec::new(alloc);
    for source in sources {
        let bytes = files.read(alloc, source, line);
        line.push(&mut all, bytes);
    }
    all
}

/// Bytes, as slices.
fn slices<'a>(alloc: Global, bytes: &'a [Vec<u8>], line: &mut Line) -> Vec<&'a [u8]> {
    let mut slices = Vec::new(alloc);
    for bytes in bytes {
        line.push(&mut slices, bytes.as_slice());
    }
    slices
}

/// No page for each source.
fn no_pages(alloc: Global, sources: &[&str], line: &mut Line) -> Vec<u32> {
    let mut pages = Vec::new(alloc);
    for _ in sources {
        line.push(&mut pages, 0);
    }
    pages
}

/// The names by which sources are known, without the mark of one that was named before.
fn names_of(alloc: Global, sources: &[&str], line: &mut Line) -> Vec<String> {
    let mut names = Vec::new(alloc);
    for source in sources {
        let name = source.strip_prefix('@').unwrap_or(source);
        if let Some(name) = line.kept(format!(in alloc; "{name}")) {
            line.push(&mut names, name);
        }
    }
    names
}

/// The bytes of files with their names.
fn with_names<'a>(
    alloc: Global,
    names: &'a [String],
    bytes: &'a [Vec<u8>],
    line: &mut Line,
) -> Vec<NamedFile<'a>> {
    let mut named = Vec::new(alloc);
    for (name, bytes) in names.iter().zip(bytes) {
        let name = name.as_str();
        line.push(&mut named, NamedFile { name, bytes });
    }
    named
}

/// Whether the fault is want of memory.
fn is_memory(fault: LoadFault) -> bool {
    match fault {
        LoadFault::File { fault, .. } => fault.reason == DecodeReason::Memory,
        LoadFault::Component { fault, .. } => fault.reason == ValidReason::Memory,
        LoadFault::Link(fault) => fault.reason == LinkReason::Memory,
        LoadFault::Set(misuse) => misuse == Misuse::Memory,
        LoadFault::Memory => true,
    }
}

/// Whether a fault of files of real tools is want of memory.
fn is_memory_of_real(fault: RealFault) -> bool {
    match fault {
        RealFault::File(FilesFault::Read { fault, .. }) => is_memory_of_read(fault),
        RealFault::File(FilesFault::Component { fault, .. }) => fault.reason == ValidReason::Memory,
        RealFault::File(FilesFault::Shims { fault, .. }) => fault.reason == FitReason::Memory,
        RealFault::File(FilesFault::Memory) => true,
        RealFault::Link(fault) => fault.reason == LinkReason::Memory,
        RealFault::Set(misuse) => misuse == Misuse::Memory,
    }
}

fn is_memory_of_read(fault: ShimFault) -> bool {
    match fault {
        ShimFault::Decode(fault) => fault.reason == DecodeReason::Memory,
        ShimFault::Plain(_) | ShimFault::Limit(_) => false,
    }
}
