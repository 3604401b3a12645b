//! Bundles in a line of words.

use cm_bundle::{
    Bundle, BundleFault, BundleReason, ImportGroup, Part, PartExport, Sort, Supply, WriteFault,
    part_names,
};
use cm_rows::{Line, write_bytes};
use std::alloc::Global;

/// Writes `front TYPES IMPORTS ALIASES` for each group of sections in front of the parts, `part
/// FILE NAME=SORT:PART:EXPORT ..` for each part, `exports ..`, `custom BYTES` for each custom
/// section, and `name PART NAME` for each name of a part.
pub fn write_bundle(alloc: Global, bundle: &Bundle<'_>, line: &mut Line) {
    for group in &bundle.front {
        write_group(group, line);
    }
    for part in &bundle.parts {
        write_part(part, line);
    }
    line.put("exports");
    write_supplies(&bundle.exports, line);
    for contents in &bundle.customs {
        line.put(" | custom ");
        write_bytes(line, contents);
    }
    write_names(alloc, bundle, line);
}

fn write_names(alloc: Global, bundle: &Bundle<'_>, line: &mut Line) {
    match part_names(alloc, bundle) {
        Ok(names) => {
            for each in &names {
                line.put(" | name ");
                line.show(each.part);
                line.put(" ");
                line.put(each.name);
            }
        }
        Err(_) => line.fail_if_memory(true),
    }
}

fn write_group(group: &ImportGroup<'_>, line: &mut Line) {
    line.put("front ");
    write_bytes(line, group.types);
    line.put(" ");
    write_bytes(line, group.imports);
    line.put(" ");
    write_bytes(line, group.aliases);
    line.put(" | ");
}

fn write_part(part: &Part<'_>, line: &mut Line) {
    line.put("part ");
    write_bytes(line, part.file);
    write_supplies(&part.arguments, line);
    line.put(" | ");
}

fn write_supplies(supplies: &[Supply<'_>], line: &mut Line) {
    for supply in supplies {
        line.put(" ");
        line.put(supply.name);
        line.put("=");
        line.put(sort_word(supply.export.sort));
        line.put(":");
        line.show(supply.export.part);
        line.put(":");
        line.put(supply.export.name);
    }
}

fn sort_word(sort: Sort) -> &'static str {
    match sort {
        Sort::Func => "func",
        Sort::Instance => "instance",
    }
}

/// Writes `fault REASON at PLACE`.
pub fn write_fault(fault: &BundleFault, line: &mut Line) {
    line.fail_if_memory(fault.reason == BundleReason::Memory);
    line.fault(&fault.reason);
    line.put(" at ");
    line.show(fault.at);
}

/// Writes `fault REASON`.
pub fn write_refusal(fault: &WriteFault, line: &mut Line) {
    line.fail_if_memory(*fault == WriteFault::Memory);
    line.fault(fault);
}

/// An export of a part, passed on, as a word `NAME=SORT:PART:EXPORT` says; where it says none, the
/// row is none.
pub fn read_supply<'a>(word: &'a str, line: &mut Line) -> Supply<'a> {
    let (name, rest) = word.split_once('=').unwrap_or(("", ""));
    let (sort, rest) = rest.split_once(':').unwrap_or(("", ""));
    let (part, export) = rest.split_once(':').unwrap_or(("", ""));
    let part = line.number(part);
    Supply {
        name,
        export: PartExport {
            part,
            sort: read_sort(sort, line),
            name: export,
        },
    }
}

fn read_sort(word: &str, line: &mut Line) -> Sort {
    match word {
        "func" => Sort::Func,
        "instance" => Sort::Instance,
        _ => {
            line.refuse();
            Sort::Func
        }
    }
}
