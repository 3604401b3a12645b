//! Rows on files that may have shims.

use crate::outcomes::{write_fault, write_outcome};
use crate::sweeps::write_swept;
use cm_binary::DecodeReason;
use cm_rows::{Line, NamedFiles, word};
use cm_shims::{FitReason, Places, PlainFault, ShimFault, Shimmed, Want, fits, read};
use cm_validate_spaces::{ValidFault, ValidReason, validate};
use std::alloc::Global;

/// The answer to `read SOURCE`, `fits SOURCE` or `sweep SOURCE`.
pub fn answer(alloc: Global, files: &mut NamedFiles, words: &[&str], line: &mut Line) {
    match word(words, 0) {
        "read" => {
            let file = files.read(alloc, word(words, 1), line);
            write_read(alloc, &file, line);
        }
        "fits" => {
            let file = files.read(alloc, word(words, 1), line);
            write_fits(alloc, &file, line);
        }
        "sweep" => {
            let file = files.read(alloc, word(words, 1), line);
            write_swept(alloc, &file, line);
        }
        _ => line.refuse(),
    }
}

/// Writes `component`, its shortest file and what shims want of it; or the fault.
fn write_read(alloc: Global, file: &[u8], line: &mut Line) {
    match read(alloc, file) {
        Ok(shimmed) => {
            write_outcome(alloc, Ok(shimmed.component), line);
            write_wants(&shimmed.wants, line);
        }
        Err(ShimFault::Decode(fault)) => write_fault(line, &fault),
        Err(ShimFault::Plain(fault)) => write_plain_fault(&fault, line),
        Err(ShimFault::Limit(fault)) => line.fault(&fault),
    }
}

/// Writes `fits`; the want that does not hold; the fault of the plain component, where it has one,
/// with its place in the file; or why there is none.
fn write_fits(alloc: Global, file: &[u8], line: &mut Line) {
    match read(alloc, file) {
        Ok(shimmed) => write_fit(alloc, &shimmed, line),
        Err(fault) => {
            line.fail_if_memory(is_memory(&fault));
            line.put("no component");
        }
    }
}

/// Whether there was no memory for reading a file.
fn is_memory(fault: &ShimFault) -> bool {
    match fault {
        ShimFault::Decode(fault) => fault.reason == DecodeReason::Memory,
        ShimFault::Plain(_) | ShimFault::Limit(_) => false,
    }
}

fn write_fit(alloc: Global, shimmed: &Shimmed, line: &mut Line) {
    match validate(alloc, &shimmed.component) {
        Ok(checked) => match fits(alloc, &checked, &shimmed.wants) {
            Ok(()) => line.put("fits"),
            Err(fault) => {
                line.fail_if_memory(fault.reason == FitReason::Memory);
                line.fault(&fault.reason);
                line.put(" at want ");
                line.show(fault.want);
            }
        },
        Err(fault) => write_valid_fault(&shimmed.places, &fault, line),
    }
}

fn write_valid_fault(places: &Places, fault: &ValidFault, line: &mut Line) {
    line.fail_if_memory(fault.reason == ValidReason::Memory);
    line.fault(&fault.reason);
    match places.place(fault.section, fault.item) {
        Some(place) => {
            line.put(" in section ");
            line.show(place.section);
            line.put(", item ");
            line.show(place.item);
        }
        None => line.refuse(),
    }
}

/// Writes each want: `func F T`, `type A B` or `resource A`.
fn write_wants(wants: &[Want], line: &mut Line) {
    for want in wants {
        match want {
            Want::Func(func, ty) => write_pair(", func ", *func, *ty, line),
            Want::Type(ty, equal) => write_pair(", type ", *ty, *equal, line),
            Want::Resource(ty) => {
                line.put(", resource ");
                line.show(*ty);
            }
        }
    }
}

fn write_pair(head: &str, index: u32, ty: u32, line: &mut Line) {
    line.put(head);
    line.show(index);
    line.put(" ");
    line.show(ty);
}

fn write_plain_fault(fault: &PlainFault, line: &mut Line) {
    line.fault(&fault.reason);
    line.put(" in section ");
    line.show(fault.section);
    line.put(", item ");
    line.show(fault.item);
}
