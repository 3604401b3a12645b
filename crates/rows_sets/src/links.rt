//! Rows on sets of components: their plan, or why they can't be linked; and what imported functions
//! and resources come to. Nothing is kept between them.

use crate::checks::keep_invalid;
use crate::components::read_components;
use cm_binary::Component;
use cm_match::{Checked, LinkFault, LinkReason, Linked, PlanLine, link};
use cm_rows::{Line, NamedFiles, word, words_from};
use cm_validate_spaces::validate;
use std::alloc::Global;

/// The answer to `plan SOURCE..`, `target COMPONENT IMPORT ITEM SOURCE..` or `resource COMPONENT
/// NUMBER SOURCE..`; words behind `:` say what the row shows.
pub fn answer(alloc: Global, files: &NamedFiles, words: &[&str], line: &mut Line) {
    let (row, _) = line.split(words, ":");
    match word(row, 0) {
        "plan" => write_plan_of(alloc, files, words_from(row, 1), line),
        call => answer_on_item(alloc, files, call, row, line),
    }
}

/// These components, which are to be valid. Where one is not, or there is no memory, the line keeps
/// that.
pub fn checked_components<'a>(
    alloc: Global,
    components: &'a [Component],
    line: &mut Line,
) -> Vec<Checked<'a>> {
    let mut checked = Vec::new(alloc);
    for component in components {
        match validate(alloc, component) {
            Ok(component) => line.push(&mut checked, component),
            Err(fault) => keep_invalid(line, &fault),
        }
    }
    checked
}

/// The set of these components, which are to be valid, or why they can't be linked. Where one is
/// not valid, or there is no memory, the line keeps that.
pub fn link_components<'a>(
    alloc: Global,
    components: &'a [Component],
    line: &mut Line,
) -> Result<Linked<'a>, LinkFault> {
    let linked = link(alloc, checked_components(alloc, components, line));
    keep_if_memory(line, &linked);
    linked
}

/// Keeps that there was no memory for linking.
pub fn keep_if_memory(line: &mut Line, linked: &Result<Linked<'_>, LinkFault>) {
    if let Err(fault) = linked {
        line.fail_if_memory(fault.reason == LinkReason::Memory);
    }
}

/// The number of an item of an instance, or `-` for none.
pub fn read_item(word: &str, line: &mut Line) -> Option<usize> {
    match word {
        "-" => None,
        word => Some(line.number(word)),
    }
}

pub fn write_link_fault(line: &mut Line, fault: LinkFault) {
    line.put("fault ");
    line.put(fault.reason.name());
    line.put(" in component ");
    line.show(fault.component);
    line.put(", import ");
    line.show(fault.import);
}

/// Writes the plan of the set, or its fault.
fn write_plan_of(alloc: Global, files: &NamedFiles, sources: &[&str], line: &mut Line) {
    let components = read_components(alloc, files, sources, line);
    let linked = link_components(alloc, &components, line);
    write_linked(line, &linked);
}

/// Writes the plan of a set, or its fault.
pub fn write_linked(line: &mut Line, linked: &Result<Linked<'_>, LinkFault>) {
    match linked {
        Ok(linked) if linked.plan().is_empty() => line.put("nothing"),
        Ok(linked) => write_plan(line, linked.plan()),
        Err(fault) => write_link_fault(line, *fault),
    }
}

/// Writes what an import, or an item of one, or a resource comes to.
fn answer_on_item(alloc: Global, files: &NamedFiles, call: &str, words: &[&str], line: &mut Line) {
    let component = line.number(word(words, 1));
    let number = word(words, 2);
    let behind = if call == "target" { 4 } else { 3 };
    let components = read_components(alloc, files, words_from(words, behind), line);
    let Ok(linked) = link_components(alloc, &components, line) else {
        return line.refuse();
    };
    match call {
        "target" => {
            let item = read_item(word(words, 3), line);
            write_target(line, &linked, component, number, item);
        }
        "resource" => write_resource(line, &linked, component, number),
        _ => line.refuse(),
    }
}

/// Writes the lines of a plan, with commas between.
fn write_plan(line: &mut Line, plan: &[PlanLine]) {
    for (i, planned) in plan.iter().enumerate() {
        if i > 0 {
            line.put(", ");
        }
        line.show(planned.importer);
        line.put(".");
        line.show(planned.import);
        line.put(" <- ");
        line.show(planned.provider);
        line.put(".");
        line.show(planned.export);
    }
}

/// Writes the lifted function that an import, or an item of one, comes to.
fn write_target(
    line: &mut Line,
    linked: &Linked<'_>,
    component: u32,
    import: &str,
    item: Option<usize>,
) {
    match linked.target(component, line.number(import), item) {
        None => line.put("none"),
        Some(target) => {
            line.put("component ");
            line.show(target.component);
            line.put(", core function ");
            line.show(target.core_func);
        }
    }
}

/// Writes what a resource is in the end.
fn write_resource(line: &mut Line, linked: &Linked<'_>, component: u32, number: &str) {
    match linked.resource(component, line.number(number)) {
        None => line.put("none"),
        Some(resource) => {
            line.show(resource.component);
            line.put(".");
            line.show(resource.number);
        }
    }
}
