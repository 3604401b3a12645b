//! Rows on layouts.

use cm_layout::{
    FlatFunc, Form, HandleType, Head, Layout, Leaf, Part, Payload, Side, align, case_offset,
    discriminant_size, field_offset, flatten, flatten_func, has_cases, has_field, head, layout,
    layout_of_params, size,
};
use cm_rows::{Line, read_func, read_tree, word, words_from};
use cm_types::{CoreKind, ResourceId, TypeTree};
use std::alloc::{AllocError, Global};
use std::fmt::Display;

/// The answer to `whole TYPE`, `fields TYPE`, `payload TYPE`, `head TYPE`, `tree TYPE`,
/// `made TYPE`, `leaves COUNT`, `params FUNC`, `lift FUNC` or `lower FUNC`.
pub fn answer(alloc: Global, words: &[&str], line: &mut Line) {
    let rest = words_from(words, 1);
    match word(words, 0) {
        "params" => {
            if let Some(func) = read_func(alloc, rest, line) {
                write_made(line, layout_of_params(alloc, &func));
            }
        }
        "lift" => write_flat_func(alloc, rest, Side::Lift, line),
        "lower" => write_flat_func(alloc, rest, Side::Lower, line),
        "leaves" => {
            let labels = line.number::<u32>(word(rest, 0));
            write_leaves(line, labels as usize);
        }
        kind => {
            if let Some(ty) = read_tree(alloc, rest, line) {
                answer_on_type(alloc, kind, &ty, line);
            }
        }
    }
}

fn answer_on_type(alloc: Global, kind: &str, ty: &TypeTree, line: &mut Line) {
    match kind {
        "whole" => write_whole(alloc, ty, line),
        "fields" => write_fields(line, ty),
        "payload" => write_payload(line, ty),
        "head" => write_head(line, head(ty)),
        "tree" => write_made(line, layout(alloc, ty)),
        "made" => write_made(line, list_of(alloc, ty)),
        _ => line.refuse(),
    }
}

/// Writes size, alignment and flat kinds.
fn write_whole(alloc: Global, ty: &TypeTree, line: &mut Line) {
    line.put("size ");
    line.show(size(ty));
    line.put(", align ");
    line.show(align(ty));
    line.put(", flat");
    if let Some(kinds) = line.kept(flatten(alloc, ty)) {
        write_kinds(line, &kinds);
    }
}

/// Writes the offsets of the fields in order.
fn write_fields(line: &mut Line, ty: &TypeTree) {
    line.put("at");
    for n in 0..100 {
        if !has_field(ty, n) {
            break;
        }
        line.put(" ");
        line.show(field_offset(ty, n));
    }
}

/// Writes where the payload stands, and how many bytes the number of the case takes.
fn write_payload(line: &mut Line, ty: &TypeTree) {
    if has_cases(ty) {
        line.put("at ");
        line.show(case_offset(ty));
        line.put(" behind ");
        line.show(discriminant_size(ty));
    } else {
        line.put("no cases");
    }
}

/// A list that is made of the type's layout, shared once more.
fn list_of(alloc: Global, ty: &TypeTree) -> Result<Layout, AllocError> {
    let element = layout(alloc, ty)?;
    Layout::list(alloc, element.share()?)
}

/// Writes what is made of numbers and handles alone: a leaf, a string, flags, an enum and a handle.
fn write_leaves(line: &mut Line, labels: usize) {
    let resource = ResourceId {
        component: 0,
        number: 7,
    };
    write_layout(line, &Layout::leaf(Leaf::Signed(2)));
    write_head(line, Leaf::Char.head());
    write_layout(line, &Layout::string());
    write_layout(line, &Layout::flags(labels));
    write_layout(line, &Layout::enumeration(labels));
    write_layout(line, &Layout::handle(HandleType::Own(resource)));
}

fn write_made(line: &mut Line, layout: Result<Layout, AllocError>) {
    if let Some(layout) = line.kept(layout) {
        write_layout(line, &layout);
    }
}

/// Writes `SIZE/ALIGN/WIDTH`, with `plain` behind it for plain bytes.
fn write_head(line: &mut Line, head: Head) {
    line.show(head.size);
    line.put("/");
    line.show(head.align);
    line.put("/");
    line.show(head.width);
    if head.is_bulk {
        line.put(" plain");
    }
}

/// Writes `(SIZE/ALIGN/WIDTH FORM)`.
#[cycle(layouts)]
fn write_layout(line: &mut Line, layout: &Layout) {
    line.put("(");
    write_head(line, layout.head);
    write_form(line, &layout.form);
    line.put(")");
}

#[cycle(layouts)]
fn write_form(line: &mut Line, form: &Form) {
    match form {
        Form::Leaf(leaf) => write_leaf(line, *leaf),
        Form::String => line.put(" string"),
        Form::List(element) => {
            line.put(" list ");
            write_layout(line, element);
        }
        Form::FixedList { element, length } => {
            line.put(" fixed ");
            line.show(*length);
            line.put(" ");
            write_layout(line, element);
        }
        Form::Fields(parts) => write_parts(line, parts),
        Form::Cases {
            discriminant,
            offset,
            payloads,
        } => {
            write_pair(line, " cases ", *discriminant, " at ", *offset);
            write_payloads(line, payloads);
        }
        Form::Enum {
            discriminant,
            count,
        } => write_pair(line, " enum ", *discriminant, " of ", *count),
        Form::Handle(handle) => write_handle(line, *handle),
    }
}

fn write_leaf(line: &mut Line, leaf: Leaf) {
    match leaf {
        Leaf::Bool => line.put(" bool"),
        Leaf::Signed(bytes) => {
            line.put(" signed ");
            line.show(bytes);
        }
        Leaf::Unsigned(bytes) => {
            line.put(" unsigned ");
            line.show(bytes);
        }
        Leaf::Char => line.put(" char"),
        Leaf::Flags { labels, bytes } => write_pair(line, " flags ", labels, " in ", bytes),
    }
}

fn write_handle(line: &mut Line, handle: HandleType) {
    let (kind, resource) = match handle {
        HandleType::Own(resource) => (" own ", resource),
        HandleType::Borrow(resource) => (" borrow ", resource),
    };
    write_pair(line, kind, resource.component, ".", resource.number);
}

/// Writes two values, each behind its text.
fn write_pair<A: Display + Drop, B: Display + Drop>(
    line: &mut Line,
    before: &str,
    first: A,
    between: &str,
    second: B,
) {
    line.put(before);
    line.show(first);
    line.put(between);
    line.show(second);
}

/// Writes ` OFFSET:LAYOUT` for each field.
#[cycle(layouts)]
fn write_parts(line: &mut Line, parts: &[Part]) {
    line.put(" fields");
    for part in parts {
        line.put(" ");
        line.show(part.offset);
        line.put(":");
        write_layout(line, &part.layout);
    }
}

/// Writes a layout for each case that carries one, and `-` for each other one.
#[cycle(layouts)]
fn write_payloads(line: &mut Line, payloads: &[Payload]) {
    for payload in payloads {
        line.put(" ");
        match payload {
            Payload::Nothing => line.put("-"),
            Payload::Carried(layout) => write_layout(line, layout),
        }
    }
}

/// Writes the kinds, each after a space; none is a `-`.
fn write_kinds(line: &mut Line, kinds: &[CoreKind]) {
    if kinds.is_empty() {
        line.put(" -");
    }
    for kind in kinds {
        match kind {
            CoreKind::I32 => line.put(" i32"),
            CoreKind::I64 => line.put(" i64"),
        }
    }
}

fn write_flat_func(alloc: Global, func: &[&str], side: Side, line: &mut Line) {
    if let Some(func) = read_func(alloc, func, line) {
        if let Some(flat) = line.kept(flatten_func(alloc, &func, side)) {
            write_flat(line, &flat);
        }
    }
}

fn write_flat(line: &mut Line, flat: &FlatFunc) {
    line.put("params");
    write_kinds(line, &flat.params);
    if flat.spilled_params {
        line.put(" spilled");
    }
    line.put(", results");
    write_kinds(line, &flat.results);
    if flat.spilled_result {
        line.put(" spilled");
    }
}
