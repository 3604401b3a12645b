//! Rows on names.

use cm_rows::{Line, read_core_value, word};
use cm_types::{
    CoreKind, CoreValue, ExternName, ExternNameForm, Label, NameFault, is_scalar, same_name,
};
use std::alloc::Global;

/// The answer to `label TEXT`, `extern TEXT`, `same TEXT TEXT`, `is_scalar NUMBER`, `kind VALUE` or
/// `faults`. A TEXT of no bytes is a word of no bytes.
pub fn answer(alloc: Global, words: &[&str], line: &mut Line) {
    let text = word(words, 1);
    match word(words, 0) {
        "same" => line.show(same_name(text, word(words, 2))),
        "label" => match Label::parse(alloc, text) {
            Ok(label) => write_text(line, label.as_str(), label.as_bytes()),
            Err(fault) => write_name_fault(line, fault),
        },
        "extern" => match ExternName::parse(alloc, text) {
            Ok(name) => {
                write_text(line, name.as_str(), name.as_bytes());
                write_form(line, &name.form());
            }
            Err(fault) => write_name_fault(line, fault),
        },
        "is_scalar" => {
            let number = line.number(text);
            line.show(is_scalar(number));
        }
        "kind" => write_kind(line, text),
        "faults" => write_faults(line),
        _ => line.refuse(),
    }
}

fn write_faults(line: &mut Line) {
    for fault in [
        NameFault::Empty,
        NameFault::BadFragment,
        NameFault::BadAnnotation,
        NameFault::BadVersion,
        NameFault::Memory,
    ] {
        line.number_of_debug(&fault, fault.number());
    }
}

fn write_name_fault(line: &mut Line, fault: NameFault) {
    line.fail_if_memory(fault == NameFault::Memory);
    line.fault(&fault);
}

/// Writes the text that a name holds, and whether its bytes are others.
fn write_text(line: &mut Line, text: &str, bytes: &[u8]) {
    line.put(text);
    if text.as_bytes() != bytes {
        line.put(" and other bytes");
    }
}

/// Writes what form a name has, and its parts.
fn write_form(line: &mut Line, form: &ExternNameForm<'_>) {
    match form {
        ExternNameForm::Label(label) => {
            line.put(": label ");
            line.put(label);
        }
        ExternNameForm::Method { resource, method } => {
            write_member(line, ": method ", method, resource);
        }
        ExternNameForm::Static { resource, function } => {
            write_member(line, ": static ", function, resource);
        }
        ExternNameForm::Constructor { resource } => {
            line.put(": constructor of ");
            line.put(resource);
        }
        ExternNameForm::Interface {
            namespace,
            package,
            interface,
            version,
        } => {
            write_member(line, ": interface ", interface, namespace);
            line.put(" ");
            line.put(package);
            line.put(", version ");
            line.put(version.unwrap_or("none"));
        }
    }
}

/// Writes what something is, its name, and what it is of.
fn write_member(line: &mut Line, kind: &str, name: &str, owner: &str) {
    line.put(kind);
    line.put(name);
    line.put(" of ");
    line.put(owner);
}

/// Writes the kind of a value, which is `i32:NUMBER`, `i64:NUMBER` or `default`.
fn write_kind(line: &mut Line, value: &str) {
    let value = match value {
        "default" => CoreValue::default(),
        value => read_core_value(value, line),
    };
    line.put(match value.kind() {
        CoreKind::I32 => "i32",
        CoreKind::I64 => "i64",
    });
}
