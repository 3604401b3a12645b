//! Rows on validation, and on what the indices of a valid component stand for.

use crate::components::read_component;
use cm_rows::{Line, NamedFiles, word, words_from};
use cm_types_arena::{Extern, ExternDesc, Placed, Types};
use cm_validate_spaces::{
    Checked, CoreFuncEntry, ExportEntry, ExportedEntry, FuncEntry, GuestExport, InstanceEntry,
    MadeFunc, ValidFault, ValidReason, validate,
};
use std::alloc::Global;

/// The answer to `validate SOURCE`, `core_funcs SOURCE`, `core SOURCE INDEX` or `func SOURCE EXPORT
/// ITEM`.
pub fn answer(alloc: Global, files: &NamedFiles, words: &[&str], line: &mut Line) {
    let question = word(words, 0);
    let Some(component) = read_component(alloc, files, word(words, 1), line) else {
        return;
    };
    match validate(alloc, &component) {
        Ok(checked) => answer_of(&checked, question, words_from(words, 2), line),
        Err(fault) if question == "validate" => write_fault(line, &fault),
        Err(fault) => keep_invalid(line, &fault),
    }
}

/// The answer to `valid SOURCE`, where words behind it say what the component is.
pub fn valid_answer(alloc: Global, files: &NamedFiles, source: &str, line: &mut Line) {
    if let Some(component) = read_component(alloc, files, source, line) {
        match validate(alloc, &component) {
            Ok(_) => line.put("valid"),
            Err(fault) => write_fault(line, &fault),
        }
    }
}

fn answer_of(checked: &Checked<'_>, question: &str, words: &[&str], line: &mut Line) {
    let first = word(words, 0);
    match question {
        "validate" => write_signature(line, checked),
        "core_funcs" => write_core_funcs(line, checked),
        "core" => {
            let index = line.number(first);
            write_core(line, checked, index);
        }
        "func" => {
            let export = line.number(first);
            write_func(line, checked, export, word(words, 1));
        }
        _ => line.refuse(),
    }
}

/// Keeps what is wrong with a component that is to be valid and is not.
pub fn keep_invalid(line: &mut Line, fault: &ValidFault) {
    line.refuse_for(fault.reason == ValidReason::Memory);
}

/// Writes the fault of a component that is not valid; `Memory` is none of them.
fn write_fault(line: &mut Line, fault: &ValidFault) {
    line.fail_if_memory(fault.reason == ValidReason::Memory);
    line.put("fault ");
    line.put(fault.reason.name());
    line.put(" in section ");
    line.show(fault.section);
    line.put(", item ");
    line.show(fault.item);
}

fn write_signature(line: &mut Line, checked: &Checked<'_>) {
    line.put("imports");
    for import in checked.imports() {
        write_import(line, checked.types(), import);
    }
    write_exports(line, checked);
}

fn write_exports(line: &mut Line, checked: &Checked<'_>) {
    line.put(", exports");
    for export in checked.exports() {
        write_export(line, checked.types(), export);
    }
}

fn write_import(line: &mut Line, types: &Types, import: &Extern) {
    line.put(" ");
    line.put(import.name.as_str());
    match &import.desc {
        ExternDesc::Func(ty) => write_shape(line, types, *ty),
        ExternDesc::Instance { ty, .. } => {
            line.put(" of ");
            line.show(ty.items.len());
        }
    }
}

fn write_export(line: &mut Line, types: &Types, export: &ExportEntry<'_>) {
    line.put(" ");
    line.put(export.name.as_str());
    match &export.def {
        ExportedEntry::Func(func) => write_shape(line, types, type_of(*func)),
        ExportedEntry::Instance(InstanceEntry::Imported { import, .. }) => {
            line.put(" of import ");
            line.show(*import);
        }
        ExportedEntry::Instance(InstanceEntry::Exporting(members)) => {
            line.put(" of ");
            line.show(members.len());
        }
    }
}

/// The type of a function.
fn type_of(func: FuncEntry<'_>) -> Placed {
    match func {
        FuncEntry::Lifted { ty, .. } | FuncEntry::Imported { ty, .. } => ty,
    }
}

/// Writes how many parameters a function of this type has and how many results.
pub fn write_shape(line: &mut Line, types: &Types, ty: Placed) {
    if !ty.is_there(types.func_count()) {
        line.put("(no type)");
        return;
    }
    let func = types.func(ty.place);
    line.put("(");
    line.show(func.params.len());
    line.put(if func.result.is_some() {
        ", 1)"
    } else {
        ", 0)"
    });
}

fn write_core_funcs(line: &mut Line, checked: &Checked<'_>) {
    line.put("each");
    for index in 0..=u32::MAX {
        match checked.core(index) {
            None => break,
            Some(CoreFuncEntry::Guest(_)) => line.put(" guest"),
            Some(CoreFuncEntry::Made(made)) => {
                line.put(" ");
                line.put(sort_of(made));
            }
        }
    }
}

fn sort_of(made: MadeFunc<'_>) -> &'static str {
    match made {
        MadeFunc::Lowered { .. } => "lowered",
        MadeFunc::Making(_) => "making",
        MadeFunc::Dropping(_) => "dropping",
        MadeFunc::Reading(_) => "reading",
    }
}

fn write_core(line: &mut Line, checked: &Checked<'_>, index: u32) {
    match checked.core(index) {
        None => line.put("none"),
        Some(CoreFuncEntry::Guest(GuestExport { instance, name })) => {
            line.put(name);
            line.put(" of core instance ");
            line.show(instance);
        }
        Some(
            CoreFuncEntry::Made(
                MadeFunc::Lowered {
                    import,
                    item,
                    ty,
                    ..
                },
            ),
        ) => {
            line.put("lowered import ");
            line.show(import);
            write_item(line, item);
            write_shape(line, checked.types(), ty);
        }
        Some(
            CoreFuncEntry::Made(
                made @ (MadeFunc::Making(number)
                | MadeFunc::Dropping(number)
                | MadeFunc::Reading(number)),
            ),
        ) => {
            line.put(sort_of(made));
            line.put(" resource ");
            line.show(number);
        }
    }
}

/// Writes what the function is that an export is, or that has this name in an exported instance,
/// where the name is not `-`.
fn write_func(line: &mut Line, checked: &Checked<'_>, export: usize, item: &str) {
    let item = if item == "-" { None } else { Some(item) };
    let Some(func) = checked.func(export, item) else {
        line.put("none");
        return;
    };
    match func {
        FuncEntry::Lifted { core_func, .. } => {
            line.put("lifted core function ");
            line.show(core_func);
        }
        FuncEntry::Imported { import, item, .. } => {
            line.put("import ");
            line.show(import);
            write_item(line, item);
        }
    }
    write_shape(line, checked.types(), type_of(func));
}

fn write_item(line: &mut Line, item: Option<usize>) {
    if let Some(item) = item {
        line.put(" item ");
        line.show(item);
    }
}
