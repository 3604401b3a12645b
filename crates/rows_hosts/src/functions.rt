//! Rows on the core functions of components: by number and by name.

use cm_rows::{Line, NamedFiles, word, words_from};
use huxarte::components::ValidReason;
use huxarte::files::DecodeReason;
use huxarte::functions::{CoreFuncType, Functions, StringEncoding};
use huxarte::{decode, validate};
use std::alloc::Global;

/// The answer to a question on the component of a source.
pub fn answer(alloc: Global, files: &NamedFiles, words: &[&str], line: &mut Line) {
    let file = files.read(alloc, word(words, 0), line);
    let component = match decode(alloc, &file) {
        Ok(component) => component,
        Err(fault) => {
            line.refuse_for(fault.reason == DecodeReason::Memory);
            return;
        }
    };
    match validate(alloc, &component) {
        Ok(checked) => match Functions::of(alloc, &checked) {
            Ok(functions) => ask(alloc, &functions, words_from(words, 1), line),
            Err(_) => line.refuse_for(true),
        },
        Err(fault) => line.refuse_for(fault.reason == ValidReason::Memory),
    }
}

/// The answer to `count`, `export NAME`, `import NAME` or `core INDEX`.
fn ask(alloc: Global, functions: &Functions<'_, '_>, words: &[&str], line: &mut Line) {
    let name = word(words, 1);
    match word(words, 0) {
        "count" => line.show(functions.count()),
        "export" => line.found(functions.export(name)),
        "import" => line.found(functions.import(name)),
        "core" => {
            let index = line.number(name);
            write_core(alloc, functions, index, line);
        }
        _ => line.refuse(),
    }
}

/// Writes what a core function is, the values that it takes and answers, its memory and encoding.
fn write_core(alloc: Global, functions: &Functions<'_, '_>, index: u32, line: &mut Line) {
    line.found(functions.describe(index));
    if let Some(kinds) = line.kept(functions.kinds(alloc, index)) {
        write_kinds(kinds, line);
    }
    if let Some(memory) = functions.memory(index) {
        line.put(" memory ");
        line.show(memory);
    }
    if let Some(encoding) = functions.encoding(index) {
        line.put(match encoding {
            StringEncoding::Utf8 => " utf8",
            StringEncoding::Utf16 => " utf16",
            StringEncoding::Latin1OrUtf16 => " latin1+utf16",
        });
    }
}

fn write_kinds(kinds: Option<CoreFuncType>, line: &mut Line) {
    if let Some(kinds) = kinds {
        line.put(" ");
        line.show(kinds);
    }
}
