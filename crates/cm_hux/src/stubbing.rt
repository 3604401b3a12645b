//! Writing components that stand in for a host.

use crate::objects::tell_written;
use crate::wit_files::WitFiles;
use cm_binary_model::{Component, Section};
use cm_hux_play::files::{
    Asked, Ending, Escaped, Fault, Files, LoadedFiles, Streams, caller, load_files, provider,
    provider_for, refuse_to_overwrite, signature, write_file,
};
use cm_hux_words::{Habits, StubWords};
use cm_stubs_files::{
    StubFileFault, caller_file, func_over_named, import_over_named, provider_file, provider_file_of,
};
use cm_types_arena::Signature;
use std::alloc::{AllocError, Global};
use std::io::Write;

/// Writes a component that exports what nothing serves of what these files import, or one that
/// imports what the last exports.
pub(crate) fn run_stub<F: Files, S: Streams, O: Write>(
    alloc: Global,
    words: &StubWords<'_>,
    habits: Habits,
    files: &mut F,
    streams: &mut S,
    out: &mut O,
) -> Result<Ending, Fault> {
    refuse_to_overwrite(alloc, words.out, &words.files)?;
    let bytes = match (words.wit, words.world) {
        (Some(wit), Some(world)) => {
            refuse_files(alloc, words)?;
            stub_of_world(alloc, wit, world, words, files, streams)?
        }
        _ => {
            want_files(alloc, words)?;
            stub_bytes(alloc, words, files)?
        }
    };
    write_file(alloc, streams, words.out, &bytes)?;
    if habits.json {
        tell_written(alloc, words.out, bytes.len(), out)?;
    }
    Ok(Ending::Done)
}

/// What is said where neither files nor a text are named.
const NO_FILES: &str = "error: the following required arguments were not provided:
  <FILE>...

Usage: hux stub --out <OUT> <FILE>...

For more information, try '--help'.
";

/// What is said where files and a text are named.
const FILES_TOO: &str = "error: the argument '--wit <W>' cannot be used with '<FILE>...'

Usage: hux stub --out <OUT> <FILE>...

For more information, try '--help'.
";

fn want_files(alloc: Global, words: &StubWords<'_>) -> Result<(), Fault> {
    if words.files.is_empty() {
        return Err(Fault::Usage(String::from_str(alloc, NO_FILES)?));
    }
    Ok(())
}

fn refuse_files(alloc: Global, words: &StubWords<'_>) -> Result<(), Fault> {
    if words.files.is_empty() {
        return Ok(());
    }
    Err(Fault::Usage(String::from_str(alloc, FILES_TOO)?))
}

/// The bytes of a component that stands in for a host of a world of a text or a project, or for one
/// that calls what it exports.
fn stub_of_world<F: Files, S: Streams>(
    alloc: Global,
    wit: &str,
    world: &str,
    words: &StubWords<'_>,
    files: &mut F,
    streams: &mut S,
) -> Result<Vec<u8>, Fault> {
    let texts = WitFiles::read(alloc, files, streams, wit)?;
    let file = wit;
    let signature = texts.signature(alloc, Asked { wit, world, file }, words.features)?;
    if words.caller {
        return caller_of(alloc, wit, &signature);
    }
    provider_of(alloc, wit, signature)
}

/// The file of a component that exports what a world of this file imports.
fn provider_of(alloc: Global, file: &str, world: Signature) -> Result<Vec<u8>, Fault> {
    let asked = [world];
    let stub = provider(alloc, &asked)?;
    if let Some(func) = func_over_named(alloc, &stub)? {
        return Err(over_named(alloc, file, "imports", func)?);
    }
    let [world] = &asked;
    written(alloc, provider_file_of(alloc, world))
}

/// The file of a component that imports what the component or world of this file exports.
fn caller_of(alloc: Global, file: &str, exported: &Signature) -> Result<Vec<u8>, Fault> {
    let stub = caller(alloc, exported)?;
    if let Some(func) = import_over_named(alloc, &stub)? {
        return Err(over_named(alloc, file, "exports", func)?);
    }
    written(alloc, caller_file(alloc, &stub, exported))
}

/// The bytes of the component.
fn stub_bytes<F: Files>(
    alloc: Global,
    words: &StubWords<'_>,
    files: &mut F,
) -> Result<Vec<u8>, Fault> {
    let (mut loaded, unread) = load_files(alloc, files, &words.files);
    if let Some(fault) = unread {
        return Err(fault);
    }
    loaded.serve_by(alloc, &words.serve)?;
    if words.caller {
        return caller_of_last(alloc, &loaded);
    }
    if loaded.are_chosen() || loaded.bundle().is_some() {
        open_provider(alloc, &loaded)
    } else {
        closed_provider(alloc, loaded)
    }
}

/// The file of a component that exports what nothing serves of what these files import, where words
/// or bundles say what serves it.
fn open_provider(alloc: Global, loaded: &LoadedFiles<'_>) -> Result<Vec<u8>, Fault> {
    let unchosen = if loaded.are_chosen() {
        None
    } else {
        loaded.open_provider(alloc)?
    };
    let stub = match unchosen {
        Some(stub) => stub,
        None => loaded.stub(alloc)?,
    };
    if let Some(func) = func_over_named(alloc, &stub)? {
        return Err(over_named(alloc, importer(loaded, func), "imports", func)?);
    }
    written(alloc, provider_file(alloc, &stub, &[]))
}

/// The file that imports this function: the bundle or the last file, where one of another tool
/// imports it under another name than its parts do.
fn importer<'s>(loaded: &'s LoadedFiles<'_>, func: &str) -> &'s str {
    for file in loaded.files() {
        if imports(&file.shimmed.component, func) {
            return file.word();
        }
    }
    match (loaded.bundle(), loaded.files().last()) {
        (Some((bundle, _)), _) => bundle,
        (None, Some(last)) => last.word(),
        (None, None) => "",
    }
}

/// The file of a component that exports what these files import: behind it they link.
fn closed_provider(alloc: Global, loaded: LoadedFiles<'_>) -> Result<Vec<u8>, Fault> {
    let names = names_of(alloc, &loaded)?;
    let components = loaded.into_components(alloc)?;
    let stub = provider_for(alloc, &components)?;
    if let Some(func) = func_over_named(alloc, &stub)? {
        for (name, component) in names.iter().zip(&components) {
            if imports(component, func) {
                return Err(over_named(alloc, name, "imports", func)?);
            }
        }
    }
    written(alloc, provider_file(alloc, &stub, &components))
}

/// The names of the files, in order.
fn names_of<'a>(alloc: Global, loaded: &LoadedFiles<'a>) -> Result<Vec<&'a str>, AllocError> {
    let mut names = Vec::with_capacity(alloc, loaded.files().len())?;
    for file in loaded.files() {
        names.push(file.name)?;
    }
    Ok(names)
}

/// Whether a component imports something under this name.
fn imports(component: &Component, name: &str) -> bool {
    for section in component.sections() {
        if let Section::Imports(imports) = section {
            if imports.iter().any(|import| import.name.as_str() == name) {
                return true;
            }
        }
    }
    false
}

/// The fault of a function that the file of this name imports or exports of no interface, and whose
/// type has a named type: others read no stub for it.
fn over_named(alloc: Global, file: &str, does: &str, func: &str) -> Result<Fault, AllocError> {
    let (file, func) = (Escaped(file), Escaped(func));
    let why = "of no interface, over a named type: others read no stub that has it";
    let text = format!(in alloc; "{file}: ImportsType: it {does} {func}, {why}")?;
    Ok(Fault::Refused(text))
}

/// The file of a component that imports what the last of these files exports, whatever serves their
/// imports.
fn caller_of_last(alloc: Global, loaded: &LoadedFiles<'_>) -> Result<Vec<u8>, Fault> {
    let components = loaded.check(alloc, None)?;
    if loaded.are_chosen() {
        loaded.served(alloc, &components)?;
    }
    let Some(last) = loaded.files().get(loaded.exporter()) else {
        return Err(Fault::Memory);
    };
    caller_of(alloc, last.word(), &signature(alloc, last.check(alloc)?)?)
}

/// The file of a stub, or why there is none.
fn written(alloc: Global, file: Result<Vec<u8>, StubFileFault>) -> Result<Vec<u8>, Fault> {
    match file {
        Ok(file) => Ok(file),
        Err(StubFileFault::Memory) => Err(Fault::Memory),
        Err(fault) => Err(Fault::Refused(format!(in alloc; "NotExact: {fault}")?)),
    }
}
