//! Reading the files of a command.

use crate::fault::Fault;
use cm_binary::Component;
use cm_match::{LinkFault, Linked, MAX_COMPONENTS, link};
use cm_tool_files::{
    BadFile, Checked, FileReason, Files, checked_of, component_of, read_file, text_of,
};
use cm_tool_help_texts::{bytes_help, valid_help};
use cm_tool_help_types::link_help;
use cm_tool_lines::BadLine;
use cm_tool_script::Script;
use cm_validate::signature;
use std::alloc::{AllocError, Global};

/// The components of some files, in order: those before the first file that cannot be read or is
/// no component file, with its fault, where there is one.
#[derive(Drop)]
pub struct LoadedFiles<'a> {
    loaded: Vec<LoadedFile<'a>>,
    fault: Option<(BadFile<'a>, String)>,
    /// How many files there are.
    count: usize,
}

/// A file with its component.
#[derive(Drop)]
struct LoadedFile<'a> {
    name: &'a str,
    component: Component,
}

/// The fault of a file, without a tail.
pub(crate) fn unread(alloc: Global, bad: BadFile<'_>) -> Fault {
    Fault::file(alloc, bad, String::new(alloc))
}

/// What the bytes of a file have at its fault, in words; nothing where there is no memory for them.
fn tail_of_bytes(alloc: Global, bytes: &[u8], bad: BadFile<'_>) -> String {
    match bad.reason {
        FileReason::NoComponent { fault, .. } => kept(alloc, bytes_help(alloc, bytes, fault)),
        _ => String::new(alloc),
    }
}

/// A tail, or none where there is no memory for it.
pub(crate) fn kept<E: Drop>(alloc: Global, tail: Result<String, E>) -> String {
    match tail {
        Ok(tail) => tail,
        Err(_) => String::new(alloc),
    }
}

/// The component of a file, or its fault with what stands there.
fn load<'a, F: Files>(
    alloc: Global,
    files: &mut F,
    name: &'a str,
) -> Result<Component, (BadFile<'a>, String)> {
    match read_file(alloc, files, name) {
        Err(bad) => Err((bad, String::new(alloc))),
        Ok(bytes) => match component_of(alloc, name, bytes.as_slice()) {
            Ok(component) => Ok(component),
            Err(bad) => {
                let tail = tail_of_bytes(alloc, bytes.as_slice(), bad);
                Err((bad, tail))
            }
        },
    }
}

/// The component of the file of this name.
pub(crate) fn load_file<F: Files>(
    alloc: Global,
    files: &mut F,
    name: &str,
) -> Result<Component, Fault> {
    match load(alloc, files, name) {
        Ok(component) => Ok(component),
        Err((bad, tail)) => Err(Fault::file(alloc, bad, tail)),
    }
}

/// The component of a file as a valid one.
pub(crate) fn check<'b>(
    alloc: Global,
    name: &str,
    component: &'b Component,
) -> Result<Checked<'b>, Fault> {
    match checked_of(alloc, name, component) {
        Ok(checked) => Ok(checked),
        Err(bad) => {
            let tail = match bad.reason {
                FileReason::NotValid(fault) => kept(alloc, valid_help(alloc, component, fault)),
                _ => String::new(alloc),
            };
            Err(Fault::file(alloc, bad, tail))
        }
    }
}

/// The components of these files, which are read and decoded in order, up to the first that cannot
/// be. Where there are more than a set may have, one more than that is read, and the others are
/// not.
pub fn load_files<'a, F: Files>(
    alloc: Global,
    files: &mut F,
    names: &[&'a str],
) -> Result<LoadedFiles<'a>, AllocError> {
    let count = names.len();
    let mut loaded = Vec::with_capacity(alloc, count.min(MAX_COMPONENTS + 1))?;
    for name in names.iter().take(MAX_COMPONENTS + 1) {
        match load(alloc, files, name) {
            Ok(component) => loaded.push(LoadedFile { name, component })?,
            Err(bad) => {
                let fault = Some(bad);
                return Ok(LoadedFiles {
                    loaded,
                    fault,
                    count,
                });
            }
        }
    }
    let fault = None;
    Ok(LoadedFiles {
        loaded,
        fault,
        count,
    })
}

impl<'a> LoadedFiles<'a> {
    /// The linked set of the components, which borrows them. They are validated in order, and then
    /// linked; the fault is the first in the order of the files, or else that of the links.
    pub fn link<'b>(&'b self, alloc: Global) -> Result<Linked<'b>, Fault> {
        let components = self.check(alloc)?;
        match link(alloc, components) {
            Ok(linked) => Ok(linked),
            Err(fault) => Err(Fault::Link {
                fault,
                count: self.count,
                tail: kept(alloc, self.tail_of(alloc, fault)),
            }),
        }
    }

    /// The components as valid ones, in order, where all files have been read.
    fn check<'b>(&'b self, alloc: Global) -> Result<Vec<Checked<'b>>, Fault> {
        let mut components = Vec::with_capacity(alloc, self.loaded.len())?;
        for file in &self.loaded {
            components.push(check(alloc, file.name, &file.component)?)?;
        }
        match &self.fault {
            Some((bad, tail)) => Err(Fault::file(alloc, *bad, tail.clone()?)),
            None => Ok(components),
        }
    }

    /// What the components have where they do not link, in words.
    fn tail_of(&self, alloc: Global, fault: LinkFault) -> Result<String, Fault> {
        let mut files = Vec::with_capacity(alloc, self.loaded.len())?;
        for file in &self.loaded {
            let component = check(alloc, file.name, &file.component)?;
            files.push((file.name, signature(alloc, component)?))?;
        }
        Ok(link_help(alloc, &files, fault)?)
    }
}

/// The script of a file, for so many components.
pub fn load_script<F: Files>(
    alloc: Global,
    files: &mut F,
    name: &str,
    components: usize,
) -> Result<Script, Fault> {
    let bytes = match read_file(alloc, files, name) {
        Ok(bytes) => bytes,
        Err(bad) => return Err(unread(alloc, bad)),
    };
    let text = match text_of(name, bytes.as_slice()) {
        Ok(text) => text,
        Err(bad) => return Err(unread(alloc, bad)),
    };
    match Script::parse(alloc, text, components) {
        Ok(script) => Ok(script),
        Err(refusal) => {
            let bad = BadLine::new(alloc, text, components, refusal)?;
            Err(Fault::Script(bad))
        }
    }
}
