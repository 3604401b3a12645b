//! Faults of loading in words.

use crate::fault::LoadFault;
use cm_stubs_files::shims::read;
use cm_tool_faults::{NamedFile, Shown};
use cm_validate::{Signature, signature, validate};
use std::alloc::{AllocError, Global};

impl LoadFault {
    /// The fault in one line of words, with the names of the files that were loaded, which are
    /// given in the same order: as the command prints it behind `error: `, but for `Set` and
    /// `Memory`, which are told by `Display`. `AllocError` comes where there is no memory for the
    /// words. It takes time and memory as `load` does, since files are read once more.
    pub fn shown(self, alloc: Global, files: &[NamedFile<'_>]) -> Result<Shown, AllocError> {
        match self {
            LoadFault::Link(fault) => {
                return Shown::of_link(alloc, &signatures(alloc, files)?, fault);
            }
            LoadFault::File { file, fault } => {
                if let Some(file) = files.get(file) {
                    return Shown::of_bytes(alloc, *file, fault);
                }
            }
            LoadFault::Component { file, fault } => {
                if let Some(file) = files.get(file) {
                    return Shown::of_component(alloc, *file, fault);
                }
            }
            LoadFault::Set(_) | LoadFault::Memory => {}
        }
        Ok(Shown::of_words(format!(in alloc; "{self}")?))
    }
}

/// The signatures of the components for which files stand, with the names of these, up to the first
/// file that has no valid one. A file without shims stands for the component that it spells.
pub(crate) fn signatures<'a>(
    alloc: Global,
    files: &[NamedFile<'a>],
) -> Result<Vec<(&'a str, Signature)>, AllocError> {
    let mut signatures = Vec::with_capacity(alloc, files.len())?;
    for file in files {
        match signature_of(alloc, file.bytes)? {
            Some(signature) => signatures.push((file.name, signature))?,
            None => return Ok(signatures),
        }
    }
    Ok(signatures)
}

/// The signature of the component for which a file stands, if it is valid.
fn signature_of(alloc: Global, bytes: &[u8]) -> Result<Option<Signature>, AllocError> {
    let Ok(shimmed) = read(alloc, bytes) else {
        return Ok(None);
    };
    match validate(alloc, &shimmed.component) {
        Ok(checked) => Ok(Some(signature(alloc, checked)?)),
        Err(_) => Ok(None),
    }
}
