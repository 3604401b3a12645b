//! The files of a project.

use cm_hux_play::files::{Fault, Files, Streams, read_bytes};
use std::alloc::{AllocError, Global};
use std::io;

/// What the name of a WIT text ends with.
const ENDING: &str = ".wit";

/// The folder of the packages that the files of a project name.
const BESIDE: &str = "deps";

/// A file: its name, and its bytes.
#[derive(Drop)]
pub(crate) struct WitFile {
    pub(crate) name: String,
    pub(crate) bytes: Vec<u8>,
}

/// The WIT texts that a word of the command line names: one file, or the folders of a project, the
/// project's own first. The files of a folder stand in the order of their names.
#[derive(Drop)]
pub(crate) struct WitFiles {
    pub(crate) folders: Vec<Vec<WitFile>>,
    pub(crate) is_project: bool,
}

/// Whether a name is that of a WIT text.
fn is_text(name: &str) -> bool {
    name.ends_with(ENDING)
}

/// The names of what is in a folder, in order; nothing where it is none.
fn names_in<S: Streams>(
    alloc: Global,
    streams: &mut S,
    folder: &str,
) -> Result<Option<Vec<String>>, AllocError> {
    match streams.names(alloc, folder) {
        Ok(mut names) => {
            names.sort()?;
            Ok(Some(names))
        }
        Err(error) if error.kind() == io::ErrorKind::OutOfMemory => Err(AllocError),
        Err(_) => Ok(None),
    }
}

/// The names of what is in the folder of this name in a folder, as `folder/name`.
fn path_of(alloc: Global, folder: &str, name: &str) -> Result<String, AllocError> {
    let folder = folder.strip_suffix("/").unwrap_or(folder);
    format!(in alloc; "{folder}/{name}")
}

/// Reads the file of this name.
fn read_file<F: Files>(alloc: Global, files: &mut F, name: String) -> Result<WitFile, Fault> {
    let bytes = read_bytes(alloc, files, name.as_str())?;
    Ok(WitFile { name, bytes })
}

/// Reads the texts among these names of a folder, in order.
fn read_texts<F: Files>(
    alloc: Global,
    files: &mut F,
    folder: &str,
    names: &[String],
) -> Result<Vec<WitFile>, Fault> {
    let mut texts = Vec::new(alloc);
    for name in names {
        if is_text(name.as_str()) {
            let path = path_of(alloc, folder, name.as_str())?;
            texts.push(read_file(alloc, files, path)?)?;
        }
    }
    Ok(texts)
}

/// Reads one of the packages beside a project's own: a text, or a folder of texts. Nothing where
/// there is none.
fn read_beside<F: Files, S: Streams>(
    alloc: Global,
    files: &mut F,
    streams: &mut S,
    path: String,
) -> Result<Vec<WitFile>, Fault> {
    if let Some(names) = names_in(alloc, streams, path.as_str())? {
        return read_texts(alloc, files, path.as_str(), &names);
    }
    let mut texts = Vec::new(alloc);
    if is_text(path.as_str()) {
        texts.push(read_file(alloc, files, path)?)?;
    }
    Ok(texts)
}

/// Reads the packages that stand beside a project's own.
fn read_all_beside<F: Files, S: Streams>(
    alloc: Global,
    files: &mut F,
    streams: &mut S,
    folder: &str,
    folders: &mut Vec<Vec<WitFile>>,
) -> Result<(), Fault> {
    let beside = path_of(alloc, folder, BESIDE)?;
    let Some(names) = names_in(alloc, streams, beside.as_str())? else {
        return Ok(());
    };
    for name in &names {
        let path = path_of(alloc, beside.as_str(), name.as_str())?;
        let texts = read_beside(alloc, files, streams, path)?;
        if !texts.is_empty() {
            folders.push(texts)?;
        }
    }
    Ok(())
}

impl WitFiles {
    /// The text of this name, whose bytes these are.
    pub(crate) fn of_text(
        alloc: Global,
        name: &str,
        bytes: Vec<u8>,
    ) -> Result<WitFiles, AllocError> {
        let name = String::from_str(alloc, name)?;
        let mut texts = Vec::new(alloc);
        texts.push(WitFile { name, bytes })?;
        let mut folders = Vec::new(alloc);
        folders.push(texts)?;
        Ok(WitFiles {
            folders,
            is_project: false,
        })
    }

    /// The files of the project whose folder has this name, and of the packages in its `deps`;
    /// nothing where it is no folder. The fault is that of the first file that cannot be read.
    pub(crate) fn of_folder<F: Files, S: Streams>(
        alloc: Global,
        files: &mut F,
        streams: &mut S,
        folder: &str,
    ) -> Result<Option<WitFiles>, Fault> {
        let Some(names) = names_in(alloc, streams, folder)? else {
            return Ok(None);
        };
        let mut folders = Vec::new(alloc);
        folders.push(read_texts(alloc, files, folder, &names)?)?;
        read_all_beside(alloc, files, streams, folder, &mut folders)?;
        Ok(Some(WitFiles {
            folders,
            is_project: true,
        }))
    }

    /// The text or the project of this name. The fault is that of the first file that cannot be
    /// read.
    pub(crate) fn read<F: Files, S: Streams>(
        alloc: Global,
        files: &mut F,
        streams: &mut S,
        name: &str,
    ) -> Result<WitFiles, Fault> {
        match WitFiles::of_folder(alloc, files, streams, name)? {
            Some(project) => Ok(project),
            None => {
                let bytes = read_bytes(alloc, files, name)?;
                Ok(WitFiles::of_text(alloc, name, bytes)?)
            }
        }
    }
}
