//! The names of components.

use cm_hux_drive::files::LoadedFiles;
use std::alloc::{AllocError, Global};

/// The names of the components of files.
pub fn component_names<'b>(
    alloc: Global,
    loaded: &'b LoadedFiles<'_>,
) -> Result<Vec<&'b str>, AllocError> {
    let mut names = Vec::with_capacity(alloc, loaded.files().len())?;
    for file in loaded.files() {
        names.push(file.called())?;
    }
    Ok(names)
}

/// The words of the command line that name the files; of a part of a bundle among them its name.
pub(crate) fn file_names(
    alloc: Global,
    loaded: &LoadedFiles<'_>,
) -> Result<Vec<String>, AllocError> {
    let mut names = Vec::with_capacity(alloc, loaded.files().len())?;
    for file in loaded.files() {
        names.push(String::from_str(alloc, file.word())?)?;
    }
    Ok(names)
}
