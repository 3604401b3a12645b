//! The words that choose where several exports fit an import.

use crate::fault::Fault;
use crate::loading::Loaded;
use crate::providers::Provider;
use crate::serve_words::{FileName, component_name};
use cm_match_model::Candidate;
use cm_tool_help_texts::Escaped;
use cm_types::ExternName;
use std::alloc::{AllocError, Global};

/// What stands behind the tail of a `TwoProviders`: the words that choose the last component before
/// this one that has an export for the import. The names are those of the files; what has none is
/// not seen.
pub(crate) fn choosing_text(
    alloc: Global,
    files: &[Loaded<'_>],
    names: &[FileName<'_>],
    first: usize,
    import: &ExternName,
) -> Result<String, Fault> {
    for (number, file) in files.iter().enumerate().take(first).rev() {
        let name = file_of(names, number);
        let checked = file.check(alloc)?;
        let provider = Provider::new(alloc, number, checked.exports())?;
        let candidate = provider.fitting(alloc, import)?;
        if candidate != Candidate::None && !name.is_empty() {
            let called = called_as(alloc, names, number, name)?;
            return Ok(words(alloc, import.as_str(), called.as_str(), candidate)?);
        }
    }
    Ok(String::new(alloc))
}

/// The file of the component of a number; nothing where it has none.
fn file_of<'n>(names: &[FileName<'n>], number: usize) -> &'n str {
    match names.get(number) {
        Some(name) => name.file,
        None => "",
    }
}

/// The word for a file: what its component is called, or its number where another one is so too.
fn called_as(
    alloc: Global,
    files: &[FileName<'_>],
    number: usize,
    file: &str,
) -> Result<String, AllocError> {
    let name = component_name(file);
    let mut alike: usize = 0;
    for other in files {
        if component_name(other.file) == name {
            alike = alike.saturating_add(1);
        }
    }
    if alike > 1 {
        return format!(in alloc; "{number}");
    }
    String::from_str(alloc, name)
}

/// The words that choose a component for an import.
fn words(
    alloc: Global,
    import: &str,
    provider: &str,
    candidate: Candidate,
) -> Result<String, AllocError> {
    let (import, provider) = (Escaped(import), Escaped(provider));
    if candidate == Candidate::Several {
        return format!(in alloc; "; choose: --serve {import}={provider}/EXPORT");
    }
    format!(in alloc; "; choose: --serve {import}={provider}, or --nearest")
}
