//! The words behind `--serve`.

use crate::fault::Fault;
use cm_tool_help_texts::Escaped;
use std::alloc::Global;

/// What a component is called: the name of its file without folder and `.wasm`.
pub fn component_name(file: &str) -> &str {
    let name = match file.rsplit_once('/') {
        Some((_, name)) => name,
        None => file,
    };
    name.strip_suffix(".wasm").unwrap_or(name)
}

/// What a word behind `--serve` says, `IMPORT=PROVIDER` or `IMPORTER/IMPORT=PROVIDER`, with
/// components by number.
#[derive(Clone, Copy)]
pub(crate) struct ServeWord<'a> {
    pub(crate) word: &'a str,
    /// The component whose import it is; each behind the provider where none is named.
    pub(crate) importer: Option<usize>,
    /// The name of the import.
    pub(crate) import: &'a str,
    pub(crate) provider: usize,
    /// The name of the export, where one is named.
    pub(crate) export: Option<&'a str>,
}

/// What names a component: its file, or nothing, and what it is called as a part of a bundle.
#[derive(Clone, Copy)]
pub(crate) struct FileName<'n> {
    pub(crate) file: &'n str,
    pub(crate) part: Option<&'n str>,
}

impl FileName<'_> {
    /// Whether a component is called so.
    fn is(self, word: &str) -> bool {
        let is_file = !self.file.is_empty() && component_name(self.file) == word;
        is_file || self.part == Some(word)
    }
}

/// The components that a word names.
enum NamedFile {
    Nothing,
    One(usize),
    Several,
}

/// The components that a word names: the one that is called so, or else the one of a number.
fn called(files: &[FileName<'_>], word: &str) -> NamedFile {
    let mut found = NamedFile::Nothing;
    for (number, file) in files.iter().enumerate() {
        if file.is(word) {
            found = match found {
                NamedFile::Nothing => NamedFile::One(number),
                NamedFile::One(_) | NamedFile::Several => NamedFile::Several,
            };
        }
    }
    match (found, word.parse::<usize>()) {
        (NamedFile::Nothing, Ok(number)) if number < files.len() => NamedFile::One(number),
        (found, _) => found,
    }
}

/// The fault of a word that says nothing.
pub(crate) fn no_word(alloc: Global, word: &str, why: &str) -> Fault {
    match format!(in alloc; "error: --serve {word}: {why}") {
        Ok(text) => Fault::Usage(text),
        Err(_) => Fault::Memory,
    }
}

/// The fault of a word that serves nothing.
pub(crate) fn serves_nothing(alloc: Global, word: &str, why: &str) -> Fault {
    let word = Escaped(word);
    match format!(in alloc; "--serve {word}: {why}") {
        Ok(text) => Fault::Refused(text),
        Err(_) => Fault::Memory,
    }
}

/// Refuses the words of a command for the files of a bundle, which its arguments link: the first
/// of them serves nothing.
pub(crate) fn refuse_words(alloc: Global, words: &[&str]) -> Result<(), Fault> {
    match words.first() {
        Some(word) => {
            let why = "a bundle is linked by its own arguments";
            Err(serves_nothing(alloc, word, why))
        }
        None => Ok(()),
    }
}

/// What is said where more than one file is called so.
const SEVERAL: &str = "more than one file is called so: name it by its number, counted from 0";

/// The component that is to serve, and the name of its export, where one is named.
fn provider_in<'a>(
    alloc: Global,
    files: &[FileName<'_>],
    word: &str,
    named: &'a str,
) -> Result<(usize, Option<&'a str>), Fault> {
    match called(files, named) {
        NamedFile::One(provider) => return Ok((provider, None)),
        NamedFile::Several => return Err(no_word(alloc, word, SEVERAL)),
        NamedFile::Nothing => {}
    }
    let Some((provider, export)) = named.split_once('/') else {
        return Err(no_word(alloc, word, "no file is called as its provider"));
    };
    match called(files, provider) {
        NamedFile::One(provider) => Ok((provider, Some(export))),
        NamedFile::Several => Err(no_word(alloc, word, SEVERAL)),
        NamedFile::Nothing => Err(no_word(alloc, word, "no file is called as its provider")),
    }
}

/// The component whose import it is, where one is named, and the name of the import.
fn import_in<'a>(
    alloc: Global,
    files: &[FileName<'_>],
    word: &str,
    named: &'a str,
) -> Result<(Option<usize>, &'a str), Fault> {
    let Some((importer, import)) = named.split_once('/') else {
        return Ok((None, named));
    };
    match called(files, importer) {
        NamedFile::One(importer) => Ok((Some(importer), import)),
        NamedFile::Several => Err(no_word(alloc, word, SEVERAL)),
        NamedFile::Nothing => Ok((None, named)),
    }
}

/// What a word says of components whose files have these names. `Usage` comes where it has no `=`,
/// or nothing on a side of it, and where no file, or more than one, is called as its provider.
pub(crate) fn read_word<'a>(
    alloc: Global,
    files: &[FileName<'_>],
    word: &'a str,
) -> Result<ServeWord<'a>, Fault> {
    let Some((import, provider)) = word.split_once('=') else {
        return Err(no_word(
            alloc,
            word,
            "no = stands between an import and its provider",
        ));
    };
    if import.is_empty() || provider.is_empty() {
        return Err(no_word(alloc, word, "nothing stands on one side of ="));
    }
    let (importer, import) = import_in(alloc, files, word, import)?;
    let (provider, export) = provider_in(alloc, files, word, provider)?;
    Ok(ServeWord {
        word,
        importer,
        import,
        provider,
        export,
    })
}
