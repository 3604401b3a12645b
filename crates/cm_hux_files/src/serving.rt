//! Which exports serve the imports of files, by the words of a command.

use crate::fault::Fault;
use crate::groups::{Group, group_of};
use crate::providers::{Provider, seen_providers};
use crate::serve_words::{FileName, ServeWord, no_word, read_word, serves_nothing};
use crate::served::Served;
use crate::taking::Given;
use cm_hux_words::ServeWords;
use cm_match_model::Candidate;
use cm_match_serving::Checked;
use cm_types::ExternName;
use cm_types_arena::Extern;
use std::alloc::{AllocError, Global};

/// What serves the imports of these components, whose files have these names, by the words of a
/// command.
///
/// A word `IMPORT=PROVIDER` is of each import of this name behind the provider; of several such
/// words the one of the last provider before the import. A word `IMPORTER/IMPORT=PROVIDER` comes
/// before these. Without a word an import is served where one component alone before it has an
/// export for it. The parts of a bundle among the files are linked as it says; what it imports is
/// served as the import of a file in its place. `Usage` comes where a word names nothing, or two
/// are of one import of one importer, and `Refused` where one serves nothing.
pub(crate) fn served_by(
    alloc: Global,
    files: &[FileName<'_>],
    components: &[Checked<'_>],
    groups: &[Group<'_>],
    serve: &ServeWords<'_>,
) -> Result<Served, Fault> {
    let providers = seen_providers(alloc, components, groups)?;
    let mut words = Vec::with_capacity(alloc, serve.words.len())?;
    for word in &serve.words {
        words.push(read_word(alloc, files, word)?)?;
    }
    let mut chooser = Chooser {
        alloc,
        providers: &providers,
        words: &words,
        used: Vec::from_elem(alloc, false, words.len())?,
        nearest: serve.nearest,
    };
    let rows = chooser.rows(components, groups)?;
    chooser.refuse_unused()?;
    Ok(Served { rows })
}

/// Whose imports are served.
#[derive(Clone, Copy)]
struct Importer {
    /// The number of the component.
    component: usize,
    /// The number by which words name it: its own, or that of its bundle's exporter.
    named: usize,
    /// The first component that does not stand before it, or before its bundle.
    first: usize,
}

impl Importer {
    /// A component that is no part of a bundle.
    fn file(component: usize) -> Importer {
        Importer {
            component,
            named: component,
            first: component,
        }
    }

    /// A component that is a part of a bundle.
    fn part(component: usize, group: &Group<'_>) -> Importer {
        Importer {
            component,
            named: group.exporter(),
            first: group.first,
        }
    }

    /// Whether a word names it by this number.
    fn is(self, number: usize) -> bool {
        number == self.component || number == self.named
    }
}

/// What chooses what serves imports.
#[derive(Drop)]
struct Chooser<'c, 'a> {
    alloc: Global,
    providers: &'c [Provider],
    words: &'c [ServeWord<'a>],
    /// Which words serve an import.
    used: Vec<bool>,
    nearest: bool,
}

impl Chooser<'_, '_> {
    /// What serves the imports of these components.
    fn rows(
        &mut self,
        components: &[Checked<'_>],
        groups: &[Group<'_>],
    ) -> Result<Vec<Vec<Candidate>>, Fault> {
        let mut rows = Vec::with_capacity(self.alloc, components.len())?;
        for (number, component) in components.iter().enumerate() {
            rows.push(match group_of(groups, number) {
                Some(group) => self.row_inside(number, group)?,
                None => self.row(number, component.imports())?,
            })?;
        }
        Ok(rows)
    }

    /// What serves the imports of a component that is no part of a bundle.
    fn row(&mut self, component: usize, imports: &[Extern]) -> Result<Vec<Candidate>, Fault> {
        let importer = Importer::file(component);
        let mut row = Vec::with_capacity(self.alloc, imports.len())?;
        for import in imports {
            row.push(self.served(importer, &import.name)?)?;
        }
        Ok(row)
    }

    /// What serves the imports of a part of a bundle: as it says, and before it what it imports.
    fn row_inside(&mut self, component: usize, group: &Group<'_>) -> Result<Vec<Candidate>, Fault> {
        let importer = Importer::part(component, group);
        let given = group.given_to(component).unwrap_or(&[]);
        let mut row = Vec::with_capacity(self.alloc, given.len())?;
        for given in given {
            row.push(match given {
                Given::Part { part, export } => Candidate::One {
                    component: part.saturating_add(group.first),
                    export: *export,
                },
                Given::Open(name) => self.served(importer, name)?,
            })?;
        }
        Ok(row)
    }

    /// What serves an import: by the word that is of it, or the nearest, or the only one.
    fn served(&mut self, importer: Importer, import: &ExternName) -> Result<Candidate, Fault> {
        match self.word_of(importer, import.as_str())? {
            Some(number) => self.served_by(number, importer, import),
            None if self.nearest => Ok(self.nearest(importer.first, import)?),
            None => Ok(self.only(importer.first, import)?),
        }
    }

    /// The number of the word that is of an import.
    fn word_of(&self, importer: Importer, import: &str) -> Result<Option<usize>, Fault> {
        let mut own = None;
        let mut found: Option<(usize, usize)> = None;
        for (number, word) in self.words.iter().enumerate() {
            if word.import != import {
                continue;
            }
            match word.importer {
                Some(named) if importer.is(named) && own.is_some() => {
                    let why = "another word is of this import already";
                    return Err(no_word(self.alloc, word.word, why));
                }
                Some(named) if importer.is(named) => own = Some(number),
                Some(_) => {}
                None => found = later(found, number, word.provider, importer.first),
            }
        }
        Ok(own.or(found.map(|(number, _)| number)))
    }

    /// What serves an import by the word of a number.
    fn served_by(
        &mut self,
        number: usize,
        importer: Importer,
        import: &ExternName,
    ) -> Result<Candidate, Fault> {
        let Some(word) = self.words.get(number).copied() else {
            return Ok(Candidate::None);
        };
        if word.provider >= importer.first {
            let why = "its provider does not stand before the importer";
            return Err(serves_nothing(self.alloc, word.word, why));
        }
        if let Some(used) = self.used.get_mut(number) {
            *used = true;
        }
        match self.candidate(&word, import)? {
            Candidate::None | Candidate::Several => {
                Err(serves_nothing(self.alloc, word.word, why_no_export(&word)))
            }
            one => Ok(one),
        }
    }

    /// The export of its provider that a word means.
    fn candidate(
        &self,
        word: &ServeWord<'_>,
        import: &ExternName,
    ) -> Result<Candidate, AllocError> {
        let Some(provider) = self.providers.get(word.provider) else {
            return Ok(Candidate::None);
        };
        match word.export {
            Some(export) => Ok(provider.named(export)),
            None => provider.fitting(self.alloc, import),
        }
    }

    /// The export for an import of the last component before this one that has any.
    fn nearest(&self, first: usize, import: &ExternName) -> Result<Candidate, AllocError> {
        for provider in self.providers.iter().take(first).rev() {
            let candidate = provider.fitting(self.alloc, import)?;
            if candidate != Candidate::None {
                return Ok(candidate);
            }
        }
        Ok(Candidate::None)
    }

    /// The export for an import of the component before this one that alone has any.
    fn only(&self, first: usize, import: &ExternName) -> Result<Candidate, AllocError> {
        let mut found = Candidate::None;
        for provider in self.providers.iter().take(first) {
            let candidate = provider.fitting(self.alloc, import)?;
            if candidate == Candidate::None {
                continue;
            }
            if found != Candidate::None {
                return Ok(Candidate::Several);
            }
            found = candidate;
        }
        Ok(found)
    }

    /// Refuses a word that serves nothing.
    fn refuse_unused(&self) -> Result<(), Fault> {
        for (word, used) in self.words.iter().zip(&self.used) {
            if !*used {
                let why = "no import of this name stands behind its provider";
                return Err(serves_nothing(self.alloc, word.word, why));
            }
        }
        Ok(())
    }
}

/// The word of the later provider before an importer: of a number, or the one found before.
fn later(
    found: Option<(usize, usize)>,
    number: usize,
    provider: usize,
    importer: usize,
) -> Option<(usize, usize)> {
    match found {
        _ if provider >= importer => found,
        Some((_, other)) if other > provider => found,
        _ => Some((number, provider)),
    }
}

/// Why the provider of a word has no export for the import.
fn why_no_export(word: &ServeWord<'_>) -> &'static str {
    match word.export {
        Some(_) => "its provider has no export of this name",
        None => "its provider has no export that fits, or more than one version: name it",
    }
}
