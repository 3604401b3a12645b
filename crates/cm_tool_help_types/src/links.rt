//! What components have where they do not link.

use crate::blocks::{Block, Side, first_changed, first_missing, first_named, numbered};
use cm_match_model::{LinkFault, LinkReason};
use cm_tool_help_texts::Escaped;
use cm_tool_show::{ShowFault, show};
use cm_types_arena::Signature;
use std::alloc::{AllocError, Global};
use std::fmt::Write;

/// The most exporting files that are named.
const MAX_FILES: usize = 16;

/// What an import is of that is not served: the importing file, the import, which files export it,
/// and where they differ what is imported and exported. The signatures are those of components that
/// do not link, each with the name of its file; nothing is said where there is no such import.
pub fn link_help(
    alloc: Global,
    files: &[(&str, Signature)],
    fault: LinkFault,
) -> Result<String, AllocError> {
    let Some((file, signature)) = files.get(fault.component) else {
        return Ok(String::new(alloc));
    };
    let shown = shown(alloc, signature)?;
    let Some(import) = numbered(shown.as_str(), Side::Imports, fault.import) else {
        return Ok(String::new(alloc));
    };
    let said = Said {
        import,
        importer: fault.component,
        reason: fault.reason,
    };
    let mut exporters = String::new(alloc);
    let before = said.add_exporters(alloc, &mut exporters, files)?;
    let (file, name) = (Escaped(file), import.name);
    let meaning = meaning_of(fault.reason, before);
    format!(in alloc; ": {file} imports \"{name}\", {meaning}{exporters}")
}

/// The text that shows a signature; nothing where it is too long.
fn shown(alloc: Global, signature: &Signature) -> Result<String, AllocError> {
    match show(alloc, signature) {
        Ok(text) => Ok(text),
        Err(ShowFault::TooLong) => Ok(String::new(alloc)),
        Err(ShowFault::Memory) => Err(AllocError),
    }
}

/// A name without its version.
fn unversioned(name: &str) -> &str {
    match name.split_once('@') {
        Some((front, _)) => front,
        None => name,
    }
}

/// What is said of an import.
#[derive(Clone, Copy)]
struct Said<'a> {
    import: Block<'a>,
    importer: usize,
    reason: LinkReason,
}

impl Said<'_> {
    /// Adds each file that exports the import's name, in some version, and answers how many of them
    /// stand before the importer.
    fn add_exporters(
        self,
        alloc: Global,
        out: &mut String,
        files: &[(&str, Signature)],
    ) -> Result<usize, AllocError> {
        let mut is_first = true;
        let mut before: usize = 0;
        for (place, (file, signature)) in files.iter().enumerate().take(MAX_FILES) {
            let shown = shown(alloc, signature)?;
            if let Some(export) = self.exported(shown.as_str()) {
                let front = if is_first { "; exported by " } else { ", " };
                write!(out, "{front}{} (component {place})", Escaped(file))?;
                is_first = false;
                if place < self.importer {
                    before = before.saturating_add(1);
                }
                self.add_difference(alloc, out, place, export)?;
            }
        }
        Ok(before)
    }

    /// What a shown component exports under the import's name, or else under another version of it.
    fn exported<'b>(self, shown: &'b str) -> Option<Block<'b>> {
        let wanted = self.import.name;
        let exact = first_named(shown, Side::Exports, |name| name == wanted);
        exact.or(first_named(shown, Side::Exports, |name| {
            unversioned(name) == unversioned(wanted)
        }))
    }

    /// Adds in what an export differs from the import.
    fn add_difference(
        self,
        alloc: Global,
        out: &mut String,
        place: usize,
        export: Block<'_>,
    ) -> Result<(), AllocError> {
        if export.name != self.import.name {
            write!(out, " as \"{}\"", export.name)?;
        }
        if place < self.importer {
            out.push_str(self.difference(alloc, export)?.as_str())?;
        }
        Ok(())
    }

    /// In what an export differs from the import.
    fn difference(self, alloc: Global, export: Block<'_>) -> Result<String, AllocError> {
        match self.reason {
            LinkReason::MissingExport => missing_text(alloc, self.import, export),
            LinkReason::DifferentType => changed_text(alloc, self.import, export),
            _ => Ok(String::new(alloc)),
        }
    }
}

/// What the export has not.
fn missing_text(alloc: Global, import: Block<'_>, export: Block<'_>) -> Result<String, AllocError> {
    match first_missing(alloc, import, export)? {
        Some(wanted) => format!(in alloc; ": without {wanted}"),
        None => Ok(String::new(alloc)),
    }
}

/// What the export has as something else.
fn changed_text(alloc: Global, import: Block<'_>, export: Block<'_>) -> Result<String, AllocError> {
    let changed = if import.what == export.what {
        first_changed(alloc, import, export)?
    } else {
        Some((import.what, export.what))
    };
    match changed {
        Some((wanted, found)) => { format!(in alloc; ": imported {wanted}, exported {found}") }
        None => Ok(String::new(alloc)),
    }
}

/// What a reason says of the import, which so many components before the importer export.
fn meaning_of(reason: LinkReason, exporters: usize) -> &'static str {
    match reason {
        LinkReason::Empty | LinkReason::TooMany => "expected 1 to 16 components",
        LinkReason::NoProvider => "which no component before it exports",
        LinkReason::TwoProviders if exporters == 1 => {
            "of which one component before it exports more than one version that fits"
        }
        LinkReason::TwoProviders => "which more than one component before it exports",
        LinkReason::MissingExport => "and the exported instance lacks an item of it",
        LinkReason::DifferentType => "and its type is not that of the export",
        LinkReason::DifferentResource => "and a resource of it is not that of the export",
        LinkReason::Memory => "there was no memory",
    }
}
