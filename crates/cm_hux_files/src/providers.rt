//! The exports of components, by name.

use crate::groups::{Group, is_seen};
use cm_match_model::{Candidate, Link};
use cm_match_serving::{Checked, ExportEntry, Exports};
use cm_names::TextTable;
use cm_types::ExternName;
use cm_types_arena::Extern;
use std::alloc::{AllocError, Global};

/// The exports of a component. One is found in a time that grows with the length of its name and
/// the logarithm of how many there are.
#[derive(Drop)]
pub(crate) struct Provider {
    component: usize,
    /// The names, each at the number of its export.
    names: TextTable,
    /// The same, by name and version.
    exports: Exports,
}

/// The exports of each of these components.
pub(crate) fn providers_of(
    alloc: Global,
    components: &[Checked<'_>],
) -> Result<Vec<Provider>, AllocError> {
    seen_providers(alloc, components, &[])
}

/// The exports of each of these components that those behind it see, where these bundles are among
/// the files.
pub(crate) fn seen_providers(
    alloc: Global,
    components: &[Checked<'_>],
    groups: &[Group<'_>],
) -> Result<Vec<Provider>, AllocError> {
    let mut providers = Vec::with_capacity(alloc, components.len())?;
    for (number, component) in components.iter().enumerate() {
        let exports = if is_seen(groups, number) {
            component.exports()
        } else {
            &[]
        };
        providers.push(Provider::new(alloc, number, exports)?)?;
    }
    Ok(providers)
}

impl Provider {
    /// The exports of the component of this number.
    pub(crate) fn new(
        alloc: Global,
        component: usize,
        entries: &[ExportEntry<'_>],
    ) -> Result<Provider, AllocError> {
        let mut names = TextTable::new(alloc);
        let mut exports = Exports::new(alloc);
        for (number, entry) in entries.iter().enumerate() {
            names.add(String::from_str(alloc, entry.name.as_str())?)?;
            exports.add(entry.name, component, number)?;
        }
        Ok(Provider {
            component,
            names,
            exports,
        })
    }

    /// The export of this name.
    pub(crate) fn named(&self, name: &str) -> Candidate {
        match self.names.number(name) {
            Some(export) => Candidate::One {
                component: self.component,
                export,
            },
            None => Candidate::None,
        }
    }

    /// The export that may serve an import: the one of its name, or else the only one that fits.
    pub(crate) fn fitting(
        &self,
        alloc: Global,
        wanted: &ExternName,
    ) -> Result<Candidate, AllocError> {
        match self.named(wanted.as_str()) {
            Candidate::None => self.exports.candidate(alloc, wanted),
            named => Ok(named),
        }
    }
}

/// The link to an export, if it is one alone.
pub(crate) fn link_to(candidate: Candidate) -> Option<Link> {
    match candidate {
        Candidate::One { component, export } => Some(Link {
            component: u32::try_from(component).ok()?,
            export,
        }),
        Candidate::None | Candidate::Several => None,
    }
}

/// The links of imports to the exports of their names of the component of this number.
pub fn links_by_name(
    alloc: Global,
    component: usize,
    exports: &[ExportEntry<'_>],
    imports: &[Extern],
) -> Result<Vec<Option<Link>>, AllocError> {
    let provider = Provider::new(alloc, component, exports)?;
    let mut row = Vec::with_capacity(alloc, imports.len())?;
    for import in imports {
        row.push(link_to(provider.named(import.name.as_str())))?;
    }
    Ok(row)
}
