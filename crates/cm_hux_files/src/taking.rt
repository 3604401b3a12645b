//! Files that are bundles.

use crate::loading::Loaded;
use crate::providers::{Provider, providers_of};
use crate::served::{Served, one_behind};
use crate::trouble::Trouble;
use crate::type_imports::imports_type;
use cm_bundle::{Bundle, BundleFault, BundleReason, PartExport, Sort, Supply, unbundle};
use cm_match_model::Candidate;
use cm_match_serving::{Checked, ExportEntry, ExportedEntry};
use cm_tool_help_texts::Escaped;
use cm_types::{ExternName, NameFault};
use cm_types_arena::{Extern, ExternDesc};
use std::alloc::{AllocError, Global};

/// The bundle that the file of this name is.
pub fn read_bundle<'b>(alloc: Global, name: &str, bytes: &'b [u8]) -> Result<Bundle<'b>, Trouble> {
    match unbundle(alloc, bytes) {
        Ok(bundle) => Ok(bundle),
        Err(fault) if fault.reason == BundleReason::Memory => Err(Trouble::Memory),
        Err(fault) => Err(no_bundle(alloc, name, fault)),
    }
}

/// The trouble of a file of this name, which is no bundle.
fn no_bundle(alloc: Global, name: &str, fault: BundleFault) -> Trouble {
    match String::from_str(alloc, name) {
        Ok(name) => Trouble::NoBundle { name, fault },
        Err(_) => Trouble::Memory,
    }
}

/// Whether these bytes are a bundle.
pub fn is_bundle(alloc: Global, bytes: &[u8]) -> Result<bool, AllocError> {
    match unbundle(alloc, bytes) {
        Ok(_) => Ok(true),
        Err(fault) if fault.reason == BundleReason::Memory => Err(AllocError),
        Err(_) => Ok(false),
    }
}

/// The bundle that these bytes are, if they are one.
pub(crate) fn bundle_in(alloc: Global, bytes: &[u8]) -> Result<Option<Bundle<'_>>, AllocError> {
    match unbundle(alloc, bytes) {
        Ok(bundle) => Ok(Some(bundle)),
        Err(fault) if fault.reason == BundleReason::Memory => Err(AllocError),
        Err(_) => Ok(None),
    }
}

/// The number of the part that an export is of, counted from 0 in open and closed bundles; none
/// where the bundle imports it.
pub fn part_of(bundle: &Bundle<'_>, export: PartExport<'_>) -> Option<usize> {
    if bundle.front.is_empty() {
        Some(export.part)
    } else {
        export.part.checked_sub(1)
    }
}

/// What an import of a part is given.
#[derive(Drop)]
pub(crate) enum Given {
    /// An export of a part, both by number.
    Part { part: usize, export: usize },
    /// What the bundle imports under this name.
    Open(ExternName),
}

/// How the parts of a bundle are linked.
#[derive(Drop)]
pub(crate) struct Arguments {
    /// What their imports are given, by part and import.
    pub(crate) given: Vec<Vec<Given>>,
    /// The number of the part whose exports the bundle has.
    pub(crate) exporter: usize,
}

impl Arguments {
    /// What the imports of a part are given.
    pub(crate) fn given_to(&self, part: usize) -> &[Given] {
        match self.given.get(part) {
            Some(given) => given.as_slice(),
            None => &[],
        }
    }

    /// What serves the imports of the parts; nothing serves one that is given what the bundle
    /// imports.
    pub(crate) fn served(&self, alloc: Global) -> Result<Served, AllocError> {
        let mut rows = Vec::with_capacity(alloc, self.given.len())?;
        for given in &self.given {
            rows.push(served_row(alloc, given)?)?;
        }
        Ok(Served { rows })
    }

    /// What serves the imports behind a component that has these exports: what is given of the
    /// bundle's imports is the export for their names.
    pub(crate) fn served_behind(
        &self,
        alloc: Global,
        stub: &Provider,
    ) -> Result<Served, AllocError> {
        let mut rows = Vec::new(alloc);
        rows.push(Vec::new(alloc))?;
        for given in &self.given {
            rows.push(row_behind(alloc, stub, given)?)?;
        }
        Ok(Served { rows })
    }
}

fn served_row(alloc: Global, given: &[Given]) -> Result<Vec<Candidate>, AllocError> {
    let mut row = Vec::with_capacity(alloc, given.len())?;
    for given in given {
        row.push(given.served())?;
    }
    Ok(row)
}

fn row_behind(
    alloc: Global,
    stub: &Provider,
    given: &[Given],
) -> Result<Vec<Candidate>, AllocError> {
    let mut row = Vec::with_capacity(alloc, given.len())?;
    for given in given {
        row.push(match given {
            Given::Open(name) => stub.fitting(alloc, name)?,
            part => one_behind(part.served()),
        })?;
    }
    Ok(row)
}

impl Given {
    /// The export that it is; nothing where the bundle imports it.
    fn served(&self) -> Candidate {
        match self {
            Given::Part { part, export } => Candidate::One {
                component: *part,
                export: *export,
            },
            Given::Open(_) => Candidate::None,
        }
    }
}

/// The parts of a bundle of this name, as the bundle has them and as they are loaded.
#[derive(Clone, Copy)]
struct PartsOf<'p, 'b, 'l> {
    name: &'p str,
    bundle: &'p Bundle<'b>,
    loaded: &'p [Loaded<'l>],
}

/// How the parts of a bundle of this name, which are loaded so, are linked: each argument is of the
/// import of its name, in their order, to the export of its name, or to what the bundle imports.
/// `ImportsType` comes
/// where a part imports a type, and `OtherLinks` where an argument is missing or of another import,
/// of another sort, or names no export, and where what the bundle exports is not what one part
/// does, in order.
pub(crate) fn arguments_of(
    alloc: Global,
    name: &str,
    bundle: &Bundle<'_>,
    loaded: &[Loaded<'_>],
    components: &[Checked<'_>],
) -> Result<Arguments, Trouble> {
    let parts = PartsOf {
        name,
        bundle,
        loaded,
    };
    let providers = providers_of(alloc, components)?;
    let mut given = Vec::new(alloc);
    for (number, component) in components.iter().enumerate() {
        given.push(parts.row(alloc, number, component.imports(), &providers)?)?;
    }
    let exporter = parts.exporter(alloc, components)?;
    Ok(Arguments { given, exporter })
}

impl<'p> PartsOf<'p, '_, '_> {
    /// What the imports of the part of a number are given.
    fn row(
        self,
        alloc: Global,
        number: usize,
        imports: &[Extern],
        providers: &[Provider],
    ) -> Result<Vec<Given>, Trouble> {
        let mut row = Vec::with_capacity(alloc, imports.len())?;
        let Some(part) = self.bundle.parts.get(number) else {
            return Ok(row);
        };
        if imports_type(alloc, part.file)? {
            return Err(Trouble::ImportsType { component: number });
        }
        for (place, import) in imports.iter().enumerate() {
            let Some(argument) = given_to(import, part.arguments.get(place)) else {
                let why = Wrong::NotGiven(import.name.as_str());
                return Err(self.other_links(alloc, number, why));
            };
            row.push(self.given(alloc, number, argument, providers)?)?;
        }
        match part.arguments.get(imports.len()) {
            Some(more) => Err(self.other_links(alloc, number, Wrong::NoImport(more.name))),
            None => Ok(row),
        }
    }

    /// What an argument of the part of a number gives.
    fn given(
        self,
        alloc: Global,
        number: usize,
        argument: &Supply<'_>,
        providers: &[Provider],
    ) -> Result<Given, Trouble> {
        let name = argument.export.name;
        let Some(part) = part_of(self.bundle, argument.export) else {
            return self.open(alloc, number, name);
        };
        let candidate = match providers.get(part) {
            Some(provider) => provider.named(name),
            None => Candidate::None,
        };
        match candidate {
            Candidate::One { export, .. } => Ok(Given::Part { part, export }),
            _ => Err(self.other_links(alloc, number, Wrong::NoExport { part, name })),
        }
    }

    /// What the bundle imports under a name, as it is given to the part of a number.
    fn open(self, alloc: Global, number: usize, name: &str) -> Result<Given, Trouble> {
        match ExternName::parse(alloc, name) {
            Ok(name) => Ok(Given::Open(name)),
            Err(NameFault::Memory) => Err(Trouble::Memory),
            Err(_) => Err(self.other_links(alloc, number, Wrong::NoName(name))),
        }
    }

    /// The part whose exports the bundle has: where it has none, the first that exports nothing.
    fn exporter(self, alloc: Global, components: &[Checked<'_>]) -> Result<usize, Trouble> {
        let exports = self.bundle.exports.as_slice();
        let exporter = match exports.first() {
            Some(supply) => part_of(self.bundle, supply.export),
            None => Some(first_without_exports(components)),
        };
        match exporter {
            Some(exporter) if self.are_exports_of(exporter, components) => Ok(exporter),
            _ => Err(self.other_exports(alloc)),
        }
    }

    /// Whether the bundle exports what the part of this number does, in order.
    fn are_exports_of(self, number: usize, components: &[Checked<'_>]) -> bool {
        let Some(component) = components.get(number) else {
            return false;
        };
        let exports = self.bundle.exports.as_slice();
        if component.exports().len() != exports.len() {
            return false;
        }
        for (entry, supply) in component.exports().iter().zip(exports) {
            if part_of(self.bundle, supply.export) != Some(number) || !is_of(entry, supply) {
                return false;
            }
        }
        true
    }

    fn other_exports(self, alloc: Global) -> Trouble {
        let why = "its exports are not those of one part, in order";
        match (
            String::from_str(alloc, self.name),
            String::from_str(alloc, why),
        ) {
            (Ok(name), Ok(why)) => Trouble::OtherLinks { name, why },
            _ => Trouble::Memory,
        }
    }

    /// The trouble of the part of a number.
    fn other_links(self, alloc: Global, number: usize, wrong: Wrong<'_>) -> Trouble {
        let name = String::from_str(alloc, self.word(number));
        match (name, self.why(alloc, wrong)) {
            (Ok(name), Ok(why)) => Trouble::OtherLinks { name, why },
            _ => Trouble::Memory,
        }
    }

    fn why(self, alloc: Global, wrong: Wrong<'_>) -> Result<String, AllocError> {
        match wrong {
            Wrong::NotGiven(import) => {
                let import = Escaped(import);
                format!(in alloc; "nothing is given to its import \"{import}\" in its place")
            }
            Wrong::NoImport(argument) => {
                let argument = Escaped(argument);
                format!(in alloc; "what is given to \"{argument}\" is given to no import of it")
            }
            Wrong::NoName(name) => {
                let name = Escaped(name);
                format!(in alloc;
                    "it is given \"{name}\" of the bundle's imports, which is no name"
                )
            }
            Wrong::NoExport { part, name } => {
                let (part, name) = (Escaped(self.word(part)), Escaped(name));
                format!(in alloc; "it is given \"{name}\" of {part}, which does not export that")
            }
        }
    }

    /// What the part of a number is called.
    fn word(self, number: usize) -> &'p str {
        match self.loaded.get(number) {
            Some(part) => part.word(),
            None => "",
        }
    }
}

/// What is wrong with the arguments of a part.
#[derive(Clone, Copy)]
enum Wrong<'w> {
    /// An import of this name is given nothing, or another one is given what stands in its place.
    NotGiven(&'w str),
    /// An argument of this name is of no import.
    NoImport(&'w str),
    /// An argument is an import of the bundle of this name, which is no name of an import.
    NoName(&'w str),
    /// An argument is an export of this name of this part, which has none.
    NoExport { part: usize, name: &'w str },
}

/// An argument, if it is that of this import: of its name and its sort.
fn given_to<'s, 'a>(import: &Extern, argument: Option<&'s Supply<'a>>) -> Option<&'s Supply<'a>> {
    let argument = argument?;
    let sort = match import.desc {
        ExternDesc::Func(_) => Sort::Func,
        ExternDesc::Instance { .. } => Sort::Instance,
    };
    if argument.name == import.name.as_str() && argument.export.sort == sort {
        Some(argument)
    } else {
        None
    }
}

/// The number of the first component that exports nothing; how many there are where there is none.
fn first_without_exports(components: &[Checked<'_>]) -> usize {
    for (number, component) in components.iter().enumerate() {
        if component.exports().is_empty() {
            return number;
        }
    }
    components.len()
}

/// Whether an export of a bundle is this one of a part, under its name.
fn is_of(entry: &ExportEntry<'_>, supply: &Supply<'_>) -> bool {
    let name = entry.name.as_str();
    supply.name == name && supply.export.name == name && supply.export.sort == sort_of(entry)
}

fn sort_of(entry: &ExportEntry<'_>) -> Sort {
    match entry.def {
        ExportedEntry::Func(_) => Sort::Func,
        ExportedEntry::Instance(_) => Sort::Instance,
    }
}
