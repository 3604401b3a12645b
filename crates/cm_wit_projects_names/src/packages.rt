//! The packages of units, by number.

use crate::adding::put;
use cm_names::TextTable;
use cm_types::{Label, Version};
use cm_wit_projects::Unit;
use cm_wit_projects_reading::PackageName;
use std::alloc::{AllocError, Global};

/// The text by which a package is known: `namespace:name@version`. Refused only where there is no
/// memory.
pub fn package_text(
    alloc: Global,
    namespace: &Label,
    name: &Label,
    version: &Option<Version>,
) -> Result<String, AllocError> {
    let mut out = String::from_str(alloc, namespace.as_str())?;
    out.push_str(":")?;
    out.push_str(name.as_str())?;
    if let Some(version) = version {
        out.push_str("@")?;
        out.push_str(version.as_str())?;
    }
    Ok(out)
}

fn text_of(alloc: Global, name: &PackageName) -> Result<String, AllocError> {
    package_text(alloc, &name.namespace, &name.name, &name.version)
}

/// The packages of a project, numbered from 0 in the order of their units, and that of each unit.
#[derive(Drop)]
pub struct Packages {
    texts: TextTable,
    of_units: Vec<usize>,
}

/// The number of a package, which is given one where it has none.
fn number_of(
    alloc: Global,
    texts: &mut TextTable,
    name: &PackageName,
) -> Result<usize, AllocError> {
    let text = text_of(alloc, name)?;
    if let Some(number) = texts.number(text.as_str()) {
        return Ok(number);
    }
    let number = texts.len();
    texts.add(text)?;
    Ok(number)
}

impl Packages {
    /// The packages of units. Refused only where there is no memory.
    pub fn new(alloc: Global, units: &[Unit<'_>]) -> Result<Packages, AllocError> {
        let mut texts = TextTable::new(alloc);
        let mut of_units = Vec::new(alloc);
        for unit in units {
            let number = number_of(alloc, &mut texts, unit.name)?;
            put(&mut of_units, number)?;
        }
        Ok(Packages { texts, of_units })
    }

    /// How many packages there are.
    pub fn count(&self) -> usize {
        self.texts.len()
    }

    /// The number of the package of a unit.
    pub fn of_unit(&self, unit: usize) -> usize {
        self.of_units.get(unit).copied().unwrap_or(0)
    }

    /// The number of a package by its text, if it is one of these.
    pub fn find(&self, text: &str) -> Option<usize> {
        self.texts.number(text)
    }
}
