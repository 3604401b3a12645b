//! The name that stands twice in a list.

use crate::escaped::Escaped;
use cm_binary_model::{CoreInstance, InlineExport, Section};
use cm_types::{CaseType, Declaration, DefType, DefValType, Label, LabeledValType};
use std::alloc::{AllocError, Global};
use std::collections::BTreeSet;
use std::fmt::Write;

/// Names, in order.
type Names<'a> = Vec<&'a str>;

/// A text in lower case.
fn lower(alloc: Global, text: &str) -> Result<Vec<u8>, AllocError> {
    let mut out = Vec::with_capacity(alloc, text.len())?;
    for byte in text.as_bytes() {
        out.push(byte.to_ascii_lowercase())?;
    }
    Ok(out)
}

/// The first of these names that stands before it already, ASCII case aside.
fn first_twice<'a>(alloc: Global, names: &[&'a str]) -> Result<Option<&'a str>, AllocError> {
    let mut seen = BTreeSet::new(alloc);
    for name in names {
        if !seen.insert(lower(alloc, name)?)? {
            return Ok(Some(name));
        }
    }
    Ok(None)
}

fn labels_of<'a>(alloc: Global, labels: &'a [Label]) -> Result<Names<'a>, AllocError> {
    let mut names = Vec::with_capacity(alloc, labels.len())?;
    for label in labels {
        names.push(label.as_str())?;
    }
    Ok(names)
}

fn fields_of<'a>(alloc: Global, fields: &'a [LabeledValType]) -> Result<Names<'a>, AllocError> {
    let mut names = Vec::with_capacity(alloc, fields.len())?;
    for field in fields {
        names.push(field.label.as_str())?;
    }
    Ok(names)
}

fn cases_of<'a>(alloc: Global, cases: &'a [CaseType]) -> Result<Names<'a>, AllocError> {
    let mut names = Vec::with_capacity(alloc, cases.len())?;
    for case in cases {
        names.push(case.label.as_str())?;
    }
    Ok(names)
}

fn names_of_type<'a>(alloc: Global, def: &'a DefType) -> Result<Names<'a>, AllocError> {
    match def {
        DefType::Value(DefValType::Record(fields)) => fields_of(alloc, fields),
        DefType::Value(DefValType::Variant(cases)) => cases_of(alloc, cases),
        DefType::Value(DefValType::Flags(labels) | DefValType::Enum(labels)) => {
            labels_of(alloc, labels)
        }
        DefType::Func(func) => fields_of(alloc, &func.params),
        DefType::Instance(declarations) => exports_of_type(alloc, declarations),
        _ => Ok(Vec::new(alloc)),
    }
}

/// The names that the instances of a type export.
fn exports_of_type<'a>(
    alloc: Global,
    declarations: &'a [Declaration],
) -> Result<Names<'a>, AllocError> {
    let mut names = Vec::new(alloc);
    for declaration in declarations {
        if let Declaration::Export(export) = declaration {
            names.push(export.name.as_str())?;
        }
    }
    Ok(names)
}

fn exports_of<'a>(alloc: Global, exports: &'a [InlineExport]) -> Result<Names<'a>, AllocError> {
    let mut names = Vec::with_capacity(alloc, exports.len())?;
    for export in exports {
        names.push(export.name.as_str())?;
    }
    Ok(names)
}

fn names_of_core<'a>(alloc: Global, instance: &'a CoreInstance) -> Result<Names<'a>, AllocError> {
    let mut names = Vec::new(alloc);
    match instance {
        CoreInstance::Instantiate { args, .. } => {
            for arg in args {
                names.push(arg.name.as_str())?;
            }
        }
        CoreInstance::Exports(exports) => {
            for export in exports {
                names.push(export.name.as_str())?;
            }
        }
    }
    Ok(names)
}

fn alone<'a>(alloc: Global, name: Option<&'a str>) -> Result<Names<'a>, AllocError> {
    let mut names = Vec::new(alloc);
    if let Some(name) = name {
        names.push(name)?;
    }
    Ok(names)
}

/// The names that an item has: of an import and an export its own, of others those in it.
fn names_of<'a>(alloc: Global, section: &'a Section, item: usize) -> Result<Names<'a>, AllocError> {
    match section {
        Section::Imports(items) => {
            alone(alloc, items.get(item).map(|import| import.name.as_str()))
        }
        Section::Exports(items) => {
            alone(alloc, items.get(item).map(|export| export.name.as_str()))
        }
        Section::Types(items) => match items.get(item) {
            Some(def) => names_of_type(alloc, def),
            None => Ok(Vec::new(alloc)),
        },
        Section::CoreInstances(items) => match items.get(item) {
            Some(instance) => names_of_core(alloc, instance),
            None => Ok(Vec::new(alloc)),
        },
        Section::Instances(items) => match items.get(item) {
            Some(instance) => exports_of(alloc, &instance.exports),
            None => Ok(Vec::new(alloc)),
        },
        _ => Ok(Vec::new(alloc)),
    }
}

/// The name that stands twice, of an import, an export, a type, a core instance or an instance.
pub(crate) fn names_help(
    alloc: Global,
    section: &Section,
    item: usize,
) -> Result<String, AllocError> {
    let names = names_of(alloc, section, item)?;
    let twice = match section {
        Section::Imports(_) | Section::Exports(_) => names.first().copied(),
        _ => first_twice(alloc, &names)?,
    };
    match twice {
        Some(name) => format!(in alloc; ": \"{}\" stands twice", Escaped(name)),
        None => Ok(String::new(alloc)),
    }
}

/// The most names that a line shows.
const MAX_NAMES: usize = 3;

/// The names of an item that have brackets, the first ones where there are many: one of them is at
/// fault.
pub(crate) fn annotated_help(
    alloc: Global,
    section: &Section,
    item: usize,
) -> Result<String, AllocError> {
    let names = names_of(alloc, section, item)?;
    let mut out = String::new(alloc);
    let mut count: usize = 0;
    for name in &names {
        if name.starts_with('[') && count < MAX_NAMES {
            let before = if count == 0 { ": found " } else { ", " };
            write!(out, "{before}\"{}\"", Escaped(name))?;
            count = count.saturating_add(1);
        }
    }
    Ok(out)
}
