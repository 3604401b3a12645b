//! What the parts of bundles are called.

use crate::serve_words::component_name;
use cm_bundle::{Bundle, PartName, part_names};
use cm_match::MAX_COMPONENTS;
use cm_tool_help_texts::is_hidden;
use std::alloc::{AllocError, Global};

/// The most bytes of a name that is used for a part: this project's own choice.
const MAX_NAME: usize = 100;

/// What the parts of the bundle of this name are called, in order: of no more than one more than a
/// set may have. A part is called by the first name that the bundle has for it, as `hw/logger`, and
/// by its number, as `hw/1`, where it has none that is used, or another part has the same.
pub(crate) fn part_words(
    alloc: Global,
    name: &str,
    bundle: &Bundle<'_>,
) -> Result<Vec<String>, AllocError> {
    let count = bundle.parts.len().min(MAX_COMPONENTS + 1);
    let listed = part_names(alloc, bundle)?;
    let mut names = Vec::from_elem(alloc, "", count)?;
    put_names(&mut names, &listed);
    let mut words = Vec::with_capacity(alloc, count)?;
    for number in 0..count {
        words.push(part_word(alloc, component_name(name), &names, number)?)?;
    }
    Ok(words)
}

/// Puts the first name of each part at its place.
fn put_names<'a>(names: &mut [&'a str], listed: &[PartName<'a>]) {
    for each in listed {
        if let Some(name) = names.get_mut(each.part as usize) {
            if name.is_empty() && is_used(each.name) {
                *name = each.name;
            }
        }
    }
}

/// Whether a name is used: it is not too long, all of it is seen, and it is no number.
fn is_used(name: &str) -> bool {
    name.len() <= MAX_NAME && !name.chars().any(is_hidden) && name.parse::<u64>().is_err()
}

/// What the part of a number is called.
fn part_word(
    alloc: Global,
    bundle: &str,
    names: &[&str],
    number: usize,
) -> Result<String, AllocError> {
    let name = names.get(number).copied().unwrap_or("");
    if name.is_empty() || is_shared(names, name) {
        return format!(in alloc; "{bundle}/{number}");
    }
    format!(in alloc; "{bundle}/{name}")
}

/// Whether more than one part has this name.
fn is_shared(names: &[&str], name: &str) -> bool {
    let mut alike: usize = 0;
    for other in names {
        if *other == name {
            alike = alike.saturating_add(1);
        }
    }
    alike > 1
}
