//! Bundles among the files of a command.

use crate::fault::Fault;
use crate::taking::{Arguments, Given};
use cm_match_model::{Choices, Place};
use cm_tool_commands::Fault as ToolFault;
use cm_tool_help_texts::Escaped;
use cm_types::ExternName;
use std::alloc::{AllocError, Global};

/// A bundle among other files. Its parts are components of the set, linked as its arguments say,
/// and count as one: those behind it see the exports of its exporter alone.
#[derive(Drop)]
pub struct Group<'a> {
    /// The word of the command line that names the bundle.
    pub name: &'a str,
    /// Its bytes.
    pub bytes: Vec<u8>,
    /// The number of its first part in the set, from 0.
    pub first: usize,
    /// How its parts are linked.
    pub(crate) inside: Arguments,
}

impl Group<'_> {
    /// The number in the set of the part whose exports it has.
    pub(crate) fn exporter(&self) -> usize {
        self.first.saturating_add(self.inside.exporter)
    }

    /// What the imports of the component of this number are given, if it is a part.
    pub(crate) fn given_to(&self, component: usize) -> Option<&[Given]> {
        match component.checked_sub(self.first) {
            Some(part) => Some(self.inside.given.get(part)?.as_slice()),
            None => None,
        }
    }

    /// The name of the bundle's import that is given to an import of the component of this number,
    /// if one is.
    pub(crate) fn open_name(&self, component: usize, import: usize) -> Option<&ExternName> {
        match self.given_to(component)?.get(import)? {
            Given::Open(name) => Some(name),
            Given::Part { .. } => None,
        }
    }
}

/// The bundle among these of which the component of this number is a part.
pub(crate) fn group_of<'g, 'a>(groups: &'g [Group<'a>], component: usize) -> Option<&'g Group<'a>> {
    for group in groups {
        if group.given_to(component).is_some() {
            return Some(group);
        }
    }
    None
}

/// Whether those behind the file of a component see its exports.
pub(crate) fn is_seen(groups: &[Group<'_>], component: usize) -> bool {
    match group_of(groups, component) {
        Some(group) => group.exporter() == component,
        None => true,
    }
}

/// Adds the places of so many components, where bundles are among their files.
pub(crate) fn add_places(
    choices: &mut Choices,
    groups: &[Group<'_>],
    count: usize,
) -> Result<(), AllocError> {
    if groups.is_empty() {
        return Ok(());
    }
    for component in 0..count {
        choices.places.push(place_of(groups, component))?;
    }
    Ok(())
}

/// The place of a file of its own.
pub(crate) const OWN_PLACE: Place = Place {
    begins: true,
    is_seen: true,
};

fn place_of(groups: &[Group<'_>], component: usize) -> Place {
    match group_of(groups, component) {
        Some(group) => Place {
            begins: group.first == component,
            is_seen: group.exporter() == component,
        },
        None => OWN_PLACE,
    }
}

/// The fault of a bundle of this name, inside of which there is this fault.
pub(crate) fn fault_inside(alloc: Global, name: &str, fault: Fault) -> Fault {
    match &fault {
        Fault::Bundle(_) | Fault::File { .. } => return fault,
        Fault::Memory | Fault::Tool(ToolFault::Memory) => return Fault::Memory,
        _ => {}
    }
    let name = Escaped(name);
    match format!(in alloc; "{name}: {fault}") {
        Ok(text) => Fault::Refused(text),
        Err(_) => Fault::Memory,
    }
}
