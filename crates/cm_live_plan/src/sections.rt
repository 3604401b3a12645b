//! Where sections lie in a file: of a component (Binary.md, "Component Definitions"), or of a core
//! module (the core specification, "Sections"), which are framed alike.

use cm_leb::read_u32;
use std::alloc::{AllocError, Global};

/// The bytes of a preamble, of a component or a core module.
const PREAMBLE_SIZE: usize = 8;

/// The section of a component file that is a core module.
const CORE_MODULE: u8 = 1;

/// The section of a component file that is a component.
const COMPONENT: u8 = 4;

/// Bytes of a file: where they begin, from 0, and how many they are.
#[derive(Clone, Copy, Debug, PartialEq, Eq)]
pub struct Place {
    pub at: usize,
    pub size: usize,
}

impl Place {
    /// The byte behind the last one.
    pub(crate) fn end(self) -> usize {
        self.at.saturating_add(self.size)
    }

    /// The bytes of a file at this place; none where they are not there.
    pub(crate) fn of(self, file: &[u8]) -> &[u8] {
        file.get(self.at..self.end()).unwrap_or(&[])
    }
}

/// A section: its number, and where its contents lie.
#[derive(Clone, Copy)]
pub(crate) struct Framed {
    pub(crate) number: u8,
    pub(crate) contents: Place,
}

/// The section whose number stands at a place of a file.
fn framed_at(file: &[u8], at: usize) -> Option<Framed> {
    let number = *file.get(at)?;
    let (size, end) = read_u32(file, at.checked_add(1)?).ok()?;
    Some(Framed {
        number,
        contents: Place {
            at: end,
            size: size as usize,
        },
    })
}

/// The sections of a file, in order, up to the first that is not framed.
pub(crate) fn sections_of(alloc: Global, file: &[u8]) -> Result<Vec<Framed>, AllocError> {
    let mut sections = Vec::new(alloc);
    let mut at = PREAMBLE_SIZE;
    for _ in 0..file.len() {
        let Some(section) = framed_at(file, at) else {
            return Ok(sections);
        };
        sections.push(section)?;
        at = section.contents.end();
    }
    Ok(sections)
}

/// Where the sections of this number lie in a file, in order.
fn places_of(alloc: Global, file: &[u8], number: u8) -> Result<Vec<Place>, AllocError> {
    let mut places = Vec::new(alloc);
    for section in sections_of(alloc, file)? {
        if section.number == number {
            places.push(section.contents)?;
        }
    }
    Ok(places)
}

/// Where the core modules of a component file lie, in order.
pub fn module_places(alloc: Global, file: &[u8]) -> Result<Vec<Place>, AllocError> {
    places_of(alloc, file, CORE_MODULE)
}

/// Where the components that stand in a component file lie, in order: of a bundle its parts.
pub fn component_places(alloc: Global, file: &[u8]) -> Result<Vec<Place>, AllocError> {
    places_of(alloc, file, COMPONENT)
}
