//! A component file's tree.

ghost use Rattle.std.specs.Prelude.{◌≡◌, ◌≤◌, None, map, true};
ghost use Rattle.std.specs.List.{list_all, sum_by};
ghost use Rattle.cm_binary_model.specs.Trees.{section_tree};
ghost use Rattle.cm_binary_model.specs.Limits.{has_preamble, items_in, limit_fault, within_limits};
ghost use Rattle.cm_binary_model.specs.Parts.{holds};
ghost use Rattle.cm_binary_model.specs.declared.limits.TheConstants.{MAX_FILE_BYTES};

use crate::limits::{LimitFault, MAX_FILE_BYTES, MAX_TYPES, MODULE_PREAMBLE};
use crate::section::{Section, file_length, types_in_all};
use std::marker::Model;

/// The sections of a component file, in order, within the limits of files. Contracts see them as
/// trees: names as their bytes, and without where they lie in memory.
#[derive(Drop)]
pub struct Component {
    sections: Vec<Section>,
}

impl Model for Component {
    ghost use Rattle.std.specs.Prelude.{◌≡◌, List, None, map, true};
    ghost use Rattle.std.specs.List.{list_all};
    ghost use Rattle.cm_binary_model.specs.Trees.{SectionTree, section_tree};
    ghost use Rattle.cm_binary_model.specs.Limits.{limit_fault};
    ghost use Rattle.cm_binary_model.specs.Parts.{holds};

    ghost Value = { List SectionTree };

    ghost view = { λ c. map section_tree c.sections.items };

    ghost invariant = { λ c.
        (limit_fault (map section_tree c.sections.items) ≡ None)
        × (list_all holds (map section_tree c.sections.items) ≡ true) };
}

impl Component {
    /// The component of these sections, of which a file can be made.
    ///
    /// Refused are more than 4,096 types (`TooMany`), sections whose shortest file takes more than
    /// 16,777,216 bytes (`TooLong`), and a core module that does not begin with its preamble
    /// (`NotAModule`), in this order. Sections that are refused are dropped.
    pub fn new(sections: Vec<Section>) -> Result<Component, LimitFault>
        ensures { result ≡ within_limits (map section_tree sections.items) }
    {
        match limit_fault(&sections) {
            Some(fault) => Err(fault),
            None => Ok(Component { sections }),
        }
    }

    /// The sections, in order. They have fewer items than their shortest file has bytes, and so at
    /// most 16,777,216 together.
    pub fn sections(&self) -> &[Section]
        ensures sections { map section_tree result.now ≡ self.now }
        ensures limits { limit_fault self.now ≡ None }
        ensures few { sum_by items_in self.now ≤ MAX_FILE_BYTES }
        ensures parts { list_all holds self.now ≡ true }
    {
        &self.sections
    }
}

/// The component of sections that keep the limits, and whose parts hold theirs, as what was read of
/// a file does. Nothing is looked at again.
pub fn component_within_limits(sections: Vec<Section>) -> Component
    requires limits { limit_fault (map section_tree sections.items) ≡ None }
    requires parts { list_all holds (map section_tree sections.items) ≡ true }
    ensures { result ≡ map section_tree sections.items }
{
    Component { sections }
}

/// The first limit that the sections do not keep.
fn limit_fault(sections: &[Section]) -> Option<LimitFault>
    ensures fault { result ≡ limit_fault (map section_tree sections.now) }
    ensures holds { list_all holds (map section_tree sections.now) ≡ true }
{
    let length = file_length(sections);
    if types_in_all(sections) > MAX_TYPES as u64 {
        Some(LimitFault::TooMany)
    } else if length > MAX_FILE_BYTES as u64 {
        Some(LimitFault::TooLong)
    } else if have_preambles(sections) {
        None
    } else {
        Some(LimitFault::NotAModule)
    }
}

/// Whether each core module begins with its preamble.
fn have_preambles(sections: &[Section]) -> bool
    ensures { result ≡ list_all has_preamble (map section_tree sections.now) }
{
    for section in sections {
        if !has_preamble(section) {
            return false;
        }
    }
    true
}

/// Whether the section is no core module, or one that begins with its preamble.
fn has_preamble(section: &Section) -> bool
    ensures { result ≡ has_preamble (section_tree section.now) }
{
    match section {
        Section::CoreModule(bytes) => bytes.starts_with(&MODULE_PREAMBLE),
        _ => true,
    }
}
