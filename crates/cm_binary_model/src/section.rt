//! The sections of a component file.

ghost use Rattle.std.specs.Prelude.{◌≡◌, length, map, true};
ghost use Rattle.std.specs.List.{list_all, sum_by};
ghost use Rattle.cm_binary_model.specs.Trees.{SectionTree, section_tree};
ghost use Rattle.cm_binary_model.specs.Spelling.{contents_spelling, section_spelling, spelling};
ghost use Rattle.cm_binary_model.specs.Limits.{types_in};
ghost use Rattle.cm_binary_model.specs.Parts.{holds};
ghost use Rattle.cm_binary_model.specs.Measures.{saturate};

use crate::aliases::Alias;
use crate::canons::Canon;
use crate::externs::{Export, Import};
use crate::instances::{CoreInstance, Instance};
use crate::limits::COMPONENT_PREAMBLE;
use crate::measuring::{number_length, text_length};
use crate::part::{Part, length_of_all, length_of_vec};
use crate::types::types_in_defs;
use cm_types::DefType;

/// One section of a file (Binary.md, "Component Definitions").
#[derive(Drop)]
pub enum Section {
    /// Section 0: a name, and bytes that have no meaning here.
    Custom(CustomSection),
    /// Section 1: a core module, of which only its preamble is looked at.
    CoreModule(Vec<u8>),
    /// Section 2.
    CoreInstances(Vec<CoreInstance>),
    /// Section 5.
    Instances(Vec<Instance>),
    /// Section 6.
    Aliases(Vec<Alias>),
    /// Section 7.
    Types(Vec<DefType>),
    /// Section 8.
    Canons(Vec<Canon>),
    /// Section 10.
    Imports(Vec<Import>),
    /// Section 11.
    Exports(Vec<Export>),
}

/// A custom section (Binary.md, "Custom Sections").
#[derive(Drop)]
pub struct CustomSection {
    pub name: String,
    pub bytes: Vec<u8>,
}

impl Part for Section {
    ghost Tree = { SectionTree };

    ghost tree = { section_tree };

    ghost spelling = { section_spelling };

    ghost holds = { holds };

    fn length(&self) -> u64 {
        let contents = contents_length(self);
        contents.saturating_add(1 + number_length(contents))
    }
}

/// The length of the shortest spelling of a section's contents in bytes, or `u64::MAX` where it is
/// more.
pub fn contents_length(section: &Section) -> u64
    ensures length { result ≡ saturate (length (contents_spelling (section_tree section.now))) }
    ensures holds { holds (section_tree section.now) ≡ true }
{
    match section {
        Section::Custom(custom) => {
            text_length(&custom.name).saturating_add(custom.bytes.len() as u64)
        }
        Section::CoreModule(bytes) => bytes.len() as u64,
        Section::CoreInstances(items) => length_of_vec(items),
        Section::Instances(items) => length_of_vec(items),
        Section::Aliases(items) => length_of_vec(items),
        Section::Types(items) => length_of_vec(items),
        Section::Canons(items) => length_of_vec(items),
        Section::Imports(items) => length_of_vec(items),
        Section::Exports(items) => length_of_vec(items),
    }
}

/// The length of the shortest file with these sections in bytes, or `u64::MAX` where it is more.
pub fn file_length(sections: &[Section]) -> u64
    ensures length { result ≡ saturate (length (spelling (map section_tree sections.now))) }
    ensures holds { list_all holds (map section_tree sections.now) ≡ true }
{
    length_of_all(sections).saturating_add(COMPONENT_PREAMBLE.len() as u64)
}

/// How many types a section takes of those that a file may have, or `u64::MAX` where it is more.
pub fn types_in(section: &Section) -> u64
    ensures { result ≡ saturate (types_in (section_tree section.now)) }
{
    match section {
        Section::Types(types) => types_in_defs(types),
        _ => 0,
    }
}

/// How many types the sections take, or `u64::MAX` where it is more.
pub(crate) fn types_in_all(sections: &[Section]) -> u64
    ensures { result ≡ saturate (sum_by types_in (map section_tree sections.now)) }
{
    let mut total: u64 = 0;
    for section in sections {
        total = total.saturating_add(types_in(section));
    }
    total
}
