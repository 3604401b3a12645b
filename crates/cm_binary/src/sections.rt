//! Sections, and all of them.

ghost use Rattle.std.specs.Prelude.{◌≡◌, ◌++◌, length, map, IfOk, OnOk};
ghost use Rattle.cm_binary_model.specs.Trees.{section_tree};
ghost use Rattle.cm_binary_model.specs.Spelling.{contents_spelling, section_id, section_spelling};
ghost use Rattle.cm_binary_model.specs.Spelling.{spelling};

use crate::written::write_vec;
use cm_binary_grammar::write_blob;
use cm_binary_model::{COMPONENT_PREAMBLE, Section, contents_length, file_length};
use cm_leb::formats::write_count;
use std::alloc::{AllocError, Global};

/// The bytes of a file with these sections, with the shortest spelling of each number. Memory is
/// taken once, for as many bytes as the file has.
pub fn write_file(alloc: Global, sections: &[Section]) -> Result<Vec<u8>, AllocError>
    ensures { IfOk result (λ v. v.items ≡ spelling (map section_tree sections.now)) }
{
    let mut out = Vec::with_capacity(alloc, file_length(sections) as usize)?;
    out.extend_from_slice(&COMPONENT_PREAMBLE)?;
    for section in sections {
        write_section(&mut out, section)?;
    }
    Ok(out)
}

/// Appends a section: its id, the size of its contents in bytes, and the contents.
fn write_section(out: &mut Vec<u8>, section: &Section) -> Result<(), AllocError>
    ensures { OnOk result
        (out.new.items ≡ out.old.items ++ section_spelling (section_tree section.now)) }
{
    out.push(section_id(section))?;
    write_count(out, size_of_contents(section)?)?;
    write_contents(out, section)
}

/// The size of the section's contents in bytes. The error is that no list has room for them.
fn size_of_contents(section: &Section) -> Result<usize, AllocError>
    ensures { IfOk result
        (λ size. size ≡ length (contents_spelling (section_tree section.now))) }
{
    match contents_length(section) {
        u64::MAX => Err(AllocError),
        size => Ok(size as usize),
    }
}

/// The id of the section.
fn section_id(section: &Section) -> u8
    ensures { result ≡ section_id (section_tree section.now) }
{
    match section {
        Section::Custom(_) => 0x00,
        Section::CoreModule(_) => 0x01,
        Section::CoreInstances(_) => 0x02,
        Section::Instances(_) => 0x05,
        Section::Aliases(_) => 0x06,
        Section::Types(_) => 0x07,
        Section::Canons(_) => 0x08,
        Section::Imports(_) => 0x0a,
        Section::Exports(_) => 0x0b,
    }
}

/// Appends the contents of the section.
fn write_contents(out: &mut Vec<u8>, section: &Section) -> Result<(), AllocError>
    ensures { OnOk result
        (out.new.items ≡ out.old.items ++ contents_spelling (section_tree section.now)) }
{
    match section {
        Section::Custom(custom) => {
            write_blob(out, custom.name.as_bytes())?;
            out.extend_from_slice(&custom.bytes)
        }
        Section::CoreModule(module) => out.extend_from_slice(module),
        Section::CoreInstances(items) => write_vec(out, items),
        Section::Instances(items) => write_vec(out, items),
        Section::Aliases(items) => write_vec(out, items),
        Section::Types(items) => write_vec(out, items),
        Section::Canons(items) => write_vec(out, items),
        Section::Imports(items) => write_vec(out, items),
        Section::Exports(items) => write_vec(out, items),
    }
}
