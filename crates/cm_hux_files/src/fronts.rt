//! What stands in front of the parts of open bundles.

use crate::fault::Fault;
use crate::loading::{load_part, of_file};
use cm_binary::write_file;
use cm_binary_model::{COMPONENT_PREAMBLE, Component, Section};
use cm_bundle::ImportGroup;
use cm_leb::formats::write_count;
use cm_stubs::{StubFault, caller, provider};
use cm_tool_commands::{Checked, checked_of, signature};
use cm_types_arena::Signature;
use std::alloc::{AllocError, Global};

/// The contents of a section that has nothing.
const NOTHING: [u8; 1] = [0];

/// What an open bundle imports, and a component that exports that, in order.
#[derive(Drop)]
pub struct Front {
    groups: Vec<FrontGroup>,
    pub(crate) stub: Component,
}

/// Three sections in front of the parts, by their contents.
#[derive(Drop)]
struct FrontGroup {
    types: Vec<u8>,
    imports: Vec<u8>,
    aliases: Vec<u8>,
    /// The last of them that has something.
    last: Kind,
}

/// A section in front of the parts, in the order of a group.
#[derive(Clone, Copy, PartialEq, Eq, PartialOrd, Ord)]
enum Kind {
    Types,
    Imports,
    Aliases,
}

impl Front {
    /// What imports all that these signatures do: versions of an interface that are compatible are
    /// one import, under the latest of them. `Refused` comes where a function passes handles of a
    /// resource that its signature does not import.
    pub(crate) fn of(alloc: Global, signatures: &[Signature]) -> Result<Front, Fault> {
        let groups = groups_of(alloc, signatures)?;
        let stub = stub_of(alloc, "", &borrowed(alloc, &groups)?)?;
        Ok(Front { groups, stub })
    }

    /// The sections, in order.
    pub fn groups(&self, alloc: Global) -> Result<Vec<ImportGroup<'_>>, AllocError> {
        borrowed(alloc, &self.groups)
    }
}

/// The sections that import what these signatures do.
fn groups_of(alloc: Global, signatures: &[Signature]) -> Result<Vec<FrontGroup>, Fault> {
    let exporter = match provider(alloc, signatures) {
        Ok(stub) => stub,
        Err(StubFault::NoResource) => return Err(no_resource(alloc)),
        Err(fault) => return Err(Fault::from(fault)),
    };
    let importer = caller_of(alloc, &exporter)?;
    Ok(grouped(alloc, importer.sections())?)
}

/// A component that imports what a stub exports.
pub(crate) fn caller_of(alloc: Global, stub: &Component) -> Result<Component, Fault> {
    let exports = signature(alloc, valid_stub(alloc, stub)?)?;
    Ok(caller(alloc, &exports)?)
}

/// The fault of an open import that passes handles of a resource that is not open.
fn no_resource(alloc: Global) -> Fault {
    let text = "NoResource: an import that nothing serves passes handles of a resource of one that \
                is served: an open bundle cannot import it alone";
    match String::from_str(alloc, text) {
        Ok(text) => Fault::Refused(text),
        Err(_) => Fault::Memory,
    }
}

/// A stub as a valid component.
pub(crate) fn valid_stub(alloc: Global, stub: &Component) -> Result<Checked<'_>, Fault> {
    match checked_of(alloc, "", stub) {
        Ok(checked) => Ok(checked),
        Err(bad) => Err(of_file(alloc, bad)),
    }
}

/// The types, imports and aliases among these sections, up to the last imports, in groups.
fn grouped(alloc: Global, sections: &[Section]) -> Result<Vec<FrontGroup>, AllocError> {
    let mut groups = Vec::new(alloc);
    for section in sections.chunks(1).take(imports_end(sections)) {
        if let Some(kind) = kind_of(section) {
            let contents = contents_of(alloc, section)?;
            add_contents(alloc, &mut groups, kind, contents)?;
        }
    }
    Ok(groups)
}

/// How many sections there are up to the last imports.
fn imports_end(sections: &[Section]) -> usize {
    let mut end = 0;
    for (number, section) in sections.iter().enumerate() {
        if let Section::Imports(_) = section {
            end = number.saturating_add(1);
        }
    }
    end
}

/// What the only one of these sections has, if that stands in front of parts.
fn kind_of(section: &[Section]) -> Option<Kind> {
    match section.first() {
        Some(Section::Types(_)) => Some(Kind::Types),
        Some(Section::Imports(_)) => Some(Kind::Imports),
        Some(Section::Aliases(_)) => Some(Kind::Aliases),
        _ => None,
    }
}

/// The contents of the only one of these sections: of a file of it, what stands behind the
/// preamble, the id and the size.
fn contents_of(alloc: Global, section: &[Section]) -> Result<Vec<u8>, AllocError> {
    let file = write_file(alloc, section)?;
    let mut is_contents = false;
    let mut contents = Vec::with_capacity(alloc, file.len())?;
    for byte in file.iter().skip(COMPONENT_PREAMBLE.len().saturating_add(1)) {
        if is_contents {
            contents.push(*byte)?;
        }
        // The last byte of a size is below 128.
        is_contents = is_contents || *byte < 0x80;
    }
    Ok(contents)
}

/// Adds the contents of a section to the last group, or to a new one where this begins one.
fn add_contents(
    alloc: Global,
    groups: &mut Vec<FrontGroup>,
    kind: Kind,
    contents: Vec<u8>,
) -> Result<(), AllocError> {
    if begins_group(groups.last(), kind) {
        groups.push(FrontGroup::empty(alloc)?)?;
    }
    if let Some(group) = groups.last_mut() {
        group.put(kind, contents);
    }
    Ok(())
}

/// Whether a section of a kind begins a group behind this one.
fn begins_group(last: Option<&FrontGroup>, kind: Kind) -> bool {
    match last {
        Some(group) => group.last >= kind,
        None => true,
    }
}

impl FrontGroup {
    /// Three sections that have nothing.
    fn empty(alloc: Global) -> Result<FrontGroup, AllocError> {
        Ok(FrontGroup {
            types: NOTHING.to_vec(alloc)?,
            imports: NOTHING.to_vec(alloc)?,
            aliases: NOTHING.to_vec(alloc)?,
            last: Kind::Types,
        })
    }

    fn put(&mut self, kind: Kind, contents: Vec<u8>) {
        self.last = kind;
        match kind {
            Kind::Types => self.types = contents,
            Kind::Imports => self.imports = contents,
            Kind::Aliases => self.aliases = contents,
        }
    }
}

fn borrowed(alloc: Global, groups: &[FrontGroup]) -> Result<Vec<ImportGroup<'_>>, AllocError> {
    let mut borrowed = Vec::with_capacity(alloc, groups.len())?;
    for group in groups {
        borrowed.push(ImportGroup {
            types: &group.types,
            imports: &group.imports,
            aliases: &group.aliases,
        })?;
    }
    Ok(borrowed)
}

/// A component that exports what stands in front of the parts of the bundle of this name, in order:
/// what is wrong there is told of that name.
pub(crate) fn stub_of(
    alloc: Global,
    name: &str,
    front: &[ImportGroup<'_>],
) -> Result<Component, Fault> {
    let imports = signature_of_front(alloc, name, front)?;
    Ok(provider(alloc, &[imports])?)
}

/// What stands in front of the parts of the bundle of this name, as a component that has nothing
/// else.
pub(crate) fn signature_of_front(
    alloc: Global,
    name: &str,
    front: &[ImportGroup<'_>],
) -> Result<Signature, Fault> {
    let bytes = file_of(alloc, front)?;
    let front = load_part(alloc, name, String::from_str(alloc, name)?, bytes)?;
    Ok(signature(alloc, front.check(alloc)?)?)
}

/// The component that these sections are, as a file.
fn file_of(alloc: Global, front: &[ImportGroup<'_>]) -> Result<Vec<u8>, AllocError> {
    let mut file = COMPONENT_PREAMBLE.to_vec(alloc)?;
    for group in front {
        add_section(&mut file, 0x07, group.types)?;
        add_section(&mut file, 0x0a, group.imports)?;
        add_section(&mut file, 0x06, group.aliases)?;
    }
    Ok(file)
}

fn add_section(file: &mut Vec<u8>, id: u8, contents: &[u8]) -> Result<(), AllocError> {
    file.push(id)?;
    write_count(file, contents.len())?;
    file.extend_from_slice(contents)
}
