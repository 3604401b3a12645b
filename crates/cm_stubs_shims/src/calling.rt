//! The file of a caller, in whose instance types equal named types are one.

use crate::definition::Definition;
use crate::lists::{
    bytes_of, put, write_bytes, write_number, write_place, write_section, write_text,
};
use cm_binary::write_file;
use cm_binary_model::{COMPONENT_PREAMBLE, Component, Section};
use cm_types::{Declaration, DeclaredType, DefType, ExportDecl, ExportDesc, OuterType, TypeBound};
use std::alloc::{AllocError, Global};
use std::collections::{BTreeMap, BTreeSet};

/// The id of a section of types.
const TYPES: u8 = 7;

/// The type of an instance while it is written.
#[derive(Drop)]
struct Scope {
    alloc: Global,
    bytes: Vec<u8>,
    /// For each type the one that stands for it: the export of an equal one, or the first of these.
    same: Vec<u32>,
    /// The first type of each definition.
    first: BTreeMap<Vec<u8>, u32>,
    /// The types that are exports.
    exported: BTreeSet<u32>,
}

impl Scope {
    /// The index of the next type.
    fn next(&self) -> u32 {
        u32::try_from(self.same.len()).unwrap_or(u32::MAX)
    }

    /// The type that stands for the one of an index.
    fn stands(&self, index: u32) -> u32 {
        self.same.get(index as usize).copied().unwrap_or(index)
    }

    /// Declares a type over those that stand for the types in it.
    fn declare(&mut self, ty: &DeclaredType) -> Result<(), AllocError> {
        let mut definition = Definition::of_declared(self.alloc, ty)?;
        definition.settle(&self.same);
        let mut bytes = Vec::new(self.alloc);
        definition.write(&mut bytes, &BTreeMap::new(self.alloc))?;
        put(&mut self.bytes, 0x01)?;
        write_bytes(&mut self.bytes, &bytes)?;
        self.add(bytes)
    }

    /// Adds a type of this definition.
    fn add(&mut self, bytes: Vec<u8>) -> Result<(), AllocError> {
        let next = self.next();
        if let Some(first) = self.first.get(&bytes).copied() {
            let stands = self.stands(first);
            return put(&mut self.same, stands);
        }
        self.first.insert(bytes, next)?;
        put(&mut self.same, next)
    }

    /// Declares a type of the component around.
    fn declare_outer(&mut self, outer: OuterType) -> Result<(), AllocError> {
        write_bytes(&mut self.bytes, &[0x02, 0x03, 0x02])?;
        write_place(&mut self.bytes, outer.count)?;
        write_place(&mut self.bytes, outer.index)?;
        let next = self.next();
        put(&mut self.same, next)
    }

    fn export(&mut self, export: &ExportDecl) -> Result<(), AllocError> {
        write_bytes(&mut self.bytes, &[0x04, 0x00])?;
        write_text(&mut self.bytes, export.name.as_str())?;
        match export.desc {
            ExportDesc::Func(ty) => {
                let ty = self.stands(ty);
                put(&mut self.bytes, 0x01)?;
                write_place(&mut self.bytes, ty)
            }
            ExportDesc::Type(TypeBound::SubResource) => {
                write_bytes(&mut self.bytes, &[0x03, 0x01])?;
                let next = self.next();
                put(&mut self.same, next)
            }
            ExportDesc::Type(TypeBound::Equal(ty)) => self.export_equal(self.stands(ty)),
        }
    }

    /// Exports a type, which stands from now on for those that it stood for, unless it is an export
    /// itself.
    fn export_equal(&mut self, ty: u32) -> Result<(), AllocError> {
        write_bytes(&mut self.bytes, &[0x03, 0x00])?;
        write_place(&mut self.bytes, ty)?;
        let next = self.next();
        if !self.exported.contains(&ty) {
            for same in &mut self.same {
                if *same == ty {
                    *same = next;
                }
            }
        }
        self.exported.insert(next)?;
        put(&mut self.same, next)
    }

    fn add_declaration(&mut self, declaration: &Declaration) -> Result<(), AllocError> {
        match declaration {
            Declaration::Type(ty) => self.declare(ty),
            Declaration::OuterType(outer) => self.declare_outer(*outer),
            Declaration::Export(export) => self.export(export),
        }
    }
}

/// Writes the type of an instance with these declarations.
fn write_instance(
    alloc: Global,
    out: &mut Vec<u8>,
    declarations: &[Declaration],
) -> Result<(), AllocError> {
    let mut scope = Scope {
        alloc,
        bytes: Vec::new(alloc),
        same: Vec::new(alloc),
        first: BTreeMap::new(alloc),
        exported: BTreeSet::new(alloc),
    };
    for declaration in declarations {
        scope.add_declaration(declaration)?;
    }
    put(out, 0x42)?;
    write_number(out, declarations.len())?;
    write_bytes(out, &scope.bytes)
}

/// Writes a type of a caller, which has no resources of its own.
fn write_type(alloc: Global, out: &mut Vec<u8>, ty: &DefType) -> Result<(), AllocError> {
    match ty {
        DefType::Instance(declarations) => write_instance(alloc, out, declarations),
        _ => Definition::of(alloc, ty)?.write(out, &BTreeMap::new(alloc)),
    }
}

/// Writes a section of types.
fn write_types(alloc: Global, out: &mut Vec<u8>, types: &[DefType]) -> Result<(), AllocError> {
    let mut contents = bytes_of(alloc, &[])?;
    write_number(&mut contents, types.len())?;
    for ty in types {
        write_type(alloc, &mut contents, ty)?;
    }
    write_section(out, TYPES, &contents)
}

/// Writes these sections as they stand.
fn write_sections(
    alloc: Global,
    out: &mut Vec<u8>,
    sections: &[Section],
) -> Result<(), AllocError> {
    let file = write_file(alloc, sections)?;
    write_bytes(out, file.get(COMPONENT_PREAMBLE.len()..).unwrap_or(&[]))
}

/// The file of a caller, as `caller` of `cm_stubs` makes it: in the type of an instance a type that
/// is exported stands for all that are equal to it.
pub fn caller_file_of(alloc: Global, stub: &Component) -> Result<Vec<u8>, AllocError> {
    let mut file = bytes_of(alloc, &COMPONENT_PREAMBLE)?;
    for section in stub.sections().chunks(1) {
        match section.first() {
            Some(Section::Types(types)) => write_types(alloc, &mut file, types)?,
            _ => write_sections(alloc, &mut file, section)?,
        }
    }
    Ok(file)
}
