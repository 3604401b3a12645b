//! Functions that a caller imports of no interface.

use crate::definition::{Definition, Kind};
use crate::lists::put;
use cm_binary_model::{Alias, Component, ExternDesc, Import, InstanceExportSort, Section};
use cm_types::DefType;
use std::alloc::{AllocError, Global};

/// For each type of a caller whether it has one that is to be named and is no item of an imported
/// instance.
#[derive(Drop)]
struct Types {
    alloc: Global,
    over_named: Vec<bool>,
}

impl Types {
    /// Whether a type has one that is to be named.
    fn is_over_named(&self, ty: u32) -> bool {
        self.over_named.get(ty as usize).copied().unwrap_or(false)
    }

    /// Adds the types of a section, in order.
    fn add(&mut self, types: &[DefType]) -> Result<(), AllocError> {
        for ty in types {
            let is_over = self.is_defined_over(&Definition::of(self.alloc, ty)?)?;
            put(&mut self.over_named, is_over)?;
        }
        Ok(())
    }

    fn is_defined_over(&self, definition: &Definition) -> Result<bool, AllocError> {
        let mut parts = Vec::new(self.alloc);
        definition.add_types_to(&mut parts)?;
        Ok(definition.kind == Kind::Named || parts.iter().any(|ty| self.is_over_named(*ty)))
    }

    /// Adds the types among aliases, which are items of imported instances.
    fn add_aliases(&mut self, aliases: &[Alias]) -> Result<(), AllocError> {
        for alias in aliases {
            if let Alias::InstanceExport {
                sort: InstanceExportSort::Type,
                ..
            } = alias
            {
                put(&mut self.over_named, false)?;
            }
        }
        Ok(())
    }

    /// The name of the first function among imports whose type has one that is to be named.
    fn func_among<'c>(&self, imports: &'c [Import]) -> Option<&'c str> {
        for import in imports {
            match import.desc {
                ExternDesc::Func(ty) if self.is_over_named(ty) => return Some(import.name.as_str()),
                _ => {}
            }
        }
        None
    }
}

/// The name of the first function that a caller imports itself, of no interface, and whose type has
/// a named type that is no item of an imported instance, so that others do not take it.
pub fn import_over_named(alloc: Global, stub: &Component) -> Result<Option<&str>, AllocError> {
    let mut types = Types {
        alloc,
        over_named: Vec::new(alloc),
    };
    for section in stub.sections() {
        match section {
            Section::Types(defined) => types.add(defined)?,
            Section::Aliases(aliases) => types.add_aliases(aliases)?,
            Section::Imports(imports) => {
                if let Some(name) = types.func_among(imports) {
                    return Ok(Some(name));
                }
            }
            _ => {}
        }
    }
    Ok(None)
}
