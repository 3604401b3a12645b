//! Shims: components that take types and functions, and export them under the names of an instance.

use crate::bag::Bag;
use crate::definition::{Definition, Kind};
use crate::lists::{bytes_of, put, write_bytes, write_place, write_section, write_text};
use crate::names::{func_name, other_name, type_name};
use crate::provided::Provided;
use cm_binary_model::{COMPONENT_PREAMBLE, InlineExport, InstanceExportSort};
use std::alloc::{AllocError, Global};
use std::collections::BTreeMap;

/// The ids of the sections of a shim.
const TYPES: u8 = 7;

const IMPORTS: u8 = 10;

const EXPORTS: u8 = 11;

/// What an argument of a shim is.
#[derive(Clone, Copy, PartialEq, Eq)]
pub(crate) enum ArgumentIs {
    /// The function of an index of the provider.
    Func(u32),
    /// The type of an index of the provider.
    Type(u32),
}

/// What a shim is given under a name.
#[derive(Drop)]
pub(crate) struct Argument {
    pub name: String,
    pub is: ArgumentIs,
}

/// What is known of a type that a shim imports.
#[derive(Clone, Copy, PartialEq, Eq)]
enum Bound {
    /// It is a resource.
    Resource,
    /// It is the shim's type of this index.
    Equal(u32),
}

/// A shim while it is written.
#[derive(Drop)]
pub(crate) struct Shim {
    alloc: Global,
    pub bytes: Vec<u8>,
    pub arguments: Vec<Argument>,
    /// How many types it has.
    types: u32,
    /// The indices that types of the provider have in it: at last those of its exports.
    indices: BTreeMap<u32, u32>,
}

impl Shim {
    /// The shim of an instance of these items.
    pub(crate) fn of(
        alloc: Global,
        provided: &Provided,
        bag: &Bag,
        items: &[InlineExport],
    ) -> Result<Shim, AllocError> {
        let mut shim = Shim {
            alloc,
            bytes: bytes_of(alloc, &COMPONENT_PREAMBLE)?,
            arguments: Vec::new(alloc),
            types: 0,
            indices: BTreeMap::new(alloc),
        };
        shim.import_types(provided, bag, items)?;
        shim.import_funcs(provided, items)?;
        shim.export_types(provided, bag, items)?;
        shim.export_funcs(provided, items)?;
        Ok(shim)
    }

    /// The index of one more type.
    fn next_type(&mut self) -> u32 {
        let index = self.types;
        self.types = index.saturating_add(1);
        index
    }

    /// The index that a type of the provider has.
    fn index(&self, ty: u32) -> u32 {
        self.indices.get(&ty).copied().unwrap_or(0)
    }

    fn put_index(&mut self, ty: u32, index: u32) -> Result<(), AllocError> {
        self.indices.insert(ty, index)?;
        Ok(())
    }

    /// Defines a type over those that it has.
    fn define(&mut self, definition: &Definition) -> Result<u32, AllocError> {
        let mut contents = bytes_of(self.alloc, &[1])?;
        definition.write(&mut contents, &self.indices)?;
        write_section(&mut self.bytes, TYPES, &contents)?;
        Ok(self.next_type())
    }

    /// Adds an import of a type under a name, which is given a type of the provider.
    fn import_type(&mut self, name: String, bound: Bound, ty: u32) -> Result<u32, AllocError> {
        let mut contents = bytes_of(self.alloc, &[1, 0])?;
        write_text(&mut contents, name.as_str())?;
        match bound {
            Bound::Resource => write_bytes(&mut contents, &[0x03, 0x01])?,
            Bound::Equal(index) => {
                write_bytes(&mut contents, &[0x03, 0x00])?;
                write_place(&mut contents, index)?;
            }
        }
        write_section(&mut self.bytes, IMPORTS, &contents)?;
        let is = ArgumentIs::Type(ty);
        put(&mut self.arguments, Argument { name, is })?;
        Ok(self.next_type())
    }

    /// What is known of a type that is imported first: what it is equal to is defined.
    fn bound(&mut self, definition: &Definition) -> Result<Bound, AllocError> {
        match definition.kind {
            Kind::Resource => Ok(Bound::Resource),
            Kind::Named | Kind::Other => Ok(Bound::Equal(self.define(definition)?)),
        }
    }

    /// Imports a type under the names of these items.
    fn import_named(
        &mut self,
        definition: &Definition,
        ty: u32,
        items: &[InlineExport],
        numbers: &[usize],
    ) -> Result<(), AllocError> {
        let mut bound = self.bound(definition)?;
        for number in numbers {
            if let Some(item) = items.get(*number) {
                let name = type_name(self.alloc, item.name.as_str())?;
                let index = self.import_type(name, bound, ty)?;
                self.put_index(ty, index)?;
                bound = Bound::Equal(index);
            }
        }
        Ok(())
    }

    /// Imports a type that has no name, where it has to have one, or defines it.
    fn import_unnamed(&mut self, definition: &Definition, ty: u32) -> Result<(), AllocError> {
        let index = match definition.kind {
            Kind::Other => self.define(definition)?,
            Kind::Named | Kind::Resource => {
                let bound = self.bound(definition)?;
                let name = other_name(self.alloc, ty)?;
                self.import_type(name, bound, ty)?
            }
        };
        self.put_index(ty, index)
    }

    /// Imports or defines all types, each behind those in it.
    fn import_types(
        &mut self,
        provided: &Provided,
        bag: &Bag,
        items: &[InlineExport],
    ) -> Result<(), AllocError> {
        for ty in &bag.needed {
            let Some(definition) = provided.definition(*ty) else {
                continue;
            };
            match bag.named.get(ty) {
                Some(numbers) => self.import_named(definition, *ty, items, numbers)?,
                None => self.import_unnamed(definition, *ty)?,
            }
        }
        Ok(())
    }

    /// Imports the functions, in order.
    fn import_funcs(
        &mut self,
        provided: &Provided,
        items: &[InlineExport],
    ) -> Result<(), AllocError> {
        for item in items {
            if let InstanceExportSort::Func = item.sort {
                let index = self.index(provided.type_of(item));
                self.import_func(item, index)?;
            }
        }
        Ok(())
    }

    /// Imports the function of an item, which has the type of this index.
    fn import_func(&mut self, item: &InlineExport, ty: u32) -> Result<(), AllocError> {
        let name = func_name(self.alloc, item.name.form())?;
        let mut contents = bytes_of(self.alloc, &[1, 0])?;
        write_text(&mut contents, name.as_str())?;
        put(&mut contents, 0x01)?;
        write_place(&mut contents, ty)?;
        write_section(&mut self.bytes, IMPORTS, &contents)?;
        let is = ArgumentIs::Func(item.index);
        put(&mut self.arguments, Argument { name, is })
    }

    /// Exports the type of an index under a name.
    fn export_type(&mut self, name: &str, index: u32) -> Result<u32, AllocError> {
        let mut contents = bytes_of(self.alloc, &[1, 0])?;
        write_text(&mut contents, name)?;
        put(&mut contents, 0x03)?;
        write_place(&mut contents, index)?;
        put(&mut contents, 0x00)?;
        write_section(&mut self.bytes, EXPORTS, &contents)?;
        Ok(self.next_type())
    }

    /// Exports a type under the names of these items: what is defined over exported types.
    fn export_named(
        &mut self,
        definition: &Definition,
        ty: u32,
        items: &[InlineExport],
        numbers: &[usize],
    ) -> Result<(), AllocError> {
        let mut index = match definition.kind {
            Kind::Resource => self.index(ty),
            Kind::Named | Kind::Other => self.define(definition)?,
        };
        for number in numbers {
            if let Some(item) = items.get(*number) {
                index = self.export_type(item.name.as_str(), index)?;
            }
        }
        self.put_index(ty, index)
    }

    /// Defines a type that has no name over exported types; one that had to have a name stays what
    /// was imported.
    fn export_unnamed(&mut self, definition: &Definition, ty: u32) -> Result<(), AllocError> {
        if definition.kind != Kind::Other {
            return Ok(());
        }
        let index = self.define(definition)?;
        self.put_index(ty, index)
    }

    /// Exports the types, each behind those in it.
    fn export_types(
        &mut self,
        provided: &Provided,
        bag: &Bag,
        items: &[InlineExport],
    ) -> Result<(), AllocError> {
        for ty in &bag.needed {
            let Some(definition) = provided.definition(*ty) else {
                continue;
            };
            match bag.named.get(ty) {
                Some(numbers) => self.export_named(definition, *ty, items, numbers)?,
                None => self.export_unnamed(definition, *ty)?,
            }
        }
        Ok(())
    }

    /// Exports the functions, in order, each of its type over exported types.
    fn export_funcs(
        &mut self,
        provided: &Provided,
        items: &[InlineExport],
    ) -> Result<(), AllocError> {
        let mut func: u32 = 0;
        for item in items {
            if let InstanceExportSort::Func = item.sort {
                let ty = self.index(provided.type_of(item));
                self.export_func(item.name.as_str(), func, ty)?;
                func = func.saturating_add(1);
            }
        }
        Ok(())
    }

    /// Exports a function under a name, with its type.
    fn export_func(&mut self, name: &str, func: u32, ty: u32) -> Result<(), AllocError> {
        let mut contents = bytes_of(self.alloc, &[1, 0])?;
        write_text(&mut contents, name)?;
        put(&mut contents, 0x01)?;
        write_place(&mut contents, func)?;
        write_bytes(&mut contents, &[0x01, 0x01])?;
        write_place(&mut contents, ty)?;
        write_section(&mut self.bytes, EXPORTS, &contents)
    }
}
