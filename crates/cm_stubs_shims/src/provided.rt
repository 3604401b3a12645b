//! What a provider defines: its types, of which equal ones are one, and what it lifts.

use crate::definition::{Definition, Kind};
use crate::lists::put;
use cm_binary_model::{Canon, InlineExport, InstanceExportSort, Section};
use cm_types::DefType;
use std::alloc::{AllocError, Global};
use std::collections::BTreeMap;

/// The types of a provider, and the types of the functions that it lifts.
#[derive(Drop)]
pub(crate) struct Provided {
    alloc: Global,
    definitions: Vec<Definition>,
    /// For each type the first one that is equal.
    same: Vec<u32>,
    /// The first type of each definition.
    first: BTreeMap<Vec<u8>, u32>,
    /// For each function its type.
    funcs: Vec<u32>,
    /// Whether a type that has to be named stands there twice.
    pub has_copies: bool,
}

impl Provided {
    /// What these sections define.
    pub(crate) fn of(alloc: Global, sections: &[Section]) -> Result<Provided, AllocError> {
        let mut provided = Provided {
            alloc,
            definitions: Vec::new(alloc),
            same: Vec::new(alloc),
            first: BTreeMap::new(alloc),
            funcs: Vec::new(alloc),
            has_copies: false,
        };
        for section in sections {
            provided.add(section)?;
        }
        Ok(provided)
    }

    fn add(&mut self, section: &Section) -> Result<(), AllocError> {
        match section {
            Section::Types(types) => self.add_types(types),
            Section::Canons(canons) => self.add_canons(canons),
            _ => Ok(()),
        }
    }

    fn add_types(&mut self, types: &[DefType]) -> Result<(), AllocError> {
        for ty in types {
            let mut definition = Definition::of(self.alloc, ty)?;
            definition.settle(&self.same);
            let same = self.first_equal(&definition)?;
            put(&mut self.same, same)?;
            put(&mut self.definitions, definition)?;
        }
        Ok(())
    }

    /// The first type that is equal to this one, which is the next.
    fn first_equal(&mut self, definition: &Definition) -> Result<u32, AllocError> {
        let next = u32::try_from(self.same.len()).unwrap_or(u32::MAX);
        if definition.kind == Kind::Resource {
            return Ok(next);
        }
        let mut bytes = Vec::new(self.alloc);
        definition.write(&mut bytes, &BTreeMap::new(self.alloc))?;
        if let Some(first) = self.first.get(&bytes).copied() {
            self.has_copies = self.has_copies || definition.kind == Kind::Named;
            return Ok(first);
        }
        self.put_first(bytes, next)?;
        Ok(next)
    }

    fn put_first(&mut self, bytes: Vec<u8>, index: u32) -> Result<(), AllocError> {
        self.first.insert(bytes, index)?;
        Ok(())
    }

    fn add_canons(&mut self, canons: &[Canon]) -> Result<(), AllocError> {
        for canon in canons {
            if let Canon::Lift { ty, .. } = canon {
                let ty = self.same_as(*ty);
                put(&mut self.funcs, ty)?;
            }
        }
        Ok(())
    }

    /// How many types there are.
    pub(crate) fn count(&self) -> u32 {
        u32::try_from(self.same.len()).unwrap_or(u32::MAX)
    }

    /// The first type that is equal to the one of an index.
    fn same_as(&self, index: u32) -> u32 {
        self.same.get(index as usize).copied().unwrap_or(index)
    }

    /// The type of the function of this number.
    pub(crate) fn func_type(&self, func: u32) -> u32 {
        self.funcs.get(func as usize).copied().unwrap_or(0)
    }

    /// The type that an item of an instance is, or that of its function.
    pub(crate) fn type_of(&self, item: &InlineExport) -> u32 {
        match item.sort {
            InstanceExportSort::Func => self.func_type(item.index),
            InstanceExportSort::Type => self.same_as(item.index),
        }
    }

    /// The definition of a type.
    pub(crate) fn definition(&self, index: u32) -> Option<&Definition> {
        self.definitions.get(index as usize)
    }

    /// What a type is to the rule of names.
    pub(crate) fn kind(&self, index: u32) -> Kind {
        match self.definition(index) {
            Some(definition) => definition.kind,
            None => Kind::Other,
        }
    }
}
