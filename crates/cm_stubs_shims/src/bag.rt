//! What an instance needs: its types and those in them, and their names.

use crate::definition::Kind;
use crate::lists::put;
use crate::provided::Provided;
use cm_binary_model::{InlineExport, InstanceExportSort};
use std::alloc::{AllocError, Global};
use std::collections::{BTreeMap, BTreeSet};

/// The types that an instance needs, and those that it exports.
#[derive(Drop)]
pub(crate) struct Bag {
    alloc: Global,
    /// All types that its items have, and those in them: each behind those that it has.
    pub needed: BTreeSet<u32>,
    /// The numbers of the items that are a type, by the type.
    pub named: BTreeMap<u32, Vec<usize>>,
}

impl Bag {
    /// What needs nothing.
    fn new(alloc: Global) -> Bag {
        Bag {
            alloc,
            needed: BTreeSet::new(alloc),
            named: BTreeMap::new(alloc),
        }
    }

    /// What the function of this number needs.
    pub(crate) fn of_func(
        alloc: Global,
        provided: &Provided,
        func: u32,
    ) -> Result<Bag, AllocError> {
        let mut bag = Bag::new(alloc);
        let mut types = Vec::new(alloc);
        put(&mut types, provided.func_type(func))?;
        bag.need_all(provided, types)?;
        Ok(bag)
    }

    /// Whether it needs a type that has to be named and is none of these.
    pub(crate) fn needs_others(&self, provided: &Provided, named: &BTreeSet<u32>) -> bool {
        for ty in &self.needed {
            if provided.kind(*ty) != Kind::Other && !named.contains(ty) {
                return true;
            }
        }
        false
    }

    /// What an instance of these items needs.
    pub(crate) fn of(
        alloc: Global,
        provided: &Provided,
        items: &[InlineExport],
    ) -> Result<Bag, AllocError> {
        let mut bag = Bag::new(alloc);
        bag.add_names(provided, items)?;
        bag.add_needed(provided, items)?;
        Ok(bag)
    }

    fn add_names(&mut self, provided: &Provided, items: &[InlineExport]) -> Result<(), AllocError> {
        for (number, item) in items.iter().enumerate() {
            if let InstanceExportSort::Type = item.sort {
                self.add_name(provided.type_of(item), number)?;
            }
        }
        Ok(())
    }

    fn add_name(&mut self, ty: u32, number: usize) -> Result<(), AllocError> {
        if let Some(numbers) = self.named.get_mut(&ty) {
            return put(numbers, number);
        }
        let mut numbers = Vec::new(self.alloc);
        put(&mut numbers, number)?;
        self.named.insert(ty, numbers)?;
        Ok(())
    }

    fn add_needed(
        &mut self,
        provided: &Provided,
        items: &[InlineExport],
    ) -> Result<(), AllocError> {
        let mut found = Vec::new(self.alloc);
        for item in items {
            put(&mut found, provided.type_of(item))?;
        }
        self.need_all(provided, found)
    }

    /// Adds types that are needed, and those in them.
    fn need_all(&mut self, provided: &Provided, types: Vec<u32>) -> Result<(), AllocError> {
        let mut found = types;
        // Each type is needed once, and has its parts found then alone.
        for _found in 0..u64::MAX {
            let Some(ty) = found.pop() else {
                return Ok(());
            };
            self.need(provided, ty, &mut found)?;
        }
        Ok(())
    }

    /// Adds a type that is needed, and finds the types in it where it is new.
    fn need(
        &mut self,
        provided: &Provided,
        ty: u32,
        found: &mut Vec<u32>,
    ) -> Result<(), AllocError> {
        match provided.definition(ty) {
            Some(definition) if self.needed.insert(ty)? => definition.add_types_to(found),
            _ => Ok(()),
        }
    }

    /// Whether it needs a type that has to be named and is among those that were seen, to which its
    /// own are added.
    pub(crate) fn shares(
        &self,
        provided: &Provided,
        seen: &mut BTreeSet<u32>,
    ) -> Result<bool, AllocError> {
        let mut shares = false;
        for ty in &self.needed {
            if provided.kind(*ty) != Kind::Other && !seen.insert(*ty)? {
                shares = true;
            }
        }
        Ok(shares)
    }
}
