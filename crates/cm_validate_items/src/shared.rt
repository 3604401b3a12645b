//! The numbers of imports and exports.

ghost use Rattle.std.specs.Prelude.{◌≡◌, IfOk, OnOk, length, slice_get};
ghost use Rattle.cm_validate_model.specs.Spaces.{spaces_of};
ghost use Rattle.cm_validate_model.specs.Valid.{IsValid};
ghost use Rattle.cm_validate_items.specs.Numbers.{no_numbers, numbers_of, with_export, with_import};
ghost use Rattle.cm_validate_items.specs.Numbers.{with_instance, with_type};
ghost use Rattle.cm_validate_items.specs.Shared.{AreShared, exported_instance_in, import_type_in};
ghost use Rattle.cm_validate_items.specs.Shared.{numbers_in};

use crate::pass::add_sections;
use cm_binary_model::Component;
use cm_validate_model::counted_laws::resources_are_counted;
use std::alloc::{AllocError, Global};

/// Which imports of a component are instances of one type, and which exports are one instance
/// (Explainer.md, "Index Spaces"): each has the index under which its type, or the instance, stood
/// first.
#[derive(Drop)]
pub struct Shared {
    types: Vec<usize>,
    instances: Vec<usize>,
    imports: Vec<Option<usize>>,
    exports: Vec<Option<usize>>,
}

impl Shared {
    /// The numbers of a component, in one pass over its definitions. `AllocError` comes where there
    /// is no memory.
    pub fn new(alloc: Global, component: &Component) -> Result<Shared, AllocError>
        ensures numbers { IfOk result (λ w. numbers_in w ≡ numbers_of component.now) }
        ensures shared { IfOk result (λ w. IsValid component.now
            → AreShared (spaces_of component.now) w) }
    {
        resources_are_counted();
        let mut shared = Shared::empty(alloc);
        add_sections(&mut shared, component.sections())?;
        Ok(shared)
    }

    /// The first index of the type of an import, where the import is an instance.
    pub fn import_type(&self, import: usize) -> Option<usize>
        ensures { result ≡ import_type_in self.now import }
    {
        *self.imports.get(import)?
    }

    /// The first index of the instance that an export is, where it is one.
    pub fn exported_instance(&self, export: usize) -> Option<usize>
        ensures { result ≡ exported_instance_in self.now export }
    {
        *self.exports.get(export)?
    }

    /// Before the first definition.
    fn empty(alloc: Global) -> Shared
        ensures { numbers_in result ≡ no_numbers }
    {
        Shared {
            types: Vec::new(alloc),
            instances: Vec::new(alloc),
            imports: Vec::new(alloc),
            exports: Vec::new(alloc),
        }
    }

    /// The next index of a type.
    pub(crate) fn next_type(&self) -> usize
        ensures { result ≡ length (numbers_in self.now).types }
    {
        self.types.len()
    }

    /// The next index of an instance.
    pub(crate) fn next_instance(&self) -> usize
        ensures { result ≡ length (numbers_in self.now).instances }
    {
        self.instances.len()
    }

    /// The first index of the type with this index.
    pub(crate) fn first_type(&self, index: u32) -> Option<usize>
        ensures { result ≡ slice_get (numbers_in self.now).types index }
    {
        self.types.get(index as usize).copied()
    }

    /// The first index of the instance with this index.
    pub(crate) fn first_instance(&self, index: u32) -> Option<usize>
        ensures { result ≡ slice_get (numbers_in self.now).instances index }
    {
        self.instances.get(index as usize).copied()
    }

    /// Adds a type whose first index this is, if there is one.
    pub(crate) fn add_type(&mut self, first: Option<usize>) -> Result<(), AllocError>
        ensures { OnOk result (numbers_in self.new ≡ with_type (numbers_in self.old) first) }
    {
        if let Some(index) = first {
            self.types.push(index)?;
        }
        Ok(())
    }

    /// Adds an instance whose first index this is, if there is one.
    pub(crate) fn add_instance(&mut self, first: Option<usize>) -> Result<(), AllocError>
        ensures { OnOk result (numbers_in self.new ≡ with_instance (numbers_in self.old) first) }
    {
        if let Some(index) = first {
            self.instances.push(index)?;
        }
        Ok(())
    }

    /// Adds an import: of an instance of the type whose first index this is, or of a function.
    pub(crate) fn add_import(&mut self, first: Option<usize>) -> Result<(), AllocError>
        ensures { OnOk result (numbers_in self.new ≡ with_import (numbers_in self.old) first) }
    {
        self.imports.push(first)?;
        Ok(())
    }

    /// Adds an export: of the instance whose first index this is, or of a function.
    pub(crate) fn add_export(&mut self, first: Option<usize>) -> Result<(), AllocError>
        ensures { OnOk result (numbers_in self.new ≡ with_export (numbers_in self.old) first) }
    {
        self.exports.push(first)?;
        Ok(())
    }
}
