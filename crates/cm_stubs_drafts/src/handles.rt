//! Resources by the indices of their types.

use crate::draft::Draft;
use crate::fault::DraftFault;
use cm_types::{Declaration, ExportDecl, ExportDesc, ExternName, ResourceId, TypeBound};
use cm_types_arena::{Move, moved_resource};
use std::alloc::Global;
use std::collections::BTreeMap;
use std::mem;

/// A resource of what is asked: which of the lists it is of, from 0, and its number there.
#[derive(Clone, Copy, PartialEq, Eq, PartialOrd, Ord)]
pub struct ResourceKey {
    pub of: usize,
    pub number: u64,
}

impl ResourceKey {
    /// The resource of a number of an instance of a list, as the list counts it.
    pub fn new(of: usize, number: u64, by: Option<Move>) -> ResourceKey {
        let id = ResourceId {
            component: 0,
            number,
        };
        ResourceKey {
            of,
            number: moved_resource(by, id).number,
        }
    }
}

/// The export of an imported instance that a resource is.
#[derive(Drop)]
struct Home {
    instance: u32,
    name: ExternName,
}

/// A resource that an instance brings, and its name there.
#[derive(Drop)]
pub struct BroughtResource {
    pub key: ResourceKey,
    pub name: ExternName,
}

/// An instance that brings resources, and is imported where one of these is wanted.
#[derive(Drop)]
pub struct Brought {
    pub name: ExternName,
    pub resources: Vec<BroughtResource>,
    pub is_imported: bool,
}

impl Brought {
    /// What declares the resources, and nothing else.
    fn declarations(&self, alloc: Global) -> Result<Vec<Declaration>, DraftFault> {
        let mut declarations = Vec::with_capacity(alloc, self.resources.len())?;
        for resource in &self.resources {
            declarations.push(Declaration::Export(ExportDecl {
                name: resource.name.clone()?,
                desc: ExportDesc::Type(TypeBound::SubResource),
            }))?;
        }
        Ok(declarations)
    }
}

/// The indices of resource types: of those of the component, and of those of the instance type that
/// is declared; and the exports of imported instances that become the former where they are wanted.
#[derive(Drop)]
pub struct Handles {
    alloc: Global,
    component: BTreeMap<ResourceKey, u32>,
    declared: BTreeMap<ResourceKey, u32>,
    homes: BTreeMap<ResourceKey, Home>,
    brought: Vec<Brought>,
    /// The places of what brings resources, by these.
    bringing: BTreeMap<ResourceKey, usize>,
}

impl Handles {
    /// No resources.
    pub fn new(alloc: Global) -> Handles {
        Handles {
            alloc,
            component: BTreeMap::new(alloc),
            declared: BTreeMap::new(alloc),
            homes: BTreeMap::new(alloc),
            brought: Vec::new(alloc),
            bringing: BTreeMap::new(alloc),
        }
    }

    /// The resource is the component's type of this index.
    pub fn define(&mut self, key: ResourceKey, index: u32) -> Result<(), DraftFault> {
        self.component.insert(key, index)?;
        Ok(())
    }

    /// The resource is the type of this index in the instance type that is declared.
    pub fn declare(&mut self, key: ResourceKey, index: u32) -> Result<(), DraftFault> {
        self.declared.insert(key, index)?;
        Ok(())
    }

    /// The resource is what an imported instance exports under a name, if it is none yet.
    pub fn settle(
        &mut self,
        key: ResourceKey,
        instance: u32,
        name: ExternName,
    ) -> Result<(), DraftFault> {
        if !self.is_settled(key) {
            self.homes.insert(key, Home { instance, name })?;
        }
        Ok(())
    }

    /// Whether the resource is a type of the component or of the instance type that is declared, or
    /// what an imported instance exports.
    pub fn is_settled(&self, key: ResourceKey) -> bool {
        self.component.contains_key(&key)
            || self.homes.contains_key(&key)
            || self.declared.contains_key(&key)
    }

    /// No instance type is declared.
    pub fn end_instance(&mut self) {
        self.declared = BTreeMap::new(self.alloc);
    }

    /// An instance that brings these resources may be imported under this name.
    pub fn bring(
        &mut self,
        name: ExternName,
        resources: Vec<BroughtResource>,
    ) -> Result<(), DraftFault> {
        let place = self.brought.len();
        for resource in &resources {
            self.bringing.insert(resource.key, place)?;
        }
        self.brought.push(Brought {
            name,
            resources,
            is_imported: false,
        })?;
        Ok(())
    }

    /// The instances that bring resources: no other is imported from now on.
    pub fn take_brought(&mut self) -> Vec<Brought> {
        self.bringing = BTreeMap::new(self.alloc);
        mem::replace(&mut self.brought, Vec::new(self.alloc))
    }

    /// Imports what brings a resource that nothing imported so far has. `NoResource` comes where
    /// nothing brings it.
    fn import(&mut self, draft: &mut Draft, key: ResourceKey) -> Result<(), DraftFault> {
        let Some(place) = self.bringing.get(&key) else {
            return Err(DraftFault::NoResource);
        };
        let Some(brought) = self.brought.get_mut(*place) else {
            return Err(DraftFault::NoResource);
        };
        brought.is_imported = true;
        let ty = draft.instance_type(brought.declarations(self.alloc)?)?;
        let instance = draft.import_instance(brought.name.clone()?, ty)?;
        for resource in &brought.resources {
            let name = resource.name.clone()?;
            self.homes.insert(resource.key, Home { instance, name })?;
        }
        Ok(())
    }

    /// The index of a resource among the component's types. `NoResource` comes where nothing has
    /// it.
    pub fn in_component(&mut self, draft: &mut Draft, key: ResourceKey) -> Result<u32, DraftFault> {
        if let Some(index) = self.component.get(&key) {
            return Ok(*index);
        }
        if !self.homes.contains_key(&key) {
            self.import(draft, key)?;
        }
        let Some(home) = self.homes.get(&key) else {
            return Err(DraftFault::NoResource);
        };
        let index = draft.type_of(home.instance, home.name.clone()?)?;
        self.component.insert(key, index)?;
        Ok(index)
    }

    /// The index of a resource where types are declared.
    pub fn index(&mut self, draft: &mut Draft, key: ResourceKey) -> Result<u32, DraftFault> {
        if !draft.is_declaring() {
            return self.in_component(draft, key);
        }
        if let Some(index) = self.declared.get(&key) {
            return Ok(*index);
        }
        let outer = self.in_component(draft, key)?;
        let index = draft.outer_type(outer)?;
        self.declared.insert(key, index)?;
        Ok(index)
    }
}
