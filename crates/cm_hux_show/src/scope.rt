//! The names that an instance, or the world, gives to types and resources.

use crate::keys::{Key, TypeKeys};
use std::alloc::{AllocError, Global};
use std::collections::{BTreeMap, BTreeSet};

/// A name: one of the file, by the number of its text (`Labels`), or one that is made, by its own
/// number.
#[derive(Clone, Copy, PartialEq, Eq)]
pub(crate) enum Name {
    Given(usize),
    Made(usize),
}

/// What a type or a resource was declared as: in the instance of a name, if in one, and under which
/// name there.
#[derive(Clone, Copy)]
pub(crate) struct Home {
    /// The number of the text of the instance's name.
    pub instance: Option<usize>,
    pub name: Name,
}

/// The names of an instance, or of the world, so far: labels are numbers of their texts.
#[derive(Drop)]
pub(crate) struct Scope {
    /// The name of the instance.
    pub instance: Option<usize>,
    /// What stands before each of its lines.
    pub margin: &'static str,
    /// What has a name in it, each by its first one.
    pub names: BTreeMap<Key, Name>,
    /// The labels that are taken.
    pub taken: BTreeSet<usize>,
    /// The places of the methods, static functions and constructors of resources, by their names.
    pub members: BTreeMap<usize, Vec<usize>>,
    /// The resources whose members are written with them.
    pub open: BTreeSet<usize>,
}

impl Scope {
    /// No names.
    pub(crate) fn new(alloc: Global, instance: Option<usize>, margin: &'static str) -> Scope {
        Scope {
            instance,
            margin,
            names: BTreeMap::new(alloc),
            taken: BTreeSet::new(alloc),
            members: BTreeMap::new(alloc),
            open: BTreeSet::new(alloc),
        }
    }

    /// The name of a type or a resource, if it has one.
    pub(crate) fn name(&self, key: Key) -> Option<Name> {
        self.names.get(&key).copied()
    }

    /// The name of a type, or else of a type that is equal to it, if one has one.
    pub(crate) fn type_name(&self, keys: TypeKeys) -> Option<Name> {
        match self.name(keys.own) {
            Some(name) => Some(name),
            None => self.name(keys.equal),
        }
    }

    /// A type has this name, if it has none before.
    pub(crate) fn give_type(&mut self, keys: TypeKeys, name: Name) -> Result<(), AllocError> {
        self.give(keys.own, name)?;
        self.give(keys.equal, name)
    }

    /// A type or a resource has this name, if it has none before.
    pub(crate) fn give(&mut self, key: Key, name: Name) -> Result<(), AllocError> {
        if self.name(key).is_none() {
            self.names.insert(key, name)?;
        }
        Ok(())
    }

    /// A member of a resource of this name stands at a place.
    pub(crate) fn add_member(
        &mut self,
        alloc: Global,
        resource: usize,
        place: usize,
    ) -> Result<(), AllocError> {
        match self.members.get_mut(&resource) {
            Some(places) => {
                places.push(place)?;
            }
            None => {
                self.members.insert(resource, vec![in alloc; place]?)?;
            }
        }
        Ok(())
    }
}
