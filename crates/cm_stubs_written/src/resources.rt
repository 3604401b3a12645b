//! Resources that are one, under whichever names others import them.

use cm_stubs_drafts::ResourceKey;
use std::alloc::{AllocError, Global};
use std::collections::BTreeMap;

/// Numbers for resources: two numbers that were joined stand for one resource, the root of both.
#[derive(Drop)]
pub(crate) struct Resources {
    /// For each number itself, or another that stands for the same resource.
    parents: Vec<usize>,
    /// For each number how many it stands for.
    sizes: Vec<usize>,
    /// The number of each resource of what is asked.
    numbers: BTreeMap<ResourceKey, usize>,
}

impl Resources {
    /// No resources.
    pub(crate) fn new(alloc: Global) -> Resources {
        Resources {
            parents: Vec::new(alloc),
            sizes: Vec::new(alloc),
            numbers: BTreeMap::new(alloc),
        }
    }

    /// The number of one more resource.
    pub(crate) fn add(&mut self) -> Result<usize, AllocError> {
        let number = self.parents.len();
        self.parents.push(number)?;
        self.sizes.push(1)?;
        Ok(number)
    }

    /// The number that stands for a resource.
    pub(crate) fn root(&self, number: usize) -> usize {
        let mut root = number;
        for _step in 0..self.parents.len() {
            match self.parents.get(root) {
                Some(parent) if *parent != root => root = *parent,
                _ => return root,
            }
        }
        root
    }

    /// How many numbers a root stands for.
    fn size(&self, root: usize) -> usize {
        self.sizes.get(root).copied().unwrap_or(0)
    }

    /// Makes two one: the root of more numbers stands for both.
    fn join(&mut self, a: usize, b: usize) {
        let (a, b) = (self.root(a), self.root(b));
        if a == b {
            return;
        }
        let together = self.size(a).saturating_add(self.size(b));
        let (root, other) = if self.size(a) < self.size(b) {
            (b, a)
        } else {
            (a, b)
        };
        if let Some(parent) = self.parents.get_mut(other) {
            *parent = root;
        }
        if let Some(size) = self.sizes.get_mut(root) {
            *size = together;
        }
    }

    /// A resource of what is asked is the one of this number.
    pub(crate) fn put(&mut self, key: ResourceKey, number: usize) -> Result<(), AllocError> {
        match self.numbers.get(&key).copied() {
            Some(known) => self.join(known, number),
            None => {
                self.numbers.insert(key, number)?;
            }
        }
        Ok(())
    }

    /// The resources of what is asked, each with the number that it has.
    pub(crate) fn numbers(&self) -> &BTreeMap<ResourceKey, usize> {
        &self.numbers
    }
}
