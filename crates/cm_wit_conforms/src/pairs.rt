//! The pairs of resources.

ghost use Rattle.std.specs.Prelude.{◌≡◌, OnOk, None};
ghost use Rattle.cm_types_arena.specs.declared.types.Types.{Types};
ghost use Rattle.cm_types.specs.declared.resource.ResourceId.{ResourceId as Resource};
ghost use Rattle.cm_types.specs.Resources.{same_resource};
ghost use Rattle.cm_wit_conforms.specs.Conformance.{mark, meets_have, meets_world};
ghost use Rattle.cm_wit_conforms.specs.Pairs.{Notes, key_of, pair_in};
ghost use Rattle.cm_wit_conforms.specs.Views.{comparison_of};

use crate::comparisons::Comparison;
use cm_types::ResourceId;
use std::alloc::{AllocError, Global};
use std::collections::BTreeMap;

/// What a table of resources is searched by.
#[derive(Clone, Copy, PartialEq, Eq, PartialOrd, Ord)]
pub(crate) struct ResourceKey {
    component: u32,
    number: u64,
}

/// The pairs that the resources of one side belong to, each given by the place of the comparison in
/// which the resource is first held against another.
#[derive(Drop)]
pub(crate) struct Pairs {
    table: BTreeMap<ResourceKey, usize>,
}

impl Pairs {
    /// No pair yet.
    fn new(alloc: Global) -> Pairs
        ensures { (r : Resource) → pair_in result r ≡ None }
    {
        Pairs {
            table: BTreeMap::new(alloc),
        }
    }

    /// The pair that a resource belongs to.
    pub(crate) fn pair(&self, resource: ResourceId) -> Option<usize>
        ensures { result ≡ pair_in self.now resource }
    {
        self.table.get(&key(resource)).copied()
    }

    /// Takes note of a pair, unless the resource belongs to an earlier one.
    fn note(&mut self, resource: ResourceId, place: usize) -> Result<(), AllocError>
        ensures { OnOk result (Notes (λ r. same_resource r resource) self.old self.new place) }
    {
        match self.pair(resource) {
            Some(earlier) if earlier <= place => Ok(()),
            _ => {
                self.table.insert(key(resource), place)?;
                Ok(())
            }
        }
    }

    /// Takes note of the pair that a comparison makes, for the signature's resource.
    fn note_have(&mut self, what: Comparison, place: usize) -> Result<(), AllocError>
        ensures { OnOk result ((h w : Types)
            → Notes (λ r. meets_world r (comparison_of h w what)) self.old self.new place) }
    {
        match what {
            Comparison::Resources(have, _) => self.note(have, place),
            Comparison::Nothing => Ok(()),
            Comparison::Sorts => Ok(()),
            Comparison::Funcs(_, _) => Ok(()),
            Comparison::Types(_, _) => Ok(()),
        }
    }

    /// Takes note of the pair that a comparison makes, for the world's resource.
    fn note_world(&mut self, what: Comparison, place: usize) -> Result<(), AllocError>
        ensures { OnOk result ((h w : Types)
            → Notes (λ r. meets_have r (comparison_of h w what)) self.old self.new place) }
    {
        match what {
            Comparison::Resources(_, world) => self.note(world, place),
            Comparison::Nothing => Ok(()),
            Comparison::Sorts => Ok(()),
            Comparison::Funcs(_, _) => Ok(()),
            Comparison::Types(_, _) => Ok(()),
        }
    }
}

/// The pairs of the resources of both sides.
#[derive(Drop)]
pub(crate) struct BothPairs {
    pub(crate) have: Pairs,
    pub(crate) world: Pairs,
}

impl BothPairs {
    ghost use Rattle.std.specs.Prelude.{[]};
    ghost use Rattle.cm_wit_conforms.specs.Pairs.{HaveBoth, NoteBoth};

    /// No pair yet.
    pub(crate) fn new(alloc: Global) -> BothPairs
        ensures { HaveBoth [] result }
    {
        BothPairs {
            have: Pairs::new(alloc),
            world: Pairs::new(alloc),
        }
    }

    /// Takes note of the pair that the comparison of a number makes, if it makes one, for each of
    /// its resources that belongs to no earlier one.
    pub(crate) fn note(&mut self, what: Comparison, number: usize) -> Result<(), AllocError>
        ensures { OnOk result ((h w : Types)
            → NoteBoth (comparison_of h w what) self.old self.new number) }
    {
        self.have.note_have(what, number)?;
        self.world.note_world(what, number)
    }
}

fn key(resource: ResourceId) -> ResourceKey
    ensures { result ≡ key_of resource }
{
    ResourceKey {
        component: resource.component,
        number: resource.number,
    }
}

/// What stands for a resource, given its pair.
pub(crate) fn mark(side: u32, pair: Option<usize>) -> ResourceId
    ensures { result ≡ mark side pair }
{
    match pair {
        Some(number) => ResourceId {
            component: 0,
            number: number as u64,
        },
        None => ResourceId {
            component: side,
            number: 0,
        },
    }
}
