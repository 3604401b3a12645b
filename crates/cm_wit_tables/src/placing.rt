//! Finding the instances of a world.

ghost use Rattle.std.specs.Prelude.{◌≡◌, IfOk, map};
ghost use Rattle.cm_names.specs.Keys.{key_view};
ghost use Rattle.cm_names.specs.Listed.{listed};
ghost use Rattle.cm_wit_tables.specs.DeclaredViews.{instance_view};
ghost use Rattle.cm_wit_tables.specs.InstanceKeys.{instance_key, side_word};

use crate::declarations::Instance;
use cm_names::Keys;
use std::alloc::{AllocError, Global};

fn side_word(exported: bool) -> &'static str
    ensures { result.now ≡ side_word exported }
{
    if exported { "export" } else { "import" }
}

/// The keys of instances.
fn instance_keys<'a>(
    alloc: Global,
    instances: &[Instance],
) -> Result<Vec<(usize, &'a str)>, AllocError>
    ensures { IfOk result (λ v.
        map key_view v.items ≡ map instance_key (map instance_view instances.now)) }
{
    let mut keys = Vec::new(alloc);
    for instance in instances {
        keys.push((instance.interface, side_word(instance.exported)))?;
    }
    Ok(keys)
}

/// The instances of a world, with what finds each by one look-up.
#[derive(Drop)]
pub struct Placing<'a> {
    pub instances: &'a [Instance],
    keys: Keys<'a>,
    ghost are_keys: { listed keys ≡ map instance_key (map instance_view instances.now) },
}

impl<'a> Placing<'a> {
    ghost use Rattle.cm_wit_tables.specs.Worlds.{place_of, used_place};
    ghost use Rattle.cm_wit_tables.specs.Placings.{instances_in};

    /// These instances. Refused only where there is no memory.
    pub fn new(alloc: Global, instances: &'a [Instance]) -> Result<Placing<'a>, AllocError>
        ensures { IfOk result (λ p. instances_in p ≡ map instance_view instances.now) }
    {
        let keys = Keys::new(alloc, instance_keys(alloc, instances)?)?;
        Ok(Placing { instances, keys })
    }

    /// The first instance of an interface on this side, if there is one.
    fn place_of(&self, exported: bool, interface: usize) -> Option<usize>
        ensures { result ≡ place_of (instances_in self.now) exported interface }
    {
        self.keys.find(interface, side_word(exported))
    }

    /// Where an instance on this side has the types that it uses from an interface.
    pub fn used_place(&self, exported: bool, interface: usize) -> Option<usize>
        ensures { result ≡ used_place (instances_in self.now) exported interface }
    {
        if !exported {
            return self.place_of(false, interface);
        }
        match self.place_of(true, interface) {
            Some(place) => Some(place),
            None => self.place_of(false, interface),
        }
    }
}
