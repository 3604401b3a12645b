//! What the resources of a component are in the end.

ghost use Rattle.std.specs.Prelude.{◌≡◌};
ghost use Rattle.cm_match.specs.Linked.{set_in};
ghost use Rattle.cm_machine_links.specs.Planning.{destructor_of};

use cm_match::Linked;
use cm_types::ResourceId;
use cm_types_arena::Replacement;
use cm_validate_items::Resource;

/// For each resource of a component, by its place in the set, stands what it is in the end.
#[derive(Clone, Copy)]
pub(crate) struct Origins<'l, 'a> {
    pub(crate) linked: &'l Linked<'a>,
    pub(crate) component: u32,
}

impl<'l, 'a> Replacement for Origins<'l, 'a> {
    ghost use Rattle.cm_match.specs.Linked.{set_in};
    ghost use Rattle.cm_match_model.specs.Serving.{standing};

    ghost replacement = { λ o. standing (set_in o.linked.now) o.component };

    fn replace(&self, id: ResourceId) -> ResourceId {
        match self.linked.resource(self.component, id.number) {
            Some(origin) => origin,
            None => id,
        }
    }
}

/// The destructor of a resource, if the component that defines it names one.
pub(crate) fn destructor(linked: &Linked<'_>, resource: ResourceId) -> Option<u32>
    ensures { result ≡ destructor_of (set_in linked.now) resource }
{
    let definer = linked.components().get(resource.component as usize)?;
    match definer.resource(resource.number)? {
        Resource::Defined { destructor } => destructor,
        Resource::Brought { .. } => None,
    }
}
