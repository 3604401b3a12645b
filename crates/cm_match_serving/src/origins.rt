//! What a resource is in the end.

ghost use Rattle.std.specs.Prelude.{◌≡◌, List};
ghost use Rattle.cm_validate_model.specs.Spaces.{Spaces};
ghost use Rattle.cm_match_model.specs.Origins.{AreOrigins, LeadEarlier, Links, Table};
ghost use Rattle.cm_match_serving.specs.ToldSets.{Describes};

use crate::components::{Components, exists, served};
use cm_types::ResourceId;

/// What a resource of a set is in the end: itself where its component defines it, and else what
/// the resource is that serves it; `None` where there is no such resource. A resource that an
/// import brings and nothing serves is itself. Each link is followed by asking where the resource
/// comes from, what that import is linked to, and what stands there, and leads to an earlier
/// component. Takes no memory.
pub fn origin<C: Components>(components: &C, resource: ResourceId) -> Option<ResourceId>
    ensures { (set : List Spaces) (links : Links) (table : Table)
        → Describes (C.told components.now) set links → LeadEarlier links
        → AreOrigins set links table → result ≡ table resource }
{
    if !exists(components, resource) {
        return None;
    }
    let mut origin = resource;
    for _step in 0..resource.component {
        match served(components, origin) {
            Some(next) if exists(components, next) => origin = next,
            _ => return Some(origin),
        }
    }
    Some(origin)
}
