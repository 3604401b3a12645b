//! What stands for resources.

ghost use Rattle.cm_types.specs.Resources.{resolve};

use cm_types::{ResourceId, resolve};

/// What stands for each resource.
pub trait Replacement {
    ghost use Rattle.std.specs.Prelude.{◌≡◌};
    ghost use Rattle.cm_types.specs.declared.resource.ResourceId.{ResourceId};

    ghost replacement: { Self → ResourceId → ResourceId };

    /// What stands for this resource.
    fn replace(&self, id: ResourceId) -> ResourceId
        ensures { result ≡ replacement self.now id };
}

/// A resource for each number, from 0 on: the member at a resource's number stands for it, and
/// where there is none, it stands for itself.
#[derive(Clone, Copy)]
pub struct Row<'a>(pub &'a [ResourceId]);

impl<'a> Replacement for Row<'a> {
    ghost replacement = { λ row. resolve row.0.now };

    fn replace(&self, id: ResourceId) -> ResourceId {
        resolve(self.0, id)
    }
}
