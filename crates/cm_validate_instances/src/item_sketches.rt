//! What the rules on names need to know of an item.

ghost use Rattle.std.specs.Prelude.{◌≡◌};
ghost use Rattle.cm_validate_instances.specs.ItemSketches.{resource_sketched};

use crate::sketches::FuncSketch;
use cm_types::{ExternName, ResourceId};

/// What is kept of an item of an instance.
#[derive(Clone, Copy)]
pub enum ItemSketch {
    Func(FuncSketch),
    /// A value type.
    Type,
    /// A resource, equal to another or fresh.
    Resource(ResourceId),
}

/// An item of an instance with its name.
#[derive(Drop)]
pub struct NamedSketch {
    pub name: ExternName,
    pub item: ItemSketch,
}

impl ItemSketch {
    /// The resource that the item is, if it is one.
    pub(crate) fn resource(self) -> Option<ResourceId>
        ensures { result ≡ resource_sketched self }
    {
        match self {
            ItemSketch::Resource(resource) => Some(resource),
            ItemSketch::Func(_) | ItemSketch::Type => None,
        }
    }
}
