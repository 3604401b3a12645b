//! A type by its place.

ghost use Rattle.std.specs.Prelude.{◌≡◌, ℕ, None};
ghost use Rattle.cm_types.specs.declared.resource.ResourceId.{ResourceId as Resource};
ghost use Rattle.cm_types_arena.specs.Placed.{is_there, moved_by};

use crate::{Move, Replacement};
use cm_types::ResourceId;

/// A type, or the type of a function, by its place in an arena. Where an import brought it, its
/// resources are those of the type at the place, counted as the import counts them.
///
/// So an import of an instance copies no type: the place with the move says what it is.
#[derive(Clone, Copy)]
pub struct Placed {
    pub place: usize,
    pub by: Option<Move>,
}

impl Placed {
    /// What stands at a place, as it is.
    pub fn at(place: usize) -> Placed
        ensures place { result.place ≡ place }
        ensures by { result.by ≡ None }
    {
        Placed { place, by: None }
    }

    /// Whether its place is one of so many, from 0 on.
    pub fn is_there(self, count: usize) -> bool
        ensures { result ≡ is_there count self }
    {
        self.place < count
    }
}

/// The resource that stands for one, where an import may have moved it.
pub fn moved_resource(by: Option<Move>, resource: ResourceId) -> ResourceId
    ensures { result ≡ moved_by by resource }
{
    match by {
        None => resource,
        Some(by) => by.replace(resource),
    }
}
