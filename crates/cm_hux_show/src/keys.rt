//! What has a name in a text.

ghost use Rattle.std.specs.Prelude.{◌≡◌};

use cm_tool_show::Counting;
use cm_types::{ResourceId, TypeNode};
use cm_types_arena::Types;
use std::alloc::{AllocError, Global};

/// What has a name: a resource, by its number, or a type, by its place in the arena and the
/// greatest number of a resource in it, as it is counted where it stands, if it has handles.
///
/// An import counts all resources alike that it brings, and no other has a greater number in a type
/// that it brings: so at one place the greatest number tells which resources a type has.
#[derive(Clone, Copy, PartialEq, Eq, PartialOrd, Ord)]
pub enum Key {
    Resource(u64),
    Type { place: usize, last: Option<u64> },
    /// All types that are equal, by their number.
    Equal(usize),
}

/// What a type is named by: itself, or else any type that is equal to it. A file may define a type
/// again where it is exported, so that only the second one leads to its name.
#[derive(Clone, Copy)]
pub(crate) struct TypeKeys {
    pub own: Key,
    pub equal: Key,
}

/// A type where it is used: its place in the arena, and how its resources are counted.
#[derive(Clone, Copy)]
pub struct Used {
    pub place: usize,
    pub by: Counting,
}

impl Used {
    /// A part of the type, by its place.
    pub fn at(self, place: usize) -> Used
        ensures { result.place ≡ place }
    {
        Used { place, by: self.by }
    }

    /// The number of a resource of the type, as it is counted.
    pub fn resource(self, id: ResourceId) -> u64 {
        self.by.resource(id).number
    }

    /// What has its name, where these are the greatest numbers of resources in types.
    pub fn key(self, lasts: &[Option<u64>]) -> Key {
        let last = match lasts.get(self.place) {
            Some(Some(number)) => {
                let number = *number;
                Some(self.resource(ResourceId {
                    component: 0,
                    number,
                }))
            }
            _ => None,
        };
        Key::Type {
            place: self.place,
            last,
        }
    }
}

/// Of each type of an arena the greatest number of a resource in it, if it has handles.
pub fn last_resources(alloc: Global, types: &Types) -> Result<Vec<Option<u64>>, AllocError> {
    let mut lasts = Vec::with_capacity(alloc, types.len())?;
    for place in 0..types.len() {
        let last = match types.node(place) {
            TypeNode::Own(id) | TypeNode::Borrow(id) => Some(id.number),
            _ => greatest(&lasts, types.parts(place)),
        };
        lasts.push(last)?;
    }
    Ok(lasts)
}

/// The greatest number at these places.
fn greatest(lasts: &[Option<u64>], places: &[usize]) -> Option<u64> {
    let mut last = None;
    for place in places {
        if let Some(Some(number)) = lasts.get(*place) {
            last = Some((*number).max(last.unwrap_or(0)));
        }
    }
    last
}
