//! Which exports the imports of a set see.

use crate::component::Link;
use std::alloc::Global;

/// The place of a component among groups: components in a row that count as one for those behind.
#[derive(Clone, Copy, Debug, PartialEq, Eq)]
pub struct Place {
    /// Whether the component begins a group, which sees what is seen of the groups before it.
    pub begins: bool,
    /// Whether those behind its group see its exports.
    pub is_seen: bool,
}

/// What is chosen of a set: which exports its imports see (how components are linked is this
/// project's own choice). Choices that are empty leave each import all exports before it.
#[derive(Drop)]
pub struct Choices {
    /// The places of the components, in order. Behind those that are given each component is a
    /// group of its own, and seen.
    pub places: Vec<Place>,
    /// The links of imports, by component and number. An import with a link sees that export alone;
    /// one that has none, or is not there, sees what is seen before its group.
    pub links: Vec<Vec<Option<Link>>>,
}

impl Choices {
    ghost use Rattle.std.specs.Prelude.{◌≡◌};
    ghost use Rattle.cm_match_model.specs.Imports.{sees_all};
    ghost use Rattle.cm_match_model.specs.Sights.{sees_in};

    /// Nothing is chosen: each import sees all exports before its component. No memory is taken.
    pub fn none(alloc: Global) -> Choices
        ensures { sees_in result ≡ sees_all }
    {
        Choices {
            places: Vec::new(alloc),
            links: Vec::new(alloc),
        }
    }
}
