//! The items of interfaces and worlds.

use cm_types::Label;
use cm_wit_projects_reading::{Include, Kept, PlacedGate, ResourceItem, TypeItem};
use cm_wit_reading::{Func, Path, Use};

/// An item, or a function of a resource.
#[derive(Clone, Copy)]
pub enum What<'a> {
    Use(&'a Use),
    Type(&'a Label, &'a TypeItem),
    /// A function of the resource of this name.
    Method(&'a Label, &'a ResourceItem),
    Func(&'a Label, &'a Kept<Func>),
    /// An interface that a world imports or exports.
    Path(&'a Path),
    /// An interface in place, by the number of its scope.
    Inner(&'a Label, usize),
    Include(&'a Include),
}

/// An item, or a function of a resource.
#[derive(Clone, Copy)]
pub struct Entry<'a> {
    pub gates: &'a [PlacedGate],
    /// How many bytes of the text are left from its first token on.
    pub left: usize,
    /// Whether its gates, and those of its resource, let it be there.
    pub there: bool,
    /// Whether a world exports it.
    pub exported: bool,
    pub what: What<'a>,
    /// The number of the interface or world to which its path leads, where it has one.
    pub target: Option<usize>,
}

/// What has names of its own: an interface, a world, or an interface in place.
#[derive(Drop)]
pub struct Scope<'a> {
    pub unit: usize,
    /// The interface or world in which it stands: its own number, where it is one.
    pub declared: usize,
    /// Whether it is a world.
    pub is_world: bool,
    /// Whether gates let it be there.
    pub there: bool,
    pub entries: Vec<Entry<'a>>,
}
