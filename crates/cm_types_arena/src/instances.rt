//! The types of instances, with places in an arena.

use crate::placed::Placed;
use cm_types::ExternName;

/// The type of an instance (Explainer.md, "Instance Types"): its items in order. The resources that
/// it brings are numbered from `first` on, and are so many as `fresh` says; those of smaller
/// numbers are of the component in which it is defined.
#[derive(Drop)]
pub struct InstanceType {
    pub items: Vec<Item>,
    pub first: u64,
    pub fresh: u64,
}

/// An item of an instance.
#[derive(Drop)]
pub struct Item {
    pub name: ExternName,
    pub desc: ItemDesc,
}

/// What an item is, with places in an arena of types and numbers of resources.
#[derive(Clone, Copy)]
pub enum ItemDesc {
    /// A function, by its type among those of functions.
    Func(Placed),
    /// A type equal to this one.
    EqualType(Placed),
    /// A resource equal to the one of this number.
    EqualResource(u64),
    /// A resource of its own.
    FreshResource(u64),
}
