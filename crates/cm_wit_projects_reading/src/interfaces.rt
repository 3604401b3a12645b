//! Interfaces as WIT texts of projects write them.

use crate::gates::{Gated, Kept};
use cm_types::Label;
use cm_wit_reading::{Func, ResourceFunc, TypeDef, Use};

/// A function of a resource (WIT.md, `resource-method`). One that is left out is known by its name;
/// a constructor has none.
#[derive(Drop)]
pub enum ResourceItem {
    Read(ResourceFunc),
    LeftOut { name: Option<Label>, left: usize },
}

/// What a type is defined to be (WIT.md, `typedef-item`).
#[derive(Drop)]
pub enum TypeItem {
    /// A type that is no resource.
    Def(Kept<TypeDef>),
    Resource(Vec<Gated<ResourceItem>>),
}

/// An item of an interface (WIT.md, `interface-items`).
#[derive(Drop)]
pub enum InterfaceItem {
    Use(Use),
    Type(Label, TypeItem),
    Func(Label, Kept<Func>),
}

/// An interface (WIT.md, "Item: `interface`").
#[derive(Drop)]
pub struct Interface {
    pub name: Label,
    pub items: Vec<Gated<InterfaceItem>>,
}
