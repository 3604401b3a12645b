//! Interfaces as WIT texts write them.

use crate::{Func, Path, Typed, WitType};
use cm_types::Label;

/// A name that is used, and the new name that it gets, if it gets one (WIT.md, `use-names-item`).
#[derive(Drop)]
pub struct UsedName {
    pub name: Label,
    pub new_name: Option<Label>,
}

/// Types of an interface that are used in another one (WIT.md, "Item: `use`").
#[derive(Drop)]
pub struct Use {
    pub path: Path,
    pub names: Vec<UsedName>,
}

/// A case of a variant: its name, and its type, if it has one. The type is boxed, so that a case
/// without one takes no room for it.
#[derive(Drop)]
pub struct Case {
    pub name: Label,
    pub ty: Option<Box<WitType>>,
}

/// A function of a resource (WIT.md, `resource-method`).
#[derive(Drop)]
pub enum ResourceFunc {
    Method(Label, Func),
    Static(Label, Func),
    /// A constructor has parameters alone.
    Constructor(Vec<Typed>),
}

/// What a type is defined to be (WIT.md, `typedef-item`).
#[derive(Drop)]
pub enum TypeDef {
    Alias(WitType),
    Record(Vec<Typed>),
    Variant(Vec<Case>),
    Enum(Vec<Label>),
    Flags(Vec<Label>),
    Resource(Vec<ResourceFunc>),
}

/// An item of an interface (WIT.md, `interface-items`).
#[derive(Drop)]
pub enum InterfaceItem {
    Use(Use),
    Type(Label, TypeDef),
    Func(Label, Func),
}

/// An interface (WIT.md, "Item: `interface`").
#[derive(Drop)]
pub struct Interface {
    pub name: Label,
    pub items: Vec<InterfaceItem>,
}
