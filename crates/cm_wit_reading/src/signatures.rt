//! Functions and the paths of interfaces as WIT texts write them.

use crate::types::WitType;
use cm_wit_tokens::{Label, Version};

/// A parameter or a field: its name and its type.
#[derive(Drop)]
pub struct Typed {
    pub name: Label,
    pub ty: WitType,
}

/// The type of a function (WIT.md, "Item: `func`").
#[derive(Drop)]
pub struct Func {
    pub params: Vec<Typed>,
    pub result: Option<WitType>,
}

/// Where an interface is declared (WIT.md, "Item: `use`").
#[derive(Drop)]
pub enum Path {
    /// In the package of the text.
    Local(Label),
    /// In another package.
    Foreign {
        namespace: Label,
        package: Label,
        interface: Label,
        version: Option<Version>,
    },
}
