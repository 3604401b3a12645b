//! Worlds as WIT texts write them.

use crate::{Func, Path};
use cm_types::Label;

/// What a world imports or exports: an interface, or a function with its name.
#[derive(Drop)]
pub enum WorldExtern {
    Interface(Path),
    Func(Label, Func),
}

/// An item of a world (WIT.md, `world-items`).
#[derive(Drop)]
pub enum WorldItem {
    Import(WorldExtern),
    Export(WorldExtern),
}

/// A world (WIT.md, "Item: `world`").
#[derive(Drop)]
pub struct World {
    pub name: Label,
    pub items: Vec<WorldItem>,
}
