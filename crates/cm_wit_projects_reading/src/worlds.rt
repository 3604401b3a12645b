//! Worlds as WIT texts of projects write them.

use crate::gates::{Gated, Kept};
use crate::interfaces::{InterfaceItem, TypeItem};
use cm_types::Label;
use cm_wit_reading::{Func, Path, Use};

/// What a world imports or exports (WIT.md, `extern-type`).
#[derive(Drop)]
pub enum WorldExtern {
    /// An interface that is declared elsewhere.
    Path(Path),
    Func(Label, Kept<Func>),
    /// An interface in place.
    Interface(Label, Vec<Gated<InterfaceItem>>),
}

/// A name of an included world, and the name that it gets (WIT.md, `include-names-item`).
#[derive(Drop)]
pub struct Renamed {
    pub name: Label,
    pub new_name: Label,
}

/// A world that is included (WIT.md, `include-item`).
#[derive(Drop)]
pub struct Include {
    pub path: Path,
    pub renamed: Vec<Renamed>,
}

/// An item of a world (WIT.md, `world-items`).
#[derive(Drop)]
pub enum WorldItem {
    Import(WorldExtern),
    Export(WorldExtern),
    Use(Use),
    Type(Label, TypeItem),
    Include(Include),
}

/// A world (WIT.md, "Item: `world`").
#[derive(Drop)]
pub struct World {
    pub name: Label,
    pub items: Vec<Gated<WorldItem>>,
}
