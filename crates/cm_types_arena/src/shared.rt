//! Imports and exports whose names share their fronts.

use crate::instances::ItemDesc;
use crate::placed::Placed;
use crate::{Front, SharedName};

/// An item of an instance.
#[derive(Drop)]
pub struct SharedItem {
    pub name: SharedName,
    pub desc: ItemDesc,
}

/// The items of an instance in order, and the fronts of their names.
#[derive(Drop)]
pub struct SharedItems {
    pub fronts: Vec<Front>,
    pub items: Vec<SharedItem>,
}

/// What an import or an export is.
#[derive(Drop)]
pub enum SharedDesc {
    /// A function, by its type among those of functions.
    Func(Placed),
    /// An instance.
    Instance(SharedItems),
}

/// An import or an export.
#[derive(Drop)]
pub struct SharedExtern {
    pub name: SharedName,
    pub desc: SharedDesc,
}

/// Imports or exports in order, and the fronts of their names.
#[derive(Drop)]
pub struct SharedExterns {
    pub fronts: Vec<Front>,
    pub externs: Vec<SharedExtern>,
}
