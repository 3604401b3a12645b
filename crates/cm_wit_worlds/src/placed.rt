//! Interfaces and worlds with their packages.

use cm_wit_reading::{Interface, WitFile, World};

/// An interface with its package, which has this place among the packages.
#[derive(Clone, Copy)]
pub struct PlacedInterface<'a> {
    pub place: usize,
    pub file: &'a WitFile,
    pub interface: &'a Interface,
}

/// A world with its package, which has this place among the packages.
#[derive(Clone, Copy)]
pub struct PlacedWorld<'a> {
    pub place: usize,
    pub file: &'a WitFile,
    pub world: &'a World,
}
