//! What worlds import and export.

use cm_types::Label;

/// What an import or an export is.
#[derive(Clone, Copy)]
pub enum Thing {
    /// An interface that is declared elsewhere, by its number.
    Interface(usize),
    /// An interface in place, by the number of its scope.
    Inner(usize),
    /// A function, by the number of its world and its place there.
    Func(usize, usize),
    /// A type that a world has by name.
    Type,
}

/// An import or an export: its name, where it is not that of an interface with a path, with the
/// number of that name without ASCII case.
#[derive(Clone, Copy)]
pub struct Item<'a> {
    pub name: Option<&'a Label>,
    pub number: usize,
    pub thing: Thing,
}

/// What a world imports and exports, in the order of its text and of what it includes behind it.
#[derive(Drop)]
pub struct Flat<'a> {
    pub imports: Vec<Item<'a>>,
    pub exports: Vec<Item<'a>>,
}
