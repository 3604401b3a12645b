//! Declarations of types.

use cm_wit_reading::TypeDef;

/// What a name is declared to be.
#[derive(Clone, Copy)]
pub enum Declared<'a> {
    /// A type that is used from the list of names of this number, where it has this name, if its
    /// path leads to an interface.
    Brought(Option<(usize, &'a str)>),
    Defined(&'a TypeDef),
}

/// A type that is declared, among the names of the list that has this number.
#[derive(Clone, Copy)]
pub struct Declaration<'a> {
    pub in_list: usize,
    pub name: &'a str,
    pub is: Declared<'a>,
}

/// An interface, by its number among all, as it is imported or exported by a world.
#[derive(Clone, Copy)]
pub struct Instance {
    pub exported: bool,
    pub interface: usize,
}
